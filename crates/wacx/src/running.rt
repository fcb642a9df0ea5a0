// Doing what the words ask for.
use crate::arguments::Words;
use crate::command::{Color, Task, Work};
use std::env::VarError;
use std::io::{IsTerminal, Stderr, Stdout};
use std::process::ExitCode;
use std::{env, process};
use wac_cli::{check_input, check_paths, format_input, format_paths};
use wac_cli_console::{Console, InputOptions, Report, Status, read_all};
use wac_cli_packages::{
    Given, GraphRequest, InputText, PackageForm, PackageRequest, TargetRequest,
    check_input_with_packages, check_target, check_with_packages, list_packages, show_graph,
    show_package,
};
use wac_files::Disk;

/// Does a task with the files and streams of the process.
pub(crate) fn perform(rt: &HostRuntime, task: &Task<'_>, words: &Words) -> ExitCode {
    let status = if task.is_of_input() {
        perform_on_input(rt, task)
    } else {
        perform_on_files(rt, task)
    };
    ExitCode::from(status.code())
}

/// Where a task writes.
fn console_of(rt: &HostRuntime, task: &Task<'_>) -> Console<Stdout, Stderr> {
    let color = is_colored(rt, task.color);
    let mut console = Console::new(rt.stdout(), rt.stderr(), color, task.quiet);
    console.set_on_terminal(rt.stdout().is_terminal());
    console
}

/// Does a task with standard input.
fn perform_on_input(rt: &HostRuntime, task: &Task<'_>) -> Status {
    let mut console = console_of(rt, task);
    let mut input = rt.stdin();
    let reading = InputOptions {
        name: task.input_name,
        most: task.most,
    };
    match task.work {
        Work::Format(options) => {
            format_input(rt.alloc(), &mut input, &mut console, options, reading)
        }
        Work::Check(report) if task.is_syntax => {
            check_input(rt.alloc(), &mut input, &mut console, report, reading)
        }
        Work::Check(report) => {
            let text = InputText {
                name: task.input_name,
                read: read_all(rt.alloc(), &mut input, task.most),
            };
            let mut files = files_of(rt, task);
            let given = given_of(task, report);
            check_input_with_packages(rt.alloc(), &mut files, &mut console, given, text)
        }
        // The words of the command line allow no standard input here.
        Work::Packages | Work::Graph(_) | Work::Package(_) | Work::Targets(_) => Status::Wrong,
    }
}

/// The files of the system, for a task.
fn files_of(rt: &HostRuntime, task: &Task<'_>) -> Disk<HostRuntime> {
    Disk::new(*rt, process::id(rt.process()), task.most)
}

/// Does a task with files.
fn perform_on_files(rt: &HostRuntime, task: &Task<'_>) -> Status {
    let mut console = console_of(rt, task);
    let mut files = files_of(rt, task);
    let paths = task.paths.as_slice();
    let first = path_at(paths, 0);
    match task.work {
        Work::Format(options) => {
            format_paths(rt.alloc(), &mut files, &mut console, options, paths)
        }
        Work::Check(report) if task.is_syntax => {
            check_paths(rt.alloc(), &mut files, &mut console, report, paths)
        }
        Work::Check(report) => {
            let given = given_of(task, report);
            check_with_packages(rt.alloc(), &mut files, &mut console, given, paths)
        }
        Work::Packages => {
            let given = given_of(task, Report::Human);
            list_packages(rt.alloc(), &mut files, &mut console, given, first)
        }
        Work::Graph(form) => {
            let given = given_of(task, Report::Human);
            let request = GraphRequest { path: first, form };
            show_graph(rt.alloc(), &mut files, &mut console, given, request)
        }
        Work::Package(form) => {
            let request = package_request(task, form);
            show_package(rt.alloc(), &mut files, &mut console, request)
        }
        Work::Targets(report) => {
            let given = given_of(task, report);
            let request = target_request(task);
            check_target(rt.alloc(), &mut files, &mut console, given, request)
        }
    }
}

/// Where the packages of a task are.
fn given_of<'t>(task: &'t Task<'_>, report: Report) -> Given<'t> {
    Given {
        packages: task.packages.as_slice(),
        with_defaults: task.with_defaults,
        components: task.components.as_slice(),
        may_agree: task.may_agree,
        worlds: task.worlds.as_slice(),
        report,
    }
}

/// The component whose package a task shows.
fn package_request<'t>(task: &Task<'t>, form: PackageForm) -> PackageRequest<'t> {
    PackageRequest {
        path: path_at(task.paths.as_slice(), 0),
        name: task.key,
        form,
    }
}

/// The component that a task compares with a world.
fn target_request<'t>(task: &Task<'t>) -> TargetRequest<'t> {
    let paths = task.paths.as_slice();
    TargetRequest {
        component: path_at(paths, 0),
        document: path_at(paths, 1),
        world: task.world,
    }
}

/// The path at a place. A command has as many as its definition says.
fn path_at<'p>(paths: &[&'p str], place: usize) -> &'p str {
    match paths.get(place) {
        Some(path) => path,
        None => "",
    }
}

/// Whether errors are coloured.
fn is_colored(rt: &HostRuntime, color: Color) -> bool {
    match color {
        Color::Always => true,
        Color::Never => false,
        Color::Auto => rt.stderr().is_terminal() && !refuses_color(rt),
    }
}

/// Whether the environment asks for no colour.
fn refuses_color(rt: &HostRuntime) -> bool {
    let asked = match env::var(rt, "NO_COLOR") {
        Ok(text) => !text.is_empty(),
        Err(VarError::NotPresent) => false,
        Err(_) => true,
    };
    let is_dumb = match env::var(rt, "TERM") {
        Ok(text) => text.as_str() == "dumb",
        Err(_) => false,
    };
    asked || is_dumb
}
