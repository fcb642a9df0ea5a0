// What the words of the command line ask for.
use clap::{Arg, ArgAction, ArgMatches, Command, Error};
use std::alloc::{AllocError, Global};
use wac_cli::{FormatOptions, LineEnds};
use wac_cli_console::{Action, Report};
use wac_cli_packages::{Form, PackageForm, is_package_key};
use wac_comments::Indent;
use wac_files::MOST_BYTES;

/// The version of the program.
const VERSION: &str = "0.11.0";

/// The version of the program.
pub(crate) fn version() -> &'static str {
    VERSION
}

/// The values that options take. They live as long as the words, since a command has one lifetime for both.
#[derive(Clone, Copy)]
pub(crate) struct Values<'a> {
    colors: [&'a str; 3],
    line_ends: [&'a str; 3],
    reports: [&'a str; 3],
    forms: [&'a str; 3],
    package_forms: [&'a str; 2],
    indents: [&'a str; 17],
}

impl<'a> Values<'a> {
    pub(crate) fn new() -> Self {
        Values {
            colors: ["auto", "always", "never"],
            line_ends: ["auto", "lf", "crlf"],
            reports: ["human", "json", "github"],
            forms: ["text", "json", "dot"],
            package_forms: ["wac", "json"],
            indents: [
                "1", "2", "3", "4", "5", "6", "7", "8", "9", "10", "11", "12", "13", "14", "15",
                "16", "tab",
            ],
        }
    }
}

/// When errors are coloured.
#[derive(Clone, Copy, PartialEq, Eq)]
pub(crate) enum Color {
    Auto,
    Always,
    Never,
}

/// A command with its options.
#[derive(Clone, Copy, PartialEq, Eq)]
pub(crate) enum Work {
    Format(FormatOptions),
    Check(Report),
    Packages,
    Graph(Form),
    Package(PackageForm),
    Targets(Report),
}

/// What is wrong with a component that isn't named as one.
const NO_COMPONENT: &str = "--package takes a package and a file, as in a:b@1.0.0=b.wasm";

/// What is wrong with a size that is none.
const NO_SIZE: &str =
    "--max-size takes a number of bytes, or one with K, M or G after it, as in 64M";

/// What the program has to do.
#[derive(Drop)]
pub(crate) struct Task<'a> {
    pub(crate) work: Work,
    pub(crate) color: Color,
    pub(crate) quiet: bool,
    /// The paths; it is `-` alone for standard input.
    pub(crate) paths: Vec<&'a str>,
    /// Where packages are.
    pub(crate) packages: Vec<&'a str>,
    /// Whether packages are looked for in the folders `deps` and `packages` too.
    pub(crate) with_defaults: bool,
    /// Names of packages, each with the path of its component.
    pub(crate) components: Vec<(&'a str, &'a str)>,
    /// Whether a package may have several files, if they agree.
    pub(crate) may_agree: bool,
    /// Whether documents are parsed, and resolved without packages where they mention none.
    pub(crate) is_syntax: bool,
    /// Names of packages, each with the world that is chosen.
    pub(crate) worlds: Vec<(&'a str, &'a str)>,
    /// The name of standard input in messages.
    pub(crate) input_name: Option<&'a str>,
    /// The key of a component's package.
    pub(crate) key: Option<&'a str>,
    /// The name of a document's world.
    pub(crate) world: Option<&'a str>,
    /// The most bytes that a file may have.
    pub(crate) most: u64,
}

impl Task<'_> {
    /// Whether something is said of packages.
    fn says_packages(&self) -> bool {
        !self.packages.is_empty()
            || !self.components.is_empty()
            || !self.worlds.is_empty()
            || !self.with_defaults
            || self.may_agree
    }

    /// Whether it is done with standard input.
    pub(crate) fn is_of_input(&self) -> bool {
        self.paths.first().copied() == Some("-")
    }
}

/// What the words ask for.
#[derive(Drop)]
pub(crate) enum Request<'a> {
    Run(Task<'a>),
    /// To serve an editor, with the most bytes that a file may have.
    Serve(u64),
    /// Nothing that can be done, for a reason.
    Misused(&'static str),
}

/// What the words ask for. The error is the help, the version, or what is wrong with them.
pub(crate) fn read_words<'a>(
    alloc: Global,
    values: &'a Values<'a>,
    words: &'a [String],
) -> Result<Request<'a>, Error> {
    let matches = definition(alloc, values)?.try_get_matches_from(words)?;
    match matches.subcommand() {
        Some(("fmt", found)) => Ok(request_of(alloc, Work::Format(format_options(found)), found)?),
        Some(("packages", found)) => Ok(request_of(alloc, Work::Packages, found)?),
        Some(("lsp", found)) => Ok(match size_of(found) {
            Some(most) => Request::Serve(most),
            None => Request::Misused(NO_SIZE),
        }),
        Some(("graph", found)) => Ok(request_of(alloc, Work::Graph(form_of(found)), found)?),
        Some(("package", found)) => Ok(request_of(
            alloc,
            Work::Package(package_form_of(found)),
            found,
        )?),
        Some(("targets", found)) => {
            Ok(request_of(alloc, Work::Targets(report_of(found)), found)?)
        }
        Some((_, found)) => Ok(request_of(alloc, Work::Check(report_of(found)), found)?),
        None => Ok(Request::Misused("a command is missing")),
    }
}

/// The task of a command, whose words were found.
fn request_of<'a>(
    alloc: Global,
    work: Work,
    found: &ArgMatches<'a>,
) -> Result<Request<'a>, AllocError> {
    let Some(worlds) = pairs_of(alloc, found, "world")? else {
        return Ok(Request::Misused("--world takes a package and a world, as in a:b@1.0.0=w"));
    };
    let (Some(mut components), Some(mut more)) = (
        pairs_of(alloc, found, "package")?,
        pairs_of(alloc, found, "dep")?,
    ) else {
        return Ok(Request::Misused(NO_COMPONENT));
    };
    components.append(&mut more)?;
    let Some(most) = size_of(found) else {
        return Ok(Request::Misused(NO_SIZE));
    };
    let mut packages = all_of(alloc, found, "packages")?;
    let mut alone = all_of(alloc, found, "deps-dir")?;
    let with_defaults = !found.get_flag("no-packages") && alone.is_empty();
    packages.append(&mut alone)?;
    let task = Task {
        work,
        color: color_of(found),
        quiet: found.get_flag("quiet"),
        paths: paths_of(alloc, found, work)?,
        packages,
        with_defaults,
        components,
        may_agree: found.get_flag("agree"),
        is_syntax: found.get_flag("syntax"),
        worlds,
        input_name: found.get_str("stdin-filepath"),
        key: found.get_str("name"),
        world: found.get_str("WORLD-NAME"),
        most,
    };
    match misuse(&task) {
        Some(reason) => Ok(Request::Misused(reason)),
        None => Ok(Request::Run(task)),
    }
}

/// Why a task can't be done, if it can't.
fn misuse(task: &Task<'_>) -> Option<&'static str> {
    let is_input = task.paths.as_slice().iter().any(|path| *path == "-");
    if is_input && task.paths.len() > 1 {
        Some("`-` can't be used with other paths")
    } else if is_input && reads_files_alone(task.work) {
        Some("this command reads a file, and not standard input")
    } else if task.is_syntax && task.says_packages() {
        Some("--syntax can't be used with what says where packages are")
    } else if has_twice(task.components.as_slice()) {
        Some("--package names a package twice")
    } else if has_twice(task.worlds.as_slice()) {
        Some("--world names a package twice")
    } else if !task
        .components
        .as_slice()
        .iter()
        .all(|(key, _)| is_package_key(key))
    {
        Some(NO_COMPONENT)
    } else if !is_input && task.input_name.is_some() {
        Some("--stdin-filepath is used with the path `-` alone")
    } else if !is_key(task.key) {
        Some("--name takes the key of a package, as a:b or a:b@1.0.0")
    } else {
        None
    }
}

/// Whether two of these have one name.
fn has_twice(pairs: &[(&str, &str)]) -> bool {
    for place in 0..pairs.len() {
        let (name, _) = pairs[place];
        if pairs
            .iter()
            .skip(place.saturating_add(1))
            .any(|(other, _)| *other == name)
        {
            return true;
        }
    }
    false
}

/// The most bytes that a file may have, if the words say a size.
fn size_of(found: &ArgMatches<'_>) -> Option<u64> {
    let Some(text) = found.get_str("max-size") else {
        return Some(MOST_BYTES);
    };
    let (number, unit) = match text.chars().next_back() {
        Some('K') => (text.strip_suffix('K')?, 1 << 10),
        Some('M') => (text.strip_suffix('M')?, 1 << 20),
        Some('G') => (text.strip_suffix('G')?, 1 << 30),
        _ => (text, 1),
    };
    if !number.chars().all(|c| c.is_ascii_digit()) {
        return None;
    }
    number.parse::<u64>().ok()?.checked_mul(unit)
}

/// Whether a key, if it is given, is one.
fn is_key(key: Option<&str>) -> bool {
    match key {
        Some(key) => is_package_key(key),
        None => true,
    }
}

/// Whether a command reads files alone.
fn reads_files_alone(work: Work) -> bool {
    match work {
        Work::Packages | Work::Graph(_) | Work::Package(_) | Work::Targets(_) => true,
        Work::Format(_) | Work::Check(_) => false,
    }
}

/// The paths, and that of the document with a world after them. Where standard input may be read, it is `-` alone.
fn paths_of<'a>(
    alloc: Global,
    found: &ArgMatches<'a>,
    work: Work,
) -> Result<Vec<&'a str>, AllocError> {
    let mut all = all_of(alloc, found, "PATH")?;
    if !reads_files_alone(work) {
        for path in all.as_mut_slice() {
            if *path == "/dev/stdin" {
                *path = "-";
            }
        }
    }
    if let Some(path) = found.get_str("WORLD") {
        all.push(path)?;
    }
    Ok(all)
}

/// All values of an argument.
fn all_of<'a>(
    alloc: Global,
    found: &ArgMatches<'a>,
    name: &str,
) -> Result<Vec<&'a str>, AllocError> {
    let mut all = Vec::new(alloc);
    if let Some(given) = found.get_strs(name) {
        all.extend_from_slice(given)?;
    }
    Ok(all)
}

/// All values of an argument, in two parts, unless one is not written as `KEY=VALUE`.
fn pairs_of<'a>(
    alloc: Global,
    found: &ArgMatches<'a>,
    name: &str,
) -> Result<Option<Vec<(&'a str, &'a str)>>, AllocError> {
    let mut pairs = Vec::new(alloc);
    for value in all_of(alloc, found, name)? {
        match value.split_once('=') {
            None | Some((_, "")) => return Ok(None),
            Some(pair) => pairs.push(pair)?,
        }
    }
    Ok(Some(pairs))
}

fn form_of(found: &ArgMatches<'_>) -> Form {
    match found.get_str("output") {
        Some("json") => Form::Json,
        Some("dot") => Form::Dot,
        _ => Form::Text,
    }
}

fn package_form_of(found: &ArgMatches<'_>) -> PackageForm {
    match found.get_str("output") {
        Some("json") => PackageForm::Json,
        _ => PackageForm::Wac,
    }
}

fn color_of(found: &ArgMatches<'_>) -> Color {
    match found.get_str("color") {
        Some("always") => Color::Always,
        Some("never") => Color::Never,
        _ => Color::Auto,
    }
}

fn report_of(found: &ArgMatches<'_>) -> Report {
    match found.get_str("output") {
        Some("json") => Report::Json,
        Some("github") => Report::Github,
        _ => Report::Human,
    }
}

fn format_options(found: &ArgMatches<'_>) -> FormatOptions {
    let action = if found.get_flag("diff") {
        Action::Diff
    } else if found.get_flag("check") {
        Action::Check
    } else {
        Action::Write
    };
    FormatOptions {
        action,
        indent: indent_of(found),
        line_ends: line_ends_of(found),
    }
}

fn indent_of(found: &ArgMatches<'_>) -> Indent {
    match found.get_str("indent") {
        Some("tab") => Indent::Tab,
        _ => Indent::Blanks(found.get_one::<u8>("indent").unwrap_or(4)),
    }
}

fn line_ends_of(found: &ArgMatches<'_>) -> LineEnds {
    match found.get_str("line-end") {
        Some("lf") => LineEnds::Lf,
        Some("crlf") => LineEnds::CrLf,
        _ => LineEnds::Auto,
    }
}

/// The command line of the program.
fn definition<'a>(alloc: Global, values: &'a Values<'a>) -> Result<Command<'a>, AllocError> {
    Command::new(alloc, "wacx")
        .version(VERSION)
        .about("Formats and checks WAC files, and reads components")
        .subcommand_required(true)
        .subcommand(fmt_definition(alloc, values)?)?
        .subcommand(check_definition(alloc, values)?)?
        .subcommand(packages_definition(alloc, values)?)?
        .subcommand(graph_definition(alloc, values)?)?
        .subcommand(package_definition(alloc, values)?)?
        .subcommand(targets_definition(alloc, values)?)?
        .subcommand(lsp_definition(alloc)?)
}

fn fmt_definition<'a>(alloc: Global, values: &'a Values<'a>) -> Result<Command<'a>, AllocError> {
    let command = Command::new(alloc, "fmt")
        .about("Writes files in the one layout, with every comment in its place")
        .after_help(
            "Paths of the files that were changed, or that aren't tidy, are written to standard output.\n\
            Status: 0 all is well, 1 a file has an error or isn't tidy, 2 wrong use, 3 a file could not be\n\
            read or written, 4 out of memory.",
        )
        .arg(paths(
            alloc,
            "Files, folders for all *.wac below, or - for standard input",
        ))?
        .arg(flag(
            alloc,
            "check",
            "Changes nothing; names the files that aren't tidy",
        ))?
        .arg(flag(
            alloc,
            "diff",
            "Changes nothing; shows how files that aren't tidy differ",
        ))?
        .arg(
            choice(alloc, "indent", values.indents.as_slice(), "4")
                .value_name("1..16|tab")
                .hide_possible_values(true)
                .help("Indents a line by so many blanks a level, or by a tab"),
        )?
        .arg(
            choice(alloc, "line-end", values.line_ends.as_slice(), "auto")
                .value_name("LINE-END")
                .help("What ends lines; auto: what ends the first line"),
        )?;
    of_many(alloc, values, command)
}

fn check_definition<'a>(alloc: Global, values: &'a Values<'a>) -> Result<Command<'a>, AllocError> {
    let command = Command::new(alloc, "check")
        .about("Reports the errors of each file")
        .after_help(
            "Files are parsed, and resolved with the packages that they mention. These are found in the folders deps\n\
            and packages beside a file, or above it up to the folder that holds .git, and where --packages says.\n\
            Of a file all errors of parsing are reported, or the first one of resolving.\n\
            Status: 0 all is well, 1 a file has an error, 2 wrong use, 3 a file could not be read,\n\
            4 out of memory.",
        )
        .arg(paths(
            alloc,
            "Files, folders for all *.wac below, or - for standard input",
        ))?
        .arg(
            choice(alloc, "output", values.reports.as_slice(), "human")
                .value_name("FORM")
                .help("The form of errors"),
        )?
        .arg(flag(
            alloc,
            "syntax",
            "Parses files, and resolves those alone that mention no package",
        ))?;
    of_many(alloc, values, with_packages(alloc, command)?)
}

fn packages_definition<'a>(
    alloc: Global,
    values: &'a Values<'a>,
) -> Result<Command<'a>, AllocError> {
    let command = Command::new(alloc, "packages")
        .about("Lists the packages that a file mentions, and which file declares each")
        .after_help(
            "A line KEY found FILE or KEY missing for each package, which are found as wacx check finds them.\n\
            Status: 0 all are found, 1 one is missing or a file has an error, 2 wrong use, 3 a file could\n\
            not be read, 4 out of memory.",
        )
        .arg(one_path(alloc, "PATH", "PATH", "The file"))?;
    common(alloc, values, with_packages(alloc, command)?)
}

fn graph_definition<'a>(alloc: Global, values: &'a Values<'a>) -> Result<Command<'a>, AllocError> {
    let command = Command::new(alloc, "graph")
        .about("Shows the graph of a file")
        .after_help(
            "Status: 0 all is well, 1 a file has an error, 2 wrong use, 3 a file could not be read,\n\
            4 out of memory.",
        )
        .arg(one_path(alloc, "PATH", "PATH", "The file"))?
        .arg(
            choice(alloc, "output", values.forms.as_slice(), "text")
                .value_name("FORM")
                .help("The form of the graph; dot: for Graphviz"),
        )?;
    common(alloc, values, with_packages(alloc, command)?)
}

/// Adds where packages are, and their worlds.
fn with_packages<'a>(alloc: Global, command: Command<'a>) -> Result<Command<'a>, AllocError> {
    with_supply(alloc, command)?.arg(
        Arg::new(alloc, "world")
            .long("world")
            .value_name("KEY=NAME")
            .action(ArgAction::Append)
            .help("Chooses a world of a package that declares several, as a:b@1.0.0=w"),
    )
}

/// Adds where packages are.
fn with_supply<'a>(alloc: Global, command: Command<'a>) -> Result<Command<'a>, AllocError> {
    command
        .arg(
            Arg::new(alloc, "packages")
                .long("packages")
                .value_name("PATH")
                .action(ArgAction::Append)
                .help("A document, a component or a folder of packages; may be repeated"),
        )?
        .arg(
            Arg::new(alloc, "package")
                .long("package")
                .value_name("KEY=FILE")
                .action(ArgAction::Append)
                .help("Names the package of a component, as a:b@1.0.0=b.wasm; may be repeated"),
        )?
        .arg(
            Arg::new(alloc, "dep")
                .short('d')
                .long("dep")
                .value_name("KEY=FILE")
                .action(ArgAction::Append)
                .help("The same as --package"),
        )?
        .arg(flag(
            alloc,
            "no-packages",
            "Looks for packages where --packages and --package say, and nowhere else",
        ))?
        .arg(
            Arg::new(alloc, "deps-dir")
                .long("deps-dir")
                .value_name("PATH")
                .action(ArgAction::Append)
                .help("The same as --no-packages --packages PATH"),
        )?
        .arg(flag(
            alloc,
            "agree",
            "Compares the files of a package that has several",
        ))
}

fn package_definition<'a>(
    alloc: Global,
    values: &'a Values<'a>,
) -> Result<Command<'a>, AllocError> {
    let command = Command::new(alloc, "package")
        .about("Shows the package of a component, as documents that declare it")
        .after_help(
            "What WAC can't say is a comment in its place, and a warning.\n\
            Status: 0 all is well, 1 a file has an error or there is a warning, 2 wrong use,\n\
            3 a file could not be read, 4 out of memory.",
        )
        .arg(one_path(alloc, "PATH", "FILE.wasm", "The component"))?
        .arg(
            Arg::new(alloc, "name")
                .long("name")
                .value_name("KEY")
                .action(ArgAction::Set)
                .help("The name of the package, as a:b or a:b@1.0.0"),
        )?
        .arg(
            choice(alloc, "output", values.package_forms.as_slice(), "wac")
                .value_name("FORM")
                .help("Documents, or what is decoded as a JSON object"),
        )?;
    common(alloc, values, command)
}

fn targets_definition<'a>(
    alloc: Global,
    values: &'a Values<'a>,
) -> Result<Command<'a>, AllocError> {
    let command = Command::new(alloc, "targets")
        .about("Tests whether a component fits a world")
        .after_help(
            "Nothing is written where it fits, and else the first place where it doesn't.\n\
            Status: 0 it fits, 1 it doesn't or a file has an error, 2 wrong use, 3 a file could not be read,\n\
            4 out of memory.",
        )
        .arg(one_path(alloc, "PATH", "FILE.wasm", "The component"))?
        .arg(one_path(
            alloc,
            "WORLD",
            "WORLD.wac",
            "The document that declares the world",
        ))?
        .arg(
            Arg::new(alloc, "WORLD-NAME")
                .long("world")
                .value_name("WORLD")
                .action(ArgAction::Set)
                .help("The world, where the document declares several"),
        )?
        .arg(
            choice(alloc, "output", values.reports.as_slice(), "human")
                .value_name("FORM")
                .help("The form of errors"),
        )?;
    common(alloc, values, with_supply(alloc, command)?)
}

fn lsp_definition<'a>(alloc: Global) -> Result<Command<'a>, AllocError> {
    Command::new(alloc, "lsp")
        .about("Serves an editor, as a language server on standard input and output")
        .after_help(
            "Status: 0 the editor ended it, 1 it ended otherwise, 3 input or output failed, 4 out of memory.",
        )
        .arg(flag(alloc, "stdio", "Changes nothing; some editors add it"))?
        .arg(max_size(alloc))
}

/// The most bytes that a file may have.
fn max_size<'a>(alloc: Global) -> Arg<'a> {
    Arg::new(alloc, "max-size")
        .long("max-size")
        .value_name("SIZE")
        .action(ArgAction::Set)
        .help(
            "The most bytes that a file may have, as 100000, 500K, 64M or 1G; 64M where nothing is said",
        )
}

fn one_path<'a>(alloc: Global, name: &'a str, shown: &'a str, help: &'a str) -> Arg<'a> {
    Arg::new(alloc, name)
        .required(true)
        .action(ArgAction::Set)
        .value_name(shown)
        .help(help)
}

/// Adds what all commands take.
fn common<'a>(
    alloc: Global,
    values: &'a Values<'a>,
    command: Command<'a>,
) -> Result<Command<'a>, AllocError> {
    command
        .arg(
            choice(alloc, "color", values.colors.as_slice(), "auto")
                .value_name("WHEN")
                .help("Colours errors"),
        )?
        .arg(max_size(alloc))
}

/// Adds what the commands take that do many files, or standard input.
fn of_many<'a>(
    alloc: Global,
    values: &'a Values<'a>,
    command: Command<'a>,
) -> Result<Command<'a>, AllocError> {
    let command = command.arg(
        Arg::new(alloc, "stdin-filepath")
            .long("stdin-filepath")
            .value_name("NAME")
            .action(ArgAction::Set)
            .help("The name of standard input in messages"),
    )?;
    common(alloc, values, command)?.arg(flag(
        alloc,
        "quiet",
        "Leaves out the last line, which counts files",
    ))
}

fn paths<'a>(alloc: Global, help: &'a str) -> Arg<'a> {
    Arg::new(alloc, "PATH")
        .required(true)
        .action(ArgAction::Append)
        .num_args(1..)
        .value_name("PATH")
        .help(help)
}

fn flag<'a>(alloc: Global, name: &'a str, help: &'a str) -> Arg<'a> {
    Arg::new(alloc, name)
        .long(name)
        .action(ArgAction::SetTrue)
        .help(help)
}

fn choice<'a>(alloc: Global, name: &'a str, values: &'a [&'a str], default: &'a str) -> Arg<'a> {
    Arg::new(alloc, name)
        .long(name)
        .action(ArgAction::Set)
        .value_parser(values)
        .default_value(default)
}
