// What a command is given besides the files that it has to do.
use std::alloc::Global;
use wac_cli_console::Report;
use wac_package_errors::KnownPackages;

/// Where packages are, which worlds are chosen for them, and in which form errors are reported.
#[derive(Clone, Copy)]
pub struct Given<'g> {
    /// Files with documents that declare packages, files of components, and folders of both.
    pub packages: &'g [&'g str],
    /// Whether packages are looked for in the folders named `deps` and `packages` too, by the place of a document.
    pub with_defaults: bool,
    /// Names of packages, with their versions, each with the path of its component, which is taken before all others.
    pub components: &'g [(&'g str, &'g str)],
    /// Whether a package may have several files, if they agree.
    pub may_agree: bool,
    /// Names of packages, with their versions, each with the world that is chosen. Of two worlds of a package the last
    /// is.
    pub worlds: &'g [(&'g str, &'g str)],
    /// The form of errors.
    pub report: Report,
}

/// What is known when files are checked.
#[derive(Clone, Copy)]
pub(crate) struct Context<'s> {
    pub(crate) alloc: Global,
    pub(crate) report: Report,
    pub(crate) known: KnownPackages<'s>,
}
