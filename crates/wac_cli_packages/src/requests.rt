// What the commands on one file, or on two, are asked for.
use wac_graph_outputs::Form;

/// A document whose graph is shown.
#[derive(Clone, Copy)]
pub struct GraphRequest<'r> {
    /// The path of the document.
    pub path: &'r str,
    /// The form in which its graph is shown.
    pub form: Form,
}

/// A component whose package is shown.
#[derive(Clone, Copy)]
pub struct PackageRequest<'r> {
    /// The path of the component.
    pub path: &'r str,
    /// The name that the package gets, with its version, as `demo:cache@1.2.0`. Without one it is that of the first
    /// definition, or `root:component` where nothing is defined.
    pub name: Option<&'r str>,
    /// The form in which it is shown.
    pub form: PackageForm,
}

/// A component that is to fit a world.
#[derive(Clone, Copy)]
pub struct TargetRequest<'r> {
    /// The path of the component.
    pub component: &'r str,
    /// The path of the document that declares the world.
    pub document: &'r str,
    /// The name of the world, which a document that declares several needs.
    pub world: Option<&'r str>,
}

/// The form in which the package of a component is shown.
#[derive(Clone, Copy, Debug, PartialEq, Eq)]
pub enum PackageForm {
    /// The documents that declare it, with an empty line between two.
    Wac,
    /// One JSON object, on a line.
    Json,
}
