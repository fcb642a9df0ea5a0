//! Messages as names and the words around them.
ghost use Rattle.std.specs.Fmt.{WritesOnOk};
ghost use Rattle.wac_resolution_errors.specs.Shapes.{quoted, pair, kinded, kinded_within, part_of_function, missing_export, world_item, include_conflict, export_conflict, use_conflict, target_mismatch};

use crate::operation::InstanceOperation;
use std::fmt;
use wac_graph_types::{ExternKind, FuncKind};

/// A message.
#[derive(Drop)]
pub(crate) enum Message<'a> {
    /// A sentence without names.
    Plain(&'static str),
    /// What comes before a name, the name, and what comes after it.
    Quoted(&'static str, &'a String, &'static str),
    /// The same with a second name at the end.
    Pair(&'static str, &'a String, &'static str, &'a String),
    /// A name, what it denotes, and how that doesn't fit.
    Kinded(&'a String, &'static str, &'static str),
    /// The same with a second name at the end.
    KindedWithin(&'a String, &'static str, &'static str, &'a String),
    /// A function has two parts of one name: what it is, what they are, and the name.
    PartOfFunction(FuncKind, &'static str, &'a String),
    /// An item of a package does not have what a path names.
    MissingExport {
        kind: &'static str,
        path: &'a String,
        package: &'a String,
        export: &'a String,
    },
    /// A world has the name already.
    WorldItem {
        kind: ExternKind,
        name: &'a String,
        world: &'a String,
    },
    /// A world that is included has a name of the world that includes it.
    IncludeConflict {
        kind: ExternKind,
        name: &'a String,
        from: &'a String,
        to: &'a String,
    },
    /// An export has the name of a definition.
    ExportConflict {
        name: &'a String,
        kind: &'static str,
    },
    /// A name is imported, or exported, twice.
    ExternName {
        kind: ExternKind,
        name: &'a String,
    },
    /// No import, or no export, may have the name.
    InvalidName {
        kind: ExternKind,
        name: &'a String,
    },
    /// A used type has the name of an import or export.
    UseConflict {
        kind: ExternKind,
        name: &'a String,
    },
    /// An import or export doesn't fit the target world.
    TargetMismatch {
        kind: ExternKind,
        name: &'a String,
        world: &'a String,
    },
    /// What is accessed or spread is not an instance.
    InstanceRequired(InstanceOperation),
}

impl fmt::Display for Message<'_> {
    ghost use Rattle.std.specs.Prelude.{Some};
    ghost use Rattle.wac_resolution_errors.specs.Shown.{shown};

    ghost output = { λ message. Some (shown message) };

    fn fmt<W: fmt::Write>(&self, f: &mut fmt::Formatter<W>) -> fmt::Result {
        match self {
            Message::Plain(text) => f.write_str(text),
            Message::Quoted(before, name, after) => write_quoted(f, before, name, after),
            Message::Pair(before, first, between, second) => write_pair(
                f, before, first, between, second,
            ),
            Message::Kinded(name, kind, fault) => write_kinded(f, name, kind, fault),
            Message::KindedWithin(name, kind, fault, second) => write_kinded_within(
                f, name, kind, fault, second,
            ),
            Message::PartOfFunction(kind, part, name) => write_part_of_function(
                f, *kind, part, name,
            ),
            Message::MissingExport {
                kind,
                path,
                package,
                export,
            } => write_missing_export(f, kind, path, package, export),
            Message::WorldItem { kind, name, world } => write_world_item(f, *kind, name, world),
            Message::IncludeConflict {
                kind,
                name,
                from,
                to,
            } => write_include_conflict(f, *kind, name, from, to),
            Message::ExportConflict { name, kind } => write_export_conflict(f, name, kind),
            Message::ExternName { kind, name } => write!(f, "duplicate {kind} `{name}`"),
            Message::InvalidName { kind, name } => write!(f, "{kind} name `{name}` is not valid"),
            Message::UseConflict { kind, name } => write_use_conflict(f, *kind, name),
            Message::TargetMismatch { kind, name, world } => write_target_mismatch(
                f, *kind, name, world,
            ),
            Message::InstanceRequired(operation) => write!(
                f,
                "an instance is required to perform {operation}"
            ),
        }
    }
}

// Writes a message about one name.
#[tactic(auto, unfolding(crate::specs::Shapes::quoted))]
fn write_quoted<W: fmt::Write>(
    f: &mut fmt::Formatter<W>,
    before: &str,
    name: &str,
    after: &str,
) -> fmt::Result
    ensures { WritesOnOk W.write_str_gives f.old result (quoted before.now name.now after.now) f.new }
{
    write!(f, "{before}`{name}`{after}")
}

// Writes a message about two names.
#[tactic(auto, unfolding(crate::specs::Shapes::pair))]
fn write_pair<W: fmt::Write>(
    f: &mut fmt::Formatter<W>,
    before: &str,
    first: &str,
    between: &str,
    second: &str,
) -> fmt::Result
    ensures { WritesOnOk W.write_str_gives f.old result (pair before.now first.now between.now second.now) f.new }
{
    write!(f, "{before}`{first}`{between}`{second}`")
}

// Writes that a name denotes something that doesn't fit.
#[tactic(auto, unfolding(crate::specs::Shapes::kinded))]
fn write_kinded<W: fmt::Write>(
    f: &mut fmt::Formatter<W>,
    name: &str,
    kind: &str,
    fault: &str,
) -> fmt::Result
    ensures { WritesOnOk W.write_str_gives f.old result (kinded name.now kind.now fault.now) f.new }
{
    write!(f, "`{name}` ({kind}) {fault}")
}

// Writes that a name denotes something that doesn't fit, with a second name.
#[tactic(auto, unfolding(crate::specs::Shapes::kinded_within))]
fn write_kinded_within<W: fmt::Write>(
    f: &mut fmt::Formatter<W>,
    name: &str,
    kind: &str,
    fault: &str,
    second: &str,
) -> fmt::Result
    ensures { WritesOnOk W.write_str_gives f.old result (kinded_within name.now kind.now fault.now second.now) f.new }
{
    write!(f, "`{name}` ({kind}) {fault} `{second}`")
}

// Writes that a function has two parts of one name.
#[tactic(auto, unfolding(crate::specs::Shapes::part_of_function))]
fn write_part_of_function<W: fmt::Write>(
    f: &mut fmt::Formatter<W>,
    kind: FuncKind,
    part: &str,
    name: &str,
) -> fmt::Result
    ensures { WritesOnOk W.write_str_gives f.old result (part_of_function kind part.now name.now) f.new }
{
    write!(f, "duplicate {kind} {part} `{name}`")
}

// Writes that an item of a package does not have what a path names.
#[tactic(auto, unfolding(crate::specs::Shapes::missing_export))]
fn write_missing_export<W: fmt::Write>(
    f: &mut fmt::Formatter<W>,
    kind: &str,
    path: &str,
    owner: &str,
    export: &str,
) -> fmt::Result
    ensures { WritesOnOk W.write_str_gives f.old result (missing_export kind.now path.now owner.now export.now) f.new }
{
    write!(
        f,
        "{kind} `{path}` in package `{owner}` has no export named `{export}`"
    )
}

// Writes that a world imports, or exports, a name twice.
#[tactic(auto, unfolding(crate::specs::Shapes::world_item))]
fn write_world_item<W: fmt::Write>(
    f: &mut fmt::Formatter<W>,
    kind: ExternKind,
    name: &str,
    world: &str,
) -> fmt::Result
    ensures { WritesOnOk W.write_str_gives f.old result (world_item kind name.now world.now) f.new }
{
    write!(
        f,
        "{kind} `{name}` conflicts with existing {kind} of the same name in world `{world}`"
    )
}

// Writes that a world that is included has a name of the world that includes it.
#[tactic(auto, unfolding(crate::specs::Shapes::include_conflict))]
fn write_include_conflict<W: fmt::Write>(
    f: &mut fmt::Formatter<W>,
    kind: ExternKind,
    name: &str,
    from: &str,
    to: &str,
) -> fmt::Result
    ensures { WritesOnOk W.write_str_gives f.old result (include_conflict kind name.now from.now to.now) f.new }
{
    write!(
        f,
        "{kind} `{name}` from world `{from}` conflicts with {kind} of the same name in world `{to}`"
    )
}

// Writes that an export has the name of a definition.
#[tactic(auto, unfolding(crate::specs::Shapes::export_conflict))]
fn write_export_conflict<W: fmt::Write>(
    f: &mut fmt::Formatter<W>,
    name: &str,
    kind: &str,
) -> fmt::Result
    ensures { WritesOnOk W.write_str_gives f.old result (export_conflict name.now kind.now) f.new }
{
    write!(f, "export `{name}` conflicts with {kind} definition")
}

// Writes that a used type has the name of an import or export.
#[tactic(auto, unfolding(crate::specs::Shapes::use_conflict))]
fn write_use_conflict<W: fmt::Write>(
    f: &mut fmt::Formatter<W>,
    kind: ExternKind,
    name: &str,
) -> fmt::Result
    ensures { WritesOnOk W.write_str_gives f.old result (use_conflict kind name.now) f.new }
{
    write!(
        f,
        "use of type `{name}` conflicts with an {kind} of the same name"
    )
}

// Writes that an import or export doesn't fit its target world.
#[tactic(auto, unfolding(crate::specs::Shapes::target_mismatch))]
fn write_target_mismatch<W: fmt::Write>(
    f: &mut fmt::Formatter<W>,
    kind: ExternKind,
    name: &str,
    world: &str,
) -> fmt::Result
    ensures { WritesOnOk W.write_str_gives f.old result (target_mismatch kind name.now world.now) f.new }
{
    write!(
        f,
        "{kind} `{name}` has a mismatched type for target world `{world}`"
    )
}
