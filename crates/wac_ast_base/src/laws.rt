// Laws of parsing. Each function does nothing: its contract is the law.
ghost use Rattle.std.specs.Prelude.{ℕ, List};
ghost use Rattle.wac_ast_grammar.specs.Tree.{PackagePath};
ghost use Rattle.wac_ast_base.specs.FirstFault.{StopsAtFirstFault};
ghost use Rattle.wac_ast_base.specs.Names.{SegmentsStand};

use crate::parse::Parse;

/// What the result of a parser says of the items that it was given.
///
/// Where it is a tree, the items that were taken derive it, and the next one does not continue it. Where it is an error
/// other than out of memory, this lies at the first fault of the production: the items before can begin it, and with
/// the next one they cannot. A fault of the text, an empty body and an invalid version are reported as such, each where
/// it is; other errors say what was found there, and each token that they name can occur there.
///
/// The exception of strings that an argument begins with is stated in the definition, and so is an argument that the
/// end of the input cuts short after its dots.
pub fn parsers_stop_at_first_faults<'a, P: Parse<'a>>()
    ensures { StopsAtFirstFault P.symbol P.tree }
{}

/// The package's name of a path, and each of its segments, is what the source has at its span.
///
/// The path is one of the source, as each path of a text's tree is.
pub fn segments_stand_at_their_spans()
    ensures { (source : List ℕ) (path : PackagePath) → SegmentsStand source path }
{}
