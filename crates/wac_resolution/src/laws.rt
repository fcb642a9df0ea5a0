// Laws of what resolving returns. Each function does nothing: its contract is the law.
ghost use Rattle.std.specs.Prelude.{ℕ, List, Result};
ghost use Rattle.std.specs.Str.{IsUtf8};
ghost use Rattle.wac_graph_types.specs.Package.{PackageParts};
ghost use Rattle.wac_graph_types.specs.Scope.{Named};
ghost use Rattle.wac_graph.specs.declared.package_key.PackageKey.{PackageKey};
ghost use Rattle.wac_ast_grammar.specs.TextTree.{IsTreeOf};
ghost use Rattle.wac_ast_grammar.specs.Tree.{Document};
ghost use Rattle.wac_printer_layout.specs.Reread.{IsReread};
ghost use Rattle.wac_resolution_errors.specs.declared.error.Error.{Error};
ghost use Rattle.wac_resolution_rules.specs.Given.{Rules};
ghost use Rattle.wac_resolution_rules.specs.ResolvedDocument.{DescribeAlike, EveryNumbering};
ghost use Rattle.wac_resolution.specs.Layout.{DescribedClause, ReturnedAlike, SameBareTree};
ghost use Rattle.wac_resolution.specs.Resolved.{Promised, Resolved, returned, call};

use wac_ast_grammar::trees_stand_in_their_text;

/// Formatting changes no graph. What is printed of a document has the same bare tree, and documents with the same bare tree are described alike:
/// what resolving returns for them are graphs that mean the same, or two errors, unless memory runs out.
pub fn formatting_changes_no_graph()
    ensures printed { (source text : List ℕ) (document again : Document) → IsUtf8 source → IsTreeOf source document
        → IsUtf8 text → IsTreeOf text again → IsReread text again source document → SameBareTree document again }
    ensures described { (document other : Document) → SameBareTree document other → DescribeAlike document other }
    ensures returned { (packages : List (PackageKey × PackageParts)) (rules : Rules) (document other : Document)
        (declared other_declared : Named ℕ) (r s : Result Resolved Error) → SameBareTree document other
        → Promised DescribedClause (call packages rules document r) declared
        → Promised DescribedClause (call packages rules other s) other_declared
        → EveryNumbering (λ numbering. ReturnedAlike (returned numbering declared r)
        (returned numbering other_declared s)) }
{
    trees_stand_in_their_text();
}
