// Laws of the definitions that the contracts cite. Each function does nothing: its contract is the law.
ghost use Rattle.wac_ast_grammar.specs.Tree.{Document};
ghost use Rattle.wac_resolution_rules.specs.Mentions.{Mention, mentions};
ghost use Rattle.std.specs.Prelude.{List};
ghost use Rattle.wac_resolution.specs.Ascending.{AscendInTexts};
ghost use Rattle.wac_resolution.specs.FirstMentions.{first_mentions};
ghost use Rattle.wac_resolution.specs.Packages.{AreFirst, OnlyTheseMatter};

use wac_lexer::items_stand_in_order;
use wac_resolution_rules::only_mentioned_packages_matter;

/// The first mentions say of each key what all mentions say of it, and of the packages
/// that are passed to resolving no others matter.
pub fn only_first_mentions_matter()
    ensures first { (ms : List Mention) → AreFirst ms (first_mentions ms) }
    ensures matter { (document : Document) → OnlyTheseMatter document (first_mentions (mentions document)) }
{
    only_mentioned_packages_matter();
}

/// The mentions of a document of a text are in the order of their places, and so are the first ones.
pub fn mentions_stand_in_order()
    ensures all { (document : Document) → AscendInTexts document (mentions document) }
    ensures first { (document : Document) → AscendInTexts document (first_mentions (mentions document)) }
{
    items_stand_in_order();
}
