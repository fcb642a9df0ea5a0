// Laws of the definitions that the contracts cite. Each function does nothing: its contract is the law.
ghost use Rattle.std.specs.Prelude.{◌≡◌, ◌≢◌, ◌↔◌, ℕ, Bool, List, Ok, Err};
ghost use Rattle.std.specs.Str.{IsUtf8};
ghost use Rattle.wac_lexer.specs.Item.{Item};
ghost use Rattle.wac_lexer.specs.declared.token.Token as the_token;
ghost use Rattle.wac_ast_grammar.specs.Consumed.{Consumed};
ghost use Rattle.wac_ast_grammar.specs.Grammar.{Sym, argument, TreeOf};
ghost use Rattle.wac_ast_grammar.specs.Reading.{Stop, read};
ghost use Rattle.wac_ast_grammar.specs.Leaves.{DocumentPasses, Leaf, LeavesPass};
ghost use Rattle.wac_ast_grammar.specs.Stopped.{ArgumentStopped, EndsBefore, Stopped};
ghost use Rattle.wac_ast_grammar.specs.TokenTexts.{HasText};
ghost use Rattle.wac_ast_grammar.specs.Tree.{Document};
ghost use Rattle.wac_ast_grammar.specs.TextTree.{IsTreeOf, StandsIn};

use wac_lexer::items_stand_in_order;

/// The tree that is read of items derives from those that were taken.
pub fn what_is_read_derives()
    ensures { (s : Sym) (old new : List Item) (t : TreeOf s) → read s old ≡ Ok (t, new) → Consumed s old new t }
{}

/// Each token that a text can be has a text of its shape, which is right wherever the token may occur.
pub fn tokens_have_texts()
    ensures { (k : the_token.Token) → HasText k }
{}

/// All spans of a text's tree slice the text, and the texts of its names, strings and paths are read there.
pub fn trees_stand_in_their_text()
    ensures { (text : List ℕ) (tree : Document) → IsUtf8 text → IsTreeOf text tree → StandsIn text tree }
{
    items_stand_in_order();
}

/// A test passes at a tree exactly where it passes at each of the tree's leaves.
pub fn trees_are_as_their_leaves()
    ensures { (test : Leaf → Bool) (tree : Document) → DocumentPasses test tree ↔ LeavesPass test tree }
{}

/// A rejection lies at the first fault of the part that was to be read, and each token that it names can occur there.
pub fn refusals_lie_at_first_faults()
    ensures { (s : Sym) (xs : List Item) (stop : Stop) → s ≢ argument → read s xs ≡ Err stop → Stopped s xs stop }
{}

/// So it does where an argument was to be read, except where the input ends after its dots, which may be all of it.
pub fn arguments_are_refused_at_first_faults()
    ensures { (xs : List Item) (stop : Stop) → read argument xs ≡ Err stop → ArgumentStopped xs stop }
{}

/// Where a tree was read, the next item does not continue it.
pub fn trees_end_where_they_must()
    ensures { (s : Sym) (front rest : List Item) (x : Item) (tree : TreeOf s) → EndsBefore s front x rest tree }
{}
