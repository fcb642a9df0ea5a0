// Laws of the definitions that the lexer's contracts cite. Each function does nothing: its contract is the law.
ghost use Rattle.std.specs.Prelude.{◌≡◌, ◌↔◌, ℕ, IsTrue, List, Result, length, [], true, None, Some};
ghost use Rattle.std.specs.Str.{IsUtf8};
ghost use Rattle.wac_lexer.specs.Characters.{FindsRefused, refused};
ghost use Rattle.wac_lexer.specs.Comments.{Inside, after, gap};
ghost use Rattle.wac_lexer.specs.First.{FindsFirst};
ghost use Rattle.wac_lexer.specs.Gap.{DocsStandInGap, IsLongestGap};
ghost use Rattle.wac_lexer.specs.Items.{items, first_item};
ghost use Rattle.wac_lexer.specs.Order.{InOrder};
ghost use Rattle.wac_lexer.specs.Pattern.{Pattern, Matches, matches};
ghost use Rattle.wac_lexer.specs.Tokens.{FindsLongest, IsToken, token_of, longest_token};
ghost use Rattle.wac_lexer.specs.declared.token.Token.{Token as Kind};
ghost use Rattle.wac_lexer.specs.Span.{Span};
ghost use Rattle.wac_lexer.specs.declared.error.Error.{Error as Fault};

use crate::error::Error;
use crate::span::SourceSpan;
use crate::token::Token;

/// Reading a text byte by byte shows whether it is one of a pattern's.
pub fn patterns_are_decided()
    ensures { (p : Pattern) (text : List ℕ) → matches p text ≡ true ↔ Matches p text }
{}

/// Counting how deeply comments nest finds the end that the pieces of comments define.
pub fn comments_are_pieces()
    ensures { (text rest : List ℕ) → (after 1 text ≡ Some rest) ↔ Inside text rest }
{}

/// What is skipped before an item is the longest gap: blanks, line comments and block comments.
pub fn gap_is_longest()
    ensures { (text : List ℕ) → IsLongestGap text (gap text) }
{}

/// The docs of a place are those among the blanks and comments of the longest gap there.
pub fn docs_stand_in_the_gap()
    ensures { (source : List ℕ) (place : ℕ) (parts : List (List ℕ)) → DocsStandInGap source place parts }
{}

/// A text is at most one token, and looking it up finds which.
pub fn tokens_are_decided()
    ensures found { (text : List ℕ) (token : Kind) → token_of text ≡ Some token ↔ IsToken token text }
    ensures one { (text : List ℕ) (a b : Kind) → IsToken a text → IsToken b text → a ≡ b }
{}

/// The prefix that is found is the longest that is a token.
pub fn fronts_are_longest()
    ensures { (text : List ℕ) → FindsLongest text (longest_token text (length text)) }
{}

/// The items of a source are in order, none overlaps another, and each one's text is the slice at its span.
pub fn items_stand_in_order()
    ensures { (source : List ℕ) → IsUtf8 source → InOrder source 0 (items source) }
{}

/// What a text of bytes begins with: an unterminated comment or string, the longest token, or else a character.
pub fn first_items_are_found()
    ensures found { (text : List ℕ) (item : Result Kind Fault) (n : ℕ) → FindsFirst text item n }
    ensures empty { first_item [] ≡ None }
{}

/// The rejected character is the first of the whole text.
pub fn refused_characters_are_first()
    ensures { (text : List ℕ) → FindsRefused text (refused text) }
{}

/// Tokens are equal where they are the same, and so are faults and spans: `==` reads all of both.
pub fn equality_reads_all()
    ensures tokens { (a b : Kind) → IsTrue (⟦<Token as PartialEq>⟧.eq a b) ↔ a ≡ b }
    ensures faults { (a b : Fault) → IsTrue (⟦<Error as PartialEq>⟧.eq a b) ↔ a ≡ b }
    ensures spans { (a b : Span) → IsTrue (⟦<SourceSpan as PartialEq>⟧.eq a b) ↔ a ≡ b }
{}
