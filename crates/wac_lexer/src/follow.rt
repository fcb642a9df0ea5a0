// What may follow a token: laws of the definitions. Each function does nothing: its contract is the law.
ghost use Rattle.std.specs.Prelude.{◌≡◌, ◌++◌, ℕ, List, codes, Some};
ghost use Rattle.wac_lexer.specs.Follow.{EndsAtBlank, Follows, IsReadBack};
ghost use Rattle.wac_lexer.specs.Tokens.{token_of};
ghost use Rattle.wac_lexer.specs.declared.token.Token.{Token as Kind};
ghost use Rattle.wac_lexer.specs.declared.token.Token.TheVariants.{Ident, Dot};

/// A token before what may follow it is read back: no gap comes first, and no longer prefix is a token.
pub fn tokens_are_read_back()
    ensures { (text rest : List ℕ) (token : Kind) → Follows token text rest → IsReadBack token text rest }
{}

/// An identifier may follow a dot.
pub fn identifiers_follow_dots()
    ensures { (text rest : List ℕ) → token_of text ≡ Some Ident → Follows Dot (codes ".") (text ++ rest) }
{}

/// A space, TAB, CR or LF may follow any token.
pub fn blanks_follow_tokens()
    ensures { (text rest : List ℕ) (token : Kind) (b : ℕ) → token_of text ≡ Some token → EndsAtBlank token text b rest }
{}
