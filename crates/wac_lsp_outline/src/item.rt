//! Declarations while they are read.
use crate::symbol::{Kind, end_of};
use wac_lexer::{SourceSpan, Token};

/// What can stand between braces.
#[derive(Clone, Copy, PartialEq, Eq)]
pub(crate) enum Body {
    /// The statements of a document, which is in none.
    Document,
    /// The items of an interface.
    Interface,
    /// The items of a world.
    World,
    /// The constructor and the methods of a resource.
    Resource,
    /// The fields of a record.
    Record,
    /// The cases of a variant or an enum, or flags.
    Choice,
    /// Something that declares nothing: arguments, or names.
    Other,
}

impl Body {
    /// Whether there are declarations with a keyword in it.
    pub(crate) fn has_declarations(self) -> bool {
        matches!(self, Body::Document | Body::Interface | Body::World)
    }

    /// Whether commas are between what is declared in it.
    pub(crate) fn has_commas(self) -> bool {
        matches!(self, Body::Record | Body::Choice)
    }

    /// The kind of what a name at the beginning declares, with this token after it.
    pub(crate) fn labelled(self, next: Option<Token>) -> Option<Kind> {
        match self {
            Body::Interface if next == Some(Token::Colon) => Some(Kind::Function),
            Body::World if next == Some(Token::Colon) => Some(Kind::Binding),
            Body::Resource if next == Some(Token::Colon) => Some(Kind::Method),
            Body::Record => Some(Kind::Field),
            Body::Choice => Some(Kind::Case),
            _ => None,
        }
    }

    /// The kind of what a keyword in it declares by the name after it, with this token after that.
    pub(crate) fn declared(self, keyword: Token, next: Option<Token>) -> Option<Kind> {
        match keyword {
            Token::InterfaceKeyword => Some(Kind::Interface),
            Token::WorldKeyword => Some(Kind::World),
            Token::VariantKeyword | Token::FlagsKeyword | Token::EnumKeyword => Some(Kind::Choice),
            Token::RecordKeyword => Some(Kind::Record),
            Token::ResourceKeyword => Some(Kind::Resource),
            Token::TypeKeyword => Some(Kind::Alias),
            Token::LetKeyword => Some(Kind::Binding),
            Token::ImportKeyword if self == Body::Document => Some(Kind::Binding),
            Token::ImportKeyword | Token::ExportKeyword if self == Body::World => {
                Some(item_kind(next))
            }
            _ => None,
        }
    }
}

/// The kind of what a world imports or exports by a name with this token after it: without a type it is an interface.
fn item_kind(next: Option<Token>) -> Kind {
    if next == Some(Token::Colon) {
        Kind::Binding
    } else {
        Kind::Interface
    }
}

/// Whether a keyword begins a statement or an item, after this token. `interface` after a colon is a type.
pub(crate) fn begins_item(token: Token, before: Option<Token>) -> bool {
    match token {
        Token::InterfaceKeyword => before != Some(Token::Colon),
        Token::ImportKeyword
        | Token::ExportKeyword
        | Token::LetKeyword
        | Token::WorldKeyword
        | Token::TypeKeyword
        | Token::VariantKeyword
        | Token::RecordKeyword
        | Token::FlagsKeyword
        | Token::EnumKeyword
        | Token::ResourceKeyword
        | Token::UseKeyword
        | Token::IncludeKeyword => true,
        _ => false,
    }
}

/// What the braces of a keyword's declaration have.
fn body_of(keyword: Token) -> Body {
    match keyword {
        Token::InterfaceKeyword => Body::Interface,
        Token::WorldKeyword => Body::World,
        Token::ResourceKeyword => Body::Resource,
        Token::RecordKeyword => Body::Record,
        Token::VariantKeyword | Token::FlagsKeyword | Token::EnumKeyword => Body::Choice,
        _ => Body::Other,
    }
}

/// A statement or an item whose end isn't reached.
#[derive(Clone, Copy)]
pub(crate) struct Item {
    pub(crate) start: usize,
    /// The keyword with which it begins.
    pub(crate) keyword: Option<Token>,
    /// The number of what it declares.
    pub(crate) symbol: Option<usize>,
    pub(crate) kind: Kind,
    /// What its next braces have.
    pub(crate) body: Body,
    /// How many brackets are open in it.
    pub(crate) brackets: usize,
    /// Where it is said what it is, so far.
    detail: Option<SourceSpan>,
    /// Whether that has its end.
    is_described: bool,
}

impl Item {
    /// One that begins with a keyword or with something else.
    pub(crate) fn new(start: usize, keyword: Option<Token>) -> Item {
        Item {
            start,
            keyword,
            symbol: None,
            kind: Kind::Binding,
            body: match keyword {
                Some(keyword) => body_of(keyword),
                None => Body::Other,
            },
            brackets: 0,
            detail: None,
            is_described: false,
        }
    }

    /// Whether its brace ends it.
    pub(crate) fn ends_with_brace(&self) -> bool {
        match self.keyword {
            Some(keyword) => body_of(keyword) != Body::Other,
            None => false,
        }
    }

    /// Where it is said what it is: nothing after its name, where it isn't.
    pub(crate) fn detail(&self, name: SourceSpan) -> SourceSpan {
        match self.detail {
            Some(detail) => detail,
            None => SourceSpan::new(end_of(name), 0),
        }
    }

    /// Opens braces. They aren't part of what is said.
    pub(crate) fn enter(&mut self) {
        self.is_described = true;
    }

    /// Takes a token after the name. `is_member` says whether that is one of a world.
    pub(crate) fn take(&mut self, token: Token, span: SourceSpan, is_member: bool) {
        match token {
            Token::OpenParen | Token::OpenAngle | Token::OpenBracket => {
                self.brackets = self.brackets.saturating_add(1);
            }
            Token::CloseParen | Token::CloseAngle | Token::CloseBracket => {
                self.brackets = self.brackets.saturating_sub(1);
            }
            Token::FuncKeyword if is_member && self.kind == Kind::Binding => {
                self.kind = Kind::Function;
            }
            Token::InterfaceKeyword => {
                self.body = Body::Interface;
                if is_member {
                    self.kind = Kind::Interface;
                }
            }
            _ => {}
        }
        self.describe(token, span);
    }

    /// Adds a token to what is said of it, but for a colon or `=` at the beginning.
    fn describe(&mut self, token: Token, span: SourceSpan) {
        if self.symbol.is_none() || self.is_described {
            return;
        }
        match self.detail {
            Some(detail) => {
                let len = end_of(span).saturating_sub(detail.offset());
                self.detail = Some(SourceSpan::new(detail.offset(), len));
            }
            None if token == Token::Colon || token == Token::Equals => {}
            None => self.detail = Some(span),
        }
    }
}
