//! Names of texts.
ghost use Rattle.std.specs.Prelude.{◌≡◌, ◌≢◌, IfOk, IfSome, IsSomeAnd, None, alloc_error};
ghost use Rattle.wac_ast.specs.Statements.{document_of};
ghost use Rattle.wac_ast_base.specs.declared.error.Error.TheVariants as errors;
ghost use Rattle.wac_names.specs.LookedUp.{AreLookedUp, IsFoundOf};
ghost use Rattle.wac_names.specs.LookUps.{document_look_ups};
ghost use Rattle.wac_names.specs.Places.{AreTied};

use crate::names::Names;
use std::alloc::{AllocError, Global};
use std::marker::Model;
use wac_ast::Document;
use wac_ast::internals::Statements;
use wac_ast_base::Error;
use wac_comments_layout::too_deep;

/// A document that is lent. The prover follows it through a call at far less cost than a bare one.
#[derive(Drop)]
struct Lent<'d, 'a> {
    document: &'d Document<'a>,
}

impl<'d, 'a> Model for Lent<'d, 'a> {
    ghost use Rattle.std.specs.Prelude.{[]};
    ghost use Rattle.std.specs.Coded.{codes};
    ghost use Rattle.wac_ast_types.specs.contracts.types.«Type» as ty;
    ghost use Rattle.wac_ast_statements.specs.contracts.expr.PrimaryExpr as primary;
    ghost use mir.Syntax.{erased};
    ghost use Rattle.wac_ast.specs.declared.document.Document.{Document};

    ghost Value = { Document };

    ghost coded = { Prim.hlevel (codes, (ty.the_row (record { mir = erased; lft = [] })).coded, (primary.the_row (record { mir = erased; lft = [] })).coded) };

    ghost view = { λ l. l.document.now };

    ghost invariant = { λ l. Unit {0} };
}

/// The names of the document of a text.
fn names_in(lent: Lent<'_, '_>, alloc: Global, text: &str) -> Result<Option<Names>, AllocError>
    ensures tied { IfOk result (λ found. IfSome found (AreTied text.now)) }
    ensures looked_up { IfOk result (λ found. IsSomeAnd found
        (AreLookedUp text.now (document_look_ups (document_of lent.entry)))) }
{
    let Lent { document } = lent;
    let statements = Statements {
        all: &document.statements,
    };
    match Names::of(statements, alloc, text, &document.directive) {
        Ok(names) => Ok(Some(names)),
        Err(_) => Err(AllocError),
    }
}

/// There are no names where a text is rejected. That memory ran out is an error.
fn no_names(error: Error) -> Result<Option<Names>, AllocError>
    ensures { IfOk result (λ found. (error ≢ errors.Memory alloc_error) × (found ≡ None)) }
{
    match error {
        Error::Memory(_) => Err(AllocError),
        _ => Ok(None),
    }
}

/// The names of a text whose brackets aren't nested too deep, if it is a document.
fn names_of_flat(alloc: Global, text: &str) -> Result<Option<Names>, AllocError>
    ensures tied { IfOk result (λ found. IfSome found (AreTied text.now)) }
    ensures names { IfOk result (IsFoundOf text.now) }
{
    match Document::parse(alloc, text) {
        Ok(document) => {
            let lent = Lent {
                document: &document,
            };
            names_in(lent, alloc, text)
        }
        Err(error) => no_names(error),
    }
}

impl Names {
    ghost use Rattle.std.specs.Prelude.{IfOk, IfSome};
    ghost use Rattle.wac_names.specs.LookedUp.{IsFoundOf};
    ghost use Rattle.wac_names.specs.Places.{AreTied};

    /// The names of a text, as `of` finds them. `None` where the text is no document, or its brackets are nested deeper than
    /// is parsed. The error is that memory ran out.
    ///
    /// ```text
    /// let names = Names::of_text(alloc, "package a:b; let x = y;")?;      // `x` is bound, and `y` stands for nothing
    /// ```
    pub fn of_text(alloc: Global, text: &str) -> Result<Option<Names>, AllocError>
        // Each mention stands for one of the names, and is spelled like it.
        ensures tied { IfOk result (λ found. IfSome found (AreTied text.now)) }
        // They are what the identifiers of the text's document find where they are looked up. Only a text that is no
        // document, or whose brackets are nested too deep, has none.
        ensures names { IfOk result (IsFoundOf text.now) }
    {
        match too_deep(text) {
            Some(_) => Ok(None),
            None => names_of_flat(alloc, text),
        }
    }
}
