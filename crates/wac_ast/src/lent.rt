//! Statements that are lent.

use crate::statement::Statement;
use std::marker::Model;

/// The statements of a document. The prover follows them through a call at far less cost in here than as a slice.
#[derive(Drop)]
pub struct Statements<'t, 'a> {
    /// All of them, in order.
    pub all: &'t [Statement<'a>],
}

impl<'t, 'a> Model for Statements<'t, 'a> {
    ghost use Rattle.std.specs.Prelude.{List, []};
    ghost use Rattle.std.specs.Coded.{codes};
    ghost use Rattle.wac_ast_types.specs.contracts.types.«Type» as ty;
    ghost use Rattle.wac_ast_statements.specs.contracts.expr.PrimaryExpr as primary;
    ghost use mir.Syntax.{erased};
    ghost use Rattle.wac_ast.specs.declared.statement.Statement.{Statement};

    ghost Value = { List Statement };

    ghost coded = { Prim.hlevel (codes, (ty.the_row (record { mir = erased; lft = [] })).coded, (primary.the_row (record { mir = erased; lft = [] })).coded) };

    ghost view = { λ s. s.all.now };

    ghost invariant = { λ s. Unit {0} };
}
