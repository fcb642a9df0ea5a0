//! Printing expressions.
ghost use Rattle.std.specs.Prelude.{◌≡◌, true, List, [], ◌∷◌, codes, map};
ghost use Rattle.std.specs.List.{All};
ghost use Rattle.wac_ast_grammar.specs.Walk.{walk_access_expr, walk_arguments, walk_expr, walk_instantiation_argument, walk_instantiation_argument_name, walk_named_access_expr, walk_postfix_expr, walk_primary_expr};
ghost use Rattle.wac_ast_statements.specs.Expressions.{access_expr_of, argument_name_of, argument_of, expr_of, named_access_expr_of, new_expr_of, postfix_expr_of, primary_expr_of};
ghost use Rattle.wac_ast_base.specs.Names.{package_name_of};
ghost use Rattle.wac_printer_layout.specs.Printed.{token};
ghost use Rattle.wac_printer_pieces.specs.Printed.{Prints};
ghost use Rattle.wac_printer.specs.Sliced.{PackageNameSliced, printable};
ghost use Rattle.wac_printer_layout.specs.Bare.{bare};
ghost use Rattle.wac_printer_layout.specs.Parts.{space};
ghost use Rattle.wac_printer_layout.specs.ExpressionLayout.{access_expr_layout, arguments_layout, expr_layout, postfix_expr_layout, primary_expr_layout};
ghost use Rattle.wac_printer_pieces.specs.Arguments.{ending_layout};
ghost use Rattle.wac_printer.specs.Arguments.{braces_layout, is_lone_fill, new_head_layout, argument_lines_layout, arguments_of, bare_argument_line, front_lines, inner_arguments_layout};
ghost use Rattle.wac_printer.specs.Forms.{PrintsAt, PrintsBare, walk_name};
ghost use Rattle.wac_printer.specs.Nodes.{PrintsInstantiationArgument, PrintsInstantiationArgumentName, PrintsNamedAccessExpr, PrintsPostfixExpr, PrintsPostfixes};

use crate::lists::Node;
use crate::printer::DocumentPrinter;
use wac_ast::{
    AccessExpr, Expr, InstantiationArgument, InstantiationArgumentName, NamedAccessExpr, NewExpr,
    PackageName, PostfixExpr, PrimaryExpr,
};
use wac_lexer::Sink;
use wac_printer_pieces::PrintResult;

impl Node for PostfixExpr<'_> {
    ghost layout = { λ source depth x. postfix_expr_layout (walk_postfix_expr (bare source) (postfix_expr_of x)) };

    ghost sliced = { λ source x. walk_postfix_expr (printable source) (postfix_expr_of x) };

    fn print<S: Sink>(&self, printer: &mut DocumentPrinter<'_, S>) -> PrintResult {
        printer.postfix_expr(self)
    }
}

#[tactic(auto, using(crate::proofs::Steps::lists))]
impl<'a, S: Sink> DocumentPrinter<'a, S> {
    /// Prints an access.
    pub fn postfix_expr(&mut self, postfix: &PostfixExpr<'_>) -> PrintResult
        requires { walk_postfix_expr (printable self.old.source) (postfix_expr_of postfix.now) }
        ensures { PrintsPostfixExpr self.old result self.new (postfix_expr_of postfix.now) }
    {
        match postfix {
            PostfixExpr::Access(access) => self.access_expr(access),
            PostfixExpr::NamedAccess(access) => self.named_access_expr(access),
        }
    }

    #[tactic(auto, using(crate::proofs::Steps::lists))]
    fn postfixes(&mut self, postfixes: &[PostfixExpr<'_>]) -> PrintResult
        requires { All (walk_postfix_expr (printable self.old.source)) (map postfix_expr_of postfixes.now) }
        ensures { PrintsPostfixes self.old result self.new (map postfix_expr_of postfixes.now) }
    {
        self.each(postfixes)
    }

    /// Prints an access by identifier: `.x`.
    pub fn access_expr(&mut self, access: &AccessExpr<'_>) -> PrintResult
        requires { walk_access_expr (printable self.old.source) (access_expr_of access.now) }
        ensures { PrintsBare self.old result self.new access_expr_layout walk_access_expr (access_expr_of access.now) }
    {
        self.token(".").and(self.ident(&access.id))
    }

    /// Prints an access by string: `["x"]`.
    pub fn named_access_expr(&mut self, access: &NamedAccessExpr<'_>) -> PrintResult
        requires { walk_named_access_expr (printable self.old.source) (named_access_expr_of access.now) }
        ensures { PrintsNamedAccessExpr self.old result self.new (named_access_expr_of access.now) }
    {
        self.token("[")
            .and(self.string(&access.string))
            .and(self.token("]"))
    }

    fn argument_name(&mut self, name: &InstantiationArgumentName<'_>) -> PrintResult
        requires { walk_instantiation_argument_name (printable self.old.source) (argument_name_of name.now) }
        ensures { PrintsInstantiationArgumentName self.old result self.new (argument_name_of name.now) }
    {
        match name {
            InstantiationArgumentName::Ident(id) => self.ident(id),
            InstantiationArgumentName::String(string) => self.string(string),
        }
    }
}

/// Whether it is `...` alone.
fn is_lone_fill(arguments: &[InstantiationArgument<'_>]) -> bool
    ensures { result ≡ is_lone_fill (arguments_of arguments.now) }
{
    match arguments.split_first() {
        Some((InstantiationArgument::Fill(_), rest)) => rest.is_empty(),
        _ => false,
    }
}

#[tactic(auto, using(crate::proofs::Steps::steps))]
impl<'a, S: Sink> DocumentPrinter<'a, S> {
    /// Prints an expression.
    #[tactic(auto, using(crate::proofs::Steps::steps), unfolding(wac_printer_layout::specs::ExpressionLayout::expr_layout, wac_printer_layout::specs::ExpressionLayout::primary_expr_layout, wac_printer_layout::specs::ExpressionLayout::argument_layout, wac_ast_grammar::specs::Walk::walk_expr, wac_ast_grammar::specs::Walk::walk_primary_expr, wac_ast_grammar::specs::Walk::walk_instantiation_argument))]
    #[cycle(expr)]
    pub fn expr(&mut self, expr: &Expr<'_>) -> PrintResult
        requires { walk_expr (printable self.old.source) (expr_of expr.now) }
        ensures { PrintsAt self.old result self.new expr_layout walk_expr (expr_of expr.now) }
    {
        self.primary_expr(&expr.primary)?;
        self.postfixes(&expr.postfix)
    }

    /// Prints what an expression begins with.
    #[tactic(auto, using(crate::proofs::Steps::steps), unfolding(wac_printer_layout::specs::ExpressionLayout::expr_layout, wac_printer_layout::specs::ExpressionLayout::primary_expr_layout, wac_printer_layout::specs::ExpressionLayout::argument_layout, wac_ast_grammar::specs::Walk::walk_expr, wac_ast_grammar::specs::Walk::walk_primary_expr, wac_ast_grammar::specs::Walk::walk_instantiation_argument))]
    #[cycle(expr)]
    pub fn primary_expr(&mut self, expr: &PrimaryExpr<'_>) -> PrintResult
        requires { walk_primary_expr (printable self.old.source) (primary_expr_of expr.now) }
        ensures { PrintsAt self.old result self.new primary_expr_layout walk_primary_expr (primary_expr_of expr.now) }
    {
        match expr {
            PrimaryExpr::New(expr) => self.new_expr(expr),
            PrimaryExpr::Nested(expr) => {
                self.token("(")?;
                self.expr(&expr.inner)?;
                self.token(")")
            }
            PrimaryExpr::Ident(id) => self.ident(id),
        }
    }

    /// Prints an instantiation: `new a:b {}`, `new a:b { ... }`, or each argument on a line of its own.
    #[tactic(auto, using(crate::proofs::Steps::steps), unfolding(wac_printer_layout::specs::ExpressionLayout::expr_layout, wac_printer_layout::specs::ExpressionLayout::primary_expr_layout, wac_printer_layout::specs::ExpressionLayout::argument_layout, wac_ast_grammar::specs::Walk::walk_expr, wac_ast_grammar::specs::Walk::walk_primary_expr, wac_ast_grammar::specs::Walk::walk_instantiation_argument))]
    #[cycle(expr)]
    pub fn new_expr(&mut self, expr: &NewExpr<'_>) -> PrintResult
        requires { walk_primary_expr (printable self.old.source) (new_expr_of expr.now) }
        ensures { PrintsAt self.old result self.new primary_expr_layout walk_primary_expr (new_expr_of expr.now) }
    {
        self.new_head(&expr.package)?;
        self.braced(&expr.arguments)?;
        self.token("}")
    }

    fn new_head(&mut self, name: &PackageName<'_>) -> PrintResult
        requires { PackageNameSliced self.old.source (package_name_of name.now) }
        ensures { PrintsBare self.old result self.new new_head_layout walk_name (package_name_of name.now) }
    {
        self.token("new")
            .and(self.blank(" "))
            .and(self.package_name(name))
            .and(self.blank(" "))
            .and(self.token("{"))
    }

    fn fill_alone(&mut self) -> PrintResult
        ensures { Prints self.old result self.new (space ∷ token (codes "...") ∷ space ∷ []) }
    {
        self.blank(" ").and(self.token("...")).and(self.blank(" "))
    }

    /// Prints what is between the braces of an instantiation.
    #[cycle(expr)]
    fn braced(&mut self, arguments: &[InstantiationArgument<'_>]) -> PrintResult
        requires { walk_arguments (printable self.old.source) (arguments_of arguments.now) }
        ensures { PrintsAt self.old result self.new braces_layout walk_arguments (arguments_of arguments.now) }
    {
        if arguments.is_empty() {
            return self.ready();
        }
        if is_lone_fill(arguments) {
            return self.fill_alone();
        }
        self.argument_lines(arguments)
    }

    #[cycle(expr)]
    fn argument_lines(&mut self, arguments: &[InstantiationArgument<'_>]) -> PrintResult
        requires { walk_arguments (printable self.old.source) (arguments_of arguments.now) }
        ensures { PrintsAt self.old result self.new argument_lines_layout walk_arguments (arguments_of arguments.now) }
    {
        self.blank("\n")?;
        self.deeper_arguments(arguments)?;
        self.line()
    }

    #[cycle(expr)]
    fn deeper_arguments(&mut self, arguments: &[InstantiationArgument<'_>]) -> PrintResult
        requires { walk_arguments (printable self.old.source) (arguments_of arguments.now) }
        ensures { PrintsAt self.old result self.new inner_arguments_layout walk_arguments (arguments_of arguments.now) }
    {
        let depth = self.indent();
        let printed = self.arguments(arguments);
        self.dedent(depth);
        printed
    }

    /// Prints arguments, each on a line of its own.
    #[cycle(expr)]
    fn arguments(&mut self, arguments: &[InstantiationArgument<'_>]) -> PrintResult
        requires { walk_arguments (printable self.old.source) (arguments_of arguments.now) }
        ensures { PrintsAt self.old result self.new arguments_layout walk_arguments (arguments_of arguments.now) }
    {
        match arguments.split_last() {
            None => self.ready(),
            Some((last, front)) => {
                self.front_arguments(front)?;
                self.argument_line(last, true)
            }
        }
    }

    #[cycle(expr)]
    fn front_arguments(&mut self, arguments: &[InstantiationArgument<'_>]) -> PrintResult
        requires { All (λ x. walk_instantiation_argument (printable self.old.source) (argument_of x)) arguments.now }
        ensures { Prints self.old result self.new (front_lines self.old arguments.now) }
    {
        self.ready()?;
        for argument in arguments {
            self.argument_line(argument, false)?;
        }
        Ok(())
    }

    #[cycle(expr)]
    fn argument_line(&mut self, argument: &InstantiationArgument<'_>, is_last: bool) -> PrintResult
        requires { walk_instantiation_argument (printable self.old.source) (argument_of argument.now) }
        ensures { Prints self.old result self.new (bare_argument_line self.old is_last (argument_of argument.now)) }
    {
        self.line()?;
        self.argument(argument)?;
        self.ending(argument, is_last)
    }

    /// Ends the line of an argument: by a comma, unless it is a fill and the last.
    fn ending(&mut self, argument: &InstantiationArgument<'_>, is_last: bool) -> PrintResult
        ensures { Prints self.old result self.new (ending_layout is_last (argument_of argument.now)) }
    {
        self.pieces.ending(argument, is_last)
    }

    #[tactic(auto, using(crate::proofs::Steps::steps), unfolding(wac_printer_layout::specs::ExpressionLayout::expr_layout, wac_printer_layout::specs::ExpressionLayout::primary_expr_layout, wac_printer_layout::specs::ExpressionLayout::argument_layout, wac_ast_grammar::specs::Walk::walk_expr, wac_ast_grammar::specs::Walk::walk_primary_expr, wac_ast_grammar::specs::Walk::walk_instantiation_argument))]
    #[cycle(expr)]
    fn argument(&mut self, argument: &InstantiationArgument<'_>) -> PrintResult
        requires { walk_instantiation_argument (printable self.old.source) (argument_of argument.now) }
        ensures { PrintsInstantiationArgument self.old result self.new (argument_of argument.now) }
    {
        match argument {
            InstantiationArgument::Inferred(id) => self.ident(id),
            InstantiationArgument::Spread(id) => {
                self.token("...")?;
                self.ident(id)
            }
            InstantiationArgument::Named(argument) => {
                self.argument_name(&argument.name)?;
                self.token(":")?;
                self.blank(" ")?;
                self.expr(&argument.expr)
            }
            InstantiationArgument::Fill(_) => self.token("..."),
        }
    }
}
