//! Printing types.
ghost use Rattle.std.specs.Prelude.{◌≡◌, List, [], ◌∷◌, codes, map};
ghost use Rattle.std.specs.List.{All, flat_map};
ghost use Rattle.wac_ast_grammar.specs.Walk.{walk_extern_name, walk_func_type, walk_func_type_ref, walk_named_type, walk_result_list, walk_ty};
ghost use Rattle.wac_printer_layout.specs.Bare.{bare};
ghost use Rattle.wac_ast_base.specs.Names.{extern_name_of, ident_of};
ghost use Rattle.wac_ast_types.specs.Declarations.{func_type_of, func_type_ref_of, named_type_of, result_list_of};
ghost use Rattle.wac_ast_types.specs.Types.{ty_of};
ghost use Rattle.wac_printer_layout.specs.Printed.{token};
ghost use Rattle.wac_printer_pieces.specs.Printed.{Prints};
ghost use Rattle.wac_printer.specs.Sliced.{IdentSliced, printable};
ghost use Rattle.wac_lexer.specs.Reading.{slice};
ghost use Rattle.wac_printer_layout.specs.Parts.{space, joined};
ghost use Rattle.wac_printer_layout.specs.TypeLayout.{async_layout, extern_name_layout, func_type_layout, named_type_layout, params_layout, results_layout, ty_layout};
ghost use Rattle.wac_printer.specs.Forms.{PrintsBare, PrintsEach};
ghost use Rattle.wac_printer.specs.Nodes.{PrintsFuncTypeRef};
ghost use Rattle.wac_printer.specs.Layouts.{angled_layout, after_comma, borrowed_layout, failing_layout, first_side_layout, second_side_layout, tuple_layout, type_layout};

use crate::lists::Node;
use crate::printer::DocumentPrinter;
use wac_ast::{ExternName, FuncType, FuncTypeRef, Ident, NamedType, ResultList, Type};
use wac_lexer::Sink;
use wac_printer_pieces::PrintResult;

impl Node for NamedType<'_> {
    ghost layout = { λ source depth x. named_type_layout (walk_named_type (bare source) (named_type_of x)) };

    ghost sliced = { λ source x. walk_named_type (printable source) (named_type_of x) };

    fn print<S: Sink>(&self, printer: &mut DocumentPrinter<'_, S>) -> PrintResult {
        printer.named_type(self)
    }
}

#[tactic(auto, using(crate::proofs::Steps::lists))]
impl<'a, S: Sink> DocumentPrinter<'a, S> {
    pub(crate) fn extern_name(&mut self, name: &ExternName<'_>) -> PrintResult
        requires { walk_extern_name (printable self.old.source) (extern_name_of name.now) }
        ensures { PrintsBare self.old result self.new extern_name_layout walk_extern_name (extern_name_of name.now) }
    {
        match name {
            ExternName::Ident(id) => self.ident(id),
            ExternName::String(string) => self.string(string),
        }
    }

    /// Prints a function type: `async func(x: u8) -> u8`.
    pub fn func_type(&mut self, ty: &FuncType<'_>) -> PrintResult
        requires { walk_func_type (printable self.old.source) (func_type_of ty.now) }
        ensures { PrintsBare self.old result self.new func_type_layout walk_func_type (func_type_of ty.now) }
    {
        self.async_keyword(ty.is_async)
            .and(self.token("func"))
            .and(self.params(&ty.params))
            .and(self.result_list(&ty.results))
    }

    /// Prints a function type, or the name of one.
    pub fn func_type_ref(&mut self, ty: &FuncTypeRef<'_>) -> PrintResult
        requires { walk_func_type_ref (printable self.old.source) (func_type_ref_of ty.now) }
        ensures { PrintsFuncTypeRef self.old result self.new (func_type_ref_of ty.now) }
    {
        match ty {
            FuncTypeRef::Func(ty) => self.func_type(ty),
            FuncTypeRef::Ident(id) => self.ident(id),
        }
    }

    fn async_keyword(&mut self, is_async: bool) -> PrintResult
        ensures { Prints self.old result self.new (async_layout is_async) }
    {
        if is_async {
            self.token("async")?;
            self.blank(" ")
        } else {
            self.ready()
        }
    }

    /// Prints parameters, or results with names, in parentheses.
    pub(crate) fn params(&mut self, params: &[NamedType<'_>]) -> PrintResult
        requires { All (walk_named_type (printable self.old.source)) (map named_type_of params.now) }
        ensures { PrintsEach self.old result self.new params_layout walk_named_type (map named_type_of params.now) }
    {
        self.token("(")
            .and(self.joined(params))
            .and(self.token(")"))
    }

    fn named_type(&mut self, named: &NamedType<'_>) -> PrintResult
        requires { walk_named_type (printable self.old.source) (named_type_of named.now) }
        ensures { PrintsBare self.old result self.new named_type_layout walk_named_type (named_type_of named.now) }
    {
        self.ident(&named.id)
            .and(self.token(":"))
            .and(self.blank(" "))
            .and(self.ty(&named.ty))
    }

    fn result_list(&mut self, results: &ResultList<'_>) -> PrintResult
        requires { walk_result_list (printable self.old.source) (result_list_of results.now) }
        ensures { PrintsBare self.old result self.new results_layout walk_result_list (result_list_of results.now) }
    {
        match results {
            ResultList::Empty => self.ready(),
            ResultList::Scalar(ty) => self.arrow().and(self.ty(ty)),
            ResultList::Named(named) => self.arrow().and(self.params(named)),
        }
    }

    fn arrow(&mut self) -> PrintResult
        ensures { Prints self.old result self.new (space ∷ token (codes "->") ∷ space ∷ []) }
    {
        self.blank(" ")?;
        self.token("->")?;
        self.blank(" ")
    }
}

#[tactic(auto, using(crate::proofs::Steps::steps))]
impl<'a, S: Sink> DocumentPrinter<'a, S> {
    /// Prints a type.
    #[cycle(ty)]
    pub fn ty(&mut self, ty: &Type<'_>) -> PrintResult
        requires { walk_ty (printable self.old.source) (ty_of ty.now) }
        ensures { PrintsBare self.old result self.new ty_layout walk_ty (ty_of ty.now) }
    {
        match ty {
            Type::U8(_) => self.token("u8"),
            Type::S8(_) => self.token("s8"),
            Type::U16(_) => self.token("u16"),
            Type::S16(_) => self.token("s16"),
            Type::U32(_) => self.token("u32"),
            Type::S32(_) => self.token("s32"),
            Type::U64(_) => self.token("u64"),
            Type::S64(_) => self.token("s64"),
            Type::F32(_) => self.token("f32"),
            Type::F64(_) => self.token("f64"),
            Type::Char(_) => self.token("char"),
            Type::Bool(_) => self.token("bool"),
            Type::String(_) => self.token("string"),
            Type::Tuple(types, _) => self.tuple(types),
            Type::List(ty, _) => self.bracketed("list", ty),
            Type::Option(ty, _) => self.bracketed("option", ty),
            Type::Result { ok, err, .. } => match ok {
                None => match err {
                    None => self.token("result"),
                    Some(err) => self.failing(err),
                },
                Some(ok) => match err {
                    None => self.bracketed("result", ok),
                    Some(err) => {
                        self.first_side(ok)?;
                        self.second_side(err)
                    }
                },
            },
            Type::Borrow(id, _) => self.borrowed(id),
            Type::Stream(ty, _) => match ty {
                None => self.token("stream"),
                Some(ty) => self.bracketed("stream", ty),
            },
            Type::Future(ty, _) => match ty {
                None => self.token("future"),
                Some(ty) => self.bracketed("future", ty),
            },
            Type::ErrorContext(_) => self.token("error-context"),
            Type::Ident(id) => self.ident(id),
        }
    }

    /// Prints a keyword and a type in angle brackets.
    #[cycle(ty)]
    fn bracketed(&mut self, keyword: &str, ty: &Type<'_>) -> PrintResult
        requires { walk_ty (printable self.old.source) (ty_of ty.now) }
        ensures { PrintsBare self.old result self.new (angled_layout keyword.now) walk_ty (ty_of ty.now) }
    {
        self.token(keyword)?;
        self.token("<")?;
        self.ty(ty)?;
        self.token(">")
    }

    /// Prints a result that has only an error type.
    #[cycle(ty)]
    fn failing(&mut self, err: &Type<'_>) -> PrintResult
        requires { walk_ty (printable self.old.source) (ty_of err.now) }
        ensures { PrintsBare self.old result self.new failing_layout walk_ty (ty_of err.now) }
    {
        self.token("result")?;
        self.token("<")?;
        self.token("_")?;
        self.token(",")?;
        self.blank(" ")?;
        self.ty(err)?;
        self.token(">")
    }

    /// Prints the first half of a result that has both types.
    #[cycle(ty)]
    fn first_side(&mut self, ok: &Type<'_>) -> PrintResult
        requires { walk_ty (printable self.old.source) (ty_of ok.now) }
        ensures { PrintsBare self.old result self.new first_side_layout walk_ty (ty_of ok.now) }
    {
        self.token("result")?;
        self.token("<")?;
        self.ty(ok)
    }

    /// Prints the second half of a result that has both types.
    #[cycle(ty)]
    fn second_side(&mut self, err: &Type<'_>) -> PrintResult
        requires { walk_ty (printable self.old.source) (ty_of err.now) }
        ensures { PrintsBare self.old result self.new second_side_layout walk_ty (ty_of err.now) }
    {
        self.token(",")?;
        self.blank(" ")?;
        self.ty(err)?;
        self.token(">")
    }

    /// Prints a tuple of types.
    #[cycle(ty)]
    fn tuple(&mut self, types: &[Type<'_>]) -> PrintResult
        requires { All (λ x. walk_ty (printable self.old.source) (ty_of x)) types.now }
        ensures { Prints self.old result self.new (tuple_layout self.old.source types.now) }
    {
        self.token("tuple")?;
        self.token("<")?;
        self.types(types)?;
        self.token(">")
    }

    /// Prints types joined by a comma and a blank.
    #[cycle(ty)]
    fn types(&mut self, types: &[Type<'_>]) -> PrintResult
        requires { All (λ x. walk_ty (printable self.old.source) (ty_of x)) types.now }
        ensures { Prints self.old result self.new (joined (type_layout self.old.source) types.now) }
    {
        match types.split_first() {
            None => self.ready(),
            Some((first, rest)) => {
                self.ty(first)?;
                self.further_types(rest)
            }
        }
    }

    #[cycle(ty)]
    fn further_types(&mut self, types: &[Type<'_>]) -> PrintResult
        requires { All (λ x. walk_ty (printable self.old.source) (ty_of x)) types.now }
        ensures { Prints self.old result self.new (flat_map (after_comma (type_layout self.old.source)) types.now) }
    {
        self.ready()?;
        for ty in types {
            self.further_type(ty)?;
        }
        Ok(())
    }

    #[cycle(ty)]
    fn further_type(&mut self, ty: &Type<'_>) -> PrintResult
        requires { walk_ty (printable self.old.source) (ty_of ty.now) }
        ensures { Prints self.old result self.new (after_comma (type_layout self.old.source) ty.now) }
    {
        self.token(",")?;
        self.blank(" ")?;
        self.ty(ty)
    }

    fn borrowed(&mut self, id: &Ident<'_>) -> PrintResult
        requires { IdentSliced self.old.source (ident_of id.now) }
        ensures { Prints self.old result self.new (borrowed_layout (slice self.old.source id.now.span)) }
    {
        self.token("borrow")
            .and(self.token("<"))
            .and(self.ident(id))
            .and(self.token(">"))
    }
}
