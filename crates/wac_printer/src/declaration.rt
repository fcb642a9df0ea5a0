//! Printing declarations of types.
ghost use Rattle.std.specs.List.{All};
ghost use Rattle.std.specs.Prelude.{List, [], ◌∷◌, codes, map};
ghost use Rattle.std.specs.Option.{option_map};
ghost use Rattle.wac_ast_grammar.specs.Walk.{walk_constructor, walk_enum_case, walk_enum_decl, walk_field, walk_flag, walk_flags_decl, walk_item_type_decl, walk_method, walk_named_type, walk_record_decl, walk_resource_decl, walk_resource_method, walk_ty, walk_type_alias, walk_type_alias_kind, walk_type_decl, walk_variant_case, walk_variant_decl};
ghost use Rattle.wac_ast_types.specs.Declarations.{named_type_of, type_alias_kind_of, field_of, record_decl_of, type_alias_of, variant_case_of, variant_decl_of, constructor_of, item_type_decl_of, method_of, resource_decl_of, resource_method_of, type_decl_of, enum_case_of, enum_decl_of, flag_of, flags_decl_of};
ghost use Rattle.wac_ast_base.specs.Names.{ident_of};
ghost use Rattle.wac_ast_types.specs.Types.{ty_of};
ghost use Rattle.wac_printer_layout.specs.Printed.{token};
ghost use Rattle.wac_printer_pieces.specs.Printed.{Prints};
ghost use Rattle.wac_ast_grammar.specs.Leaves.{IfThere};
ghost use Rattle.wac_printer.specs.Sliced.{IdentSliced, any_docs, printable};
ghost use Rattle.wac_printer_layout.specs.DeclarationLayout.{enum_case_layout, enum_decl_layout, field_layout, flag_layout, flags_decl_layout, label_layout, method_layout, payload_layout, record_decl_layout, resource_method_layout, static_layout, type_alias_layout, type_decl_layout, variant_case_layout, variant_decl_layout};
ghost use Rattle.wac_printer.specs.Forms.{PrintsAt, PrintsEach, PrintsOption, PrintsTree, tree_layout, walk_ident};
ghost use Rattle.wac_printer.specs.Nodes.{PrintsConstructor, PrintsHead, PrintsItemTypeDecl, PrintsResourceDecl, PrintsResourceMethod, PrintsResourceMethods, PrintsTypeAliasKind};
ghost use Rattle.wac_printer.specs.Layouts.{signature_layout};

use crate::lists::Node;
use crate::printer::DocumentPrinter;
use wac_ast::{
    Constructor, EnumCase, EnumDecl, Field, Flag, FlagsDecl, Ident, ItemTypeDecl, Method,
    NamedType, RecordDecl, ResourceDecl, ResourceMethod, Type, TypeAlias, TypeAliasKind, TypeDecl,
    VariantCase, VariantDecl,
};
use wac_lexer::Sink;
use wac_printer_pieces::PrintResult;

impl Node for Flag<'_> {
    ghost layout = { tree_layout flag_layout walk_flag flag_of };

    ghost sliced = { λ source x. walk_flag (printable source) any_docs (flag_of x) };

    fn print<S: Sink>(&self, printer: &mut DocumentPrinter<'_, S>) -> PrintResult {
        printer.flag(self)
    }
}

impl Node for EnumCase<'_> {
    ghost layout = { tree_layout enum_case_layout walk_enum_case enum_case_of };

    ghost sliced = { λ source x. walk_enum_case (printable source) any_docs (enum_case_of x) };

    fn print<S: Sink>(&self, printer: &mut DocumentPrinter<'_, S>) -> PrintResult {
        printer.enum_case(self)
    }
}

impl Node for Field<'_> {
    ghost layout = { tree_layout field_layout walk_field field_of };

    ghost sliced = { λ source x. walk_field (printable source) any_docs (field_of x) };

    fn print<S: Sink>(&self, printer: &mut DocumentPrinter<'_, S>) -> PrintResult {
        printer.field(self)
    }
}

impl Node for VariantCase<'_> {
    ghost layout = { tree_layout variant_case_layout walk_variant_case variant_case_of };

    ghost sliced = { λ source x. walk_variant_case (printable source) any_docs (variant_case_of x) };

    fn print<S: Sink>(&self, printer: &mut DocumentPrinter<'_, S>) -> PrintResult {
        printer.variant_case(self)
    }
}

impl Node for ResourceMethod<'_> {
    ghost layout = { tree_layout resource_method_layout walk_resource_method resource_method_of };

    ghost sliced = { λ source x. walk_resource_method (printable source) any_docs (resource_method_of x) };

    fn print<S: Sink>(&self, printer: &mut DocumentPrinter<'_, S>) -> PrintResult {
        printer.resource_method(self)
    }
}

#[tactic(auto, using(crate::proofs::Steps::lists))]
impl<'a, S: Sink> DocumentPrinter<'a, S> {
    /// Prints a keyword and an identifier on a line.
    pub(crate) fn head(&mut self, keyword: &str, id: &Ident<'_>) -> PrintResult
        requires { IdentSliced self.old.source (ident_of id.now) }
        ensures { PrintsHead self.old result self.new keyword.now (ident_of id.now) }
    {
        self.line()
            .and(self.token(keyword))
            .and(self.blank(" "))
            .and(self.ident(id))
    }

    /// Prints an identifier and a colon on a line.
    pub(crate) fn label(&mut self, id: &Ident<'_>) -> PrintResult
        requires { IdentSliced self.old.source (ident_of id.now) }
        ensures { PrintsAt self.old result self.new label_layout walk_ident (ident_of id.now) }
    {
        self.line()
            .and(self.ident(id))
            .and(self.token(":"))
            .and(self.blank(" "))
    }

    /// Prints the declaration of a type in an interface or a world.
    pub fn item_type_decl(&mut self, decl: &ItemTypeDecl<'_>) -> PrintResult
        requires { walk_item_type_decl (printable self.old.source) any_docs (item_type_decl_of decl.now) }
        ensures { PrintsItemTypeDecl self.old result self.new (item_type_decl_of decl.now) }
    {
        match decl {
            ItemTypeDecl::Resource(decl) => self.resource_decl(decl),
            ItemTypeDecl::Variant(decl) => self.variant_decl(decl),
            ItemTypeDecl::Record(decl) => self.record_decl(decl),
            ItemTypeDecl::Flags(decl) => self.flags_decl(decl),
            ItemTypeDecl::Enum(decl) => self.enum_decl(decl),
            ItemTypeDecl::Alias(alias) => self.type_alias(alias),
        }
    }

    /// Prints the declaration of a type in a document.
    pub fn type_decl(&mut self, decl: &TypeDecl<'_>) -> PrintResult
        requires { walk_type_decl (printable self.old.source) any_docs (type_decl_of decl.now) }
        ensures { PrintsTree self.old result self.new type_decl_layout walk_type_decl (type_decl_of decl.now) }
    {
        match decl {
            TypeDecl::Variant(decl) => self.variant_decl(decl),
            TypeDecl::Record(decl) => self.record_decl(decl),
            TypeDecl::Flags(decl) => self.flags_decl(decl),
            TypeDecl::Enum(decl) => self.enum_decl(decl),
            TypeDecl::Alias(alias) => self.type_alias(alias),
        }
    }

    /// Prints a resource. One that was ended by `;` gets an empty body.
    #[tactic(auto, using(crate::proofs::Steps::steps))]
    pub fn resource_decl(&mut self, decl: &ResourceDecl<'_>) -> PrintResult
        requires { walk_resource_decl (printable self.old.source) any_docs (resource_decl_of decl.now) }
        ensures { PrintsResourceDecl self.old result self.new (resource_decl_of decl.now) }
    {
        self.docs(&decl.docs)
            .and(self.resource_head(&decl.id))
            .and(self.resource_methods(&decl.methods))
    }

    fn resource_methods(&mut self, items: &[ResourceMethod<'_>]) -> PrintResult
        requires { All (walk_resource_method (printable self.old.source) any_docs) (map resource_method_of items.now) }
        ensures { PrintsResourceMethods self.old result self.new (map resource_method_of items.now) }
    {
        self.body(items)
    }

    /// Prints a constructor or a method.
    pub fn resource_method(&mut self, method: &ResourceMethod<'_>) -> PrintResult
        requires { walk_resource_method (printable self.old.source) any_docs (resource_method_of method.now) }
        ensures { PrintsResourceMethod self.old result self.new (resource_method_of method.now) }
    {
        match method {
            ResourceMethod::Constructor(constructor) => self.constructor(constructor),
            ResourceMethod::Method(method) => self.method(method),
        }
    }

    /// Prints a constructor: `constructor(x: u8);`.
    #[tactic(auto, using(crate::proofs::Steps::steps))]
    pub fn constructor(&mut self, constructor: &Constructor<'_>) -> PrintResult
        requires { walk_constructor (printable self.old.source) any_docs (constructor_of constructor.now) }
        ensures { PrintsConstructor self.old result self.new (constructor_of constructor.now) }
    {
        self.docs(&constructor.docs)
            .and(self.line())
            .and(self.constructor_keyword())
            .and(self.signature(&constructor.params))
    }

    fn constructor_keyword(&mut self) -> PrintResult
        ensures { Prints self.old result self.new (token (codes "constructor") ∷ []) }
    {
        self.token("constructor")
    }

    fn resource_head(&mut self, id: &Ident<'_>) -> PrintResult
        requires { IdentSliced self.old.source (ident_of id.now) }
        ensures { PrintsHead self.old result self.new (codes "resource") (ident_of id.now) }
    {
        self.head("resource", id)
    }

    /// Prints parameters in parentheses and a semicolon.
    fn signature(&mut self, params: &[NamedType<'_>]) -> PrintResult
        requires { All (walk_named_type (printable self.old.source)) (map named_type_of params.now) }
        ensures { PrintsEach self.old result self.new signature_layout walk_named_type (map named_type_of params.now) }
    {
        self.params(params).and(self.token(";"))
    }

    /// Prints a method: `m: static func();`.
    pub fn method(&mut self, method: &Method<'_>) -> PrintResult
        requires { walk_method (printable self.old.source) any_docs (method_of method.now) }
        ensures { PrintsTree self.old result self.new method_layout walk_method (method_of method.now) }
    {
        self.docs(&method.docs)
            .and(self.label(&method.id))
            .and(self.static_keyword(method.is_static))
            .and(self.func_type(&method.ty))
            .and(self.token(";"))
    }

    fn static_keyword(&mut self, is_static: bool) -> PrintResult
        ensures { Prints self.old result self.new (static_layout is_static) }
    {
        if is_static {
            self.token("static")?;
            self.blank(" ")
        } else {
            self.ready()
        }
    }

    /// Prints a variant.
    pub fn variant_decl(&mut self, decl: &VariantDecl<'_>) -> PrintResult
        requires { walk_variant_decl (printable self.old.source) any_docs (variant_decl_of decl.now) }
        ensures { PrintsTree self.old result self.new variant_decl_layout walk_variant_decl (variant_decl_of decl.now) }
    {
        self.docs(&decl.docs)
            .and(self.head("variant", &decl.id))
            .and(self.rows(&decl.cases))
    }

    /// Prints a case of a variant: `a`, or `b(u8)`.
    pub fn variant_case(&mut self, case: &VariantCase<'_>) -> PrintResult
        requires { walk_variant_case (printable self.old.source) any_docs (variant_case_of case.now) }
        ensures { PrintsTree self.old result self.new variant_case_layout walk_variant_case (variant_case_of case.now) }
    {
        self.docs(&case.docs)
            .and(self.line())
            .and(self.ident(&case.id))
            .and(self.payload(&case.ty))
    }

    fn payload(&mut self, ty: &Option<Type<'_>>) -> PrintResult
        requires { IfThere (walk_ty (printable self.old.source)) (option_map ty_of ty.now) }
        ensures { PrintsOption self.old result self.new payload_layout walk_ty (option_map ty_of ty.now) }
    {
        match ty {
            None => self.ready(),
            Some(ty) => self.token("(").and(self.ty(ty)).and(self.token(")")),
        }
    }

    /// Prints a record.
    pub fn record_decl(&mut self, decl: &RecordDecl<'_>) -> PrintResult
        requires { walk_record_decl (printable self.old.source) any_docs (record_decl_of decl.now) }
        ensures { PrintsTree self.old result self.new record_decl_layout walk_record_decl (record_decl_of decl.now) }
    {
        self.docs(&decl.docs)
            .and(self.head("record", &decl.id))
            .and(self.rows(&decl.fields))
    }

    fn field(&mut self, field: &Field<'_>) -> PrintResult
        requires { walk_field (printable self.old.source) any_docs (field_of field.now) }
        ensures { PrintsTree self.old result self.new field_layout walk_field (field_of field.now) }
    {
        self.docs(&field.docs)
            .and(self.label(&field.id))
            .and(self.ty(&field.ty))
    }

    /// Prints flags.
    pub fn flags_decl(&mut self, decl: &FlagsDecl<'_>) -> PrintResult
        requires { walk_flags_decl (printable self.old.source) any_docs (flags_decl_of decl.now) }
        ensures { PrintsTree self.old result self.new flags_decl_layout walk_flags_decl (flags_decl_of decl.now) }
    {
        self.docs(&decl.docs)
            .and(self.head("flags", &decl.id))
            .and(self.rows(&decl.flags))
    }

    fn flag(&mut self, flag: &Flag<'_>) -> PrintResult
        requires { walk_flag (printable self.old.source) any_docs (flag_of flag.now) }
        ensures { PrintsTree self.old result self.new flag_layout walk_flag (flag_of flag.now) }
    {
        self.docs(&flag.docs)
            .and(self.line())
            .and(self.ident(&flag.id))
    }

    /// Prints an enum.
    pub fn enum_decl(&mut self, decl: &EnumDecl<'_>) -> PrintResult
        requires { walk_enum_decl (printable self.old.source) any_docs (enum_decl_of decl.now) }
        ensures { PrintsTree self.old result self.new enum_decl_layout walk_enum_decl (enum_decl_of decl.now) }
    {
        self.docs(&decl.docs)
            .and(self.head("enum", &decl.id))
            .and(self.rows(&decl.cases))
    }

    fn enum_case(&mut self, case: &EnumCase<'_>) -> PrintResult
        requires { walk_enum_case (printable self.old.source) any_docs (enum_case_of case.now) }
        ensures { PrintsTree self.old result self.new enum_case_layout walk_enum_case (enum_case_of case.now) }
    {
        self.docs(&case.docs)
            .and(self.line())
            .and(self.ident(&case.id))
    }

    /// Prints a type alias: `type t = u8;`.
    pub fn type_alias(&mut self, alias: &TypeAlias<'_>) -> PrintResult
        requires { walk_type_alias (printable self.old.source) any_docs (type_alias_of alias.now) }
        ensures { PrintsTree self.old result self.new type_alias_layout walk_type_alias (type_alias_of alias.now) }
    {
        self.docs(&alias.docs)
            .and(self.head("type", &alias.id))
            .and(self.blank(" "))
            .and(self.token("="))
            .and(self.blank(" "))
            .and(self.alias_kind(&alias.kind))
            .and(self.token(";"))
    }

    fn alias_kind(&mut self, kind: &TypeAliasKind<'_>) -> PrintResult
        requires { walk_type_alias_kind (printable self.old.source) (type_alias_kind_of kind.now) }
        ensures { PrintsTypeAliasKind self.old result self.new (type_alias_kind_of kind.now) }
    {
        match kind {
            TypeAliasKind::Func(ty) => self.func_type(ty),
            TypeAliasKind::Ty(ty) => self.ty(ty),
        }
    }
}
