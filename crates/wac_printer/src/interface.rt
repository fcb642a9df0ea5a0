//! Printing interfaces.
ghost use Rattle.std.specs.Prelude.{map, List, [], ◌∷◌, ◌++◌, codes};
ghost use Rattle.std.specs.List.{All};
ghost use Rattle.std.specs.Option.{option_map};
ghost use Rattle.wac_ast_grammar.specs.Walk.{walk_inline_interface, walk_interface_decl, walk_interface_export, walk_interface_item, walk_use, walk_use_item, walk_use_path};
ghost use Rattle.wac_ast_base.specs.Names.{ident_of};
ghost use Rattle.wac_ast_uses.specs.Uses.{use_item_of, use_of, use_path_of};
ghost use Rattle.wac_ast_worlds.specs.Worlds.{inline_interface_of, interface_decl_of, interface_export_of, interface_item_of};
ghost use Rattle.wac_printer_layout.specs.Printed.{token};
ghost use Rattle.wac_printer_pieces.specs.Printed.{Prints};
ghost use Rattle.wac_ast_grammar.specs.Leaves.{IfThere};
ghost use Rattle.wac_printer.specs.Sliced.{IdentSliced, any_docs, printable};
ghost use Rattle.wac_printer_layout.specs.Bare.{bare};
ghost use Rattle.wac_printer_layout.specs.InterfaceLayout.{as_layout, interface_item_layout, use_item_layout, use_items_layout, use_layout, use_path_layout};
ghost use Rattle.wac_printer.specs.Forms.{PrintsBare, PrintsEach, PrintsOption, PrintsTree, tree_layout, walk_ident};
ghost use Rattle.wac_printer.specs.Nodes.{PrintsHead, PrintsInlineInterface, PrintsInterfaceDecl, PrintsInterfaceExport, PrintsInterfaceItem, PrintsInterfaceItems};

use crate::lists::Node;
use crate::printer::DocumentPrinter;
use wac_ast::{
    Ident, InlineInterface, InterfaceDecl, InterfaceExport, InterfaceItem, Use, UseItem, UsePath,
};
use wac_lexer::Sink;
use wac_printer_pieces::PrintResult;

impl Node for UseItem<'_> {
    ghost layout = { λ source depth x. use_item_layout (walk_use_item (bare source) (use_item_of x)) };

    ghost sliced = { λ source x. walk_use_item (printable source) (use_item_of x) };

    fn print<S: Sink>(&self, printer: &mut DocumentPrinter<'_, S>) -> PrintResult {
        printer.use_item(self)
    }
}

impl Node for InterfaceItem<'_> {
    ghost layout = { tree_layout interface_item_layout walk_interface_item interface_item_of };

    ghost sliced = { λ source x. walk_interface_item (printable source) any_docs (interface_item_of x) };

    fn print<S: Sink>(&self, printer: &mut DocumentPrinter<'_, S>) -> PrintResult {
        printer.interface_item(self)
    }
}

/// Prints the items of an interface, which come first: see `print_items` of worlds.
#[tactic(auto, using(crate::proofs::Steps::lists))]
fn interface_items<S: Sink>(
    items: &[InterfaceItem<'_>],
    printer: &mut DocumentPrinter<'_, S>,
) -> PrintResult
    requires { All (walk_interface_item (printable printer.old.source) any_docs) (map interface_item_of items.now) }
    ensures { PrintsInterfaceItems printer.old result printer.new (map interface_item_of items.now) }
{
    printer.body(items)
}

#[tactic(auto, using(crate::proofs::Steps::lists))]
impl<'a, S: Sink> DocumentPrinter<'a, S> {
    /// Prints an interface.
    #[tactic(auto, using(crate::proofs::Steps::steps))]
    pub fn interface_decl(&mut self, decl: &InterfaceDecl<'_>) -> PrintResult
        requires { walk_interface_decl (printable self.old.source) any_docs (interface_decl_of decl.now) }
        ensures { PrintsInterfaceDecl self.old result self.new (interface_decl_of decl.now) }
    {
        self.docs(&decl.docs)
            .and(self.interface_head(&decl.id))
            .and(interface_items(&decl.items, self))
    }

    /// Prints an interface that has no name.
    #[tactic(auto, using(crate::proofs::Steps::steps))]
    pub fn inline_interface(&mut self, interface: &InlineInterface<'_>) -> PrintResult
        requires { walk_inline_interface (printable self.old.source) any_docs (inline_interface_of interface.now) }
        ensures { PrintsInlineInterface self.old result self.new (inline_interface_of interface.now) }
    {
        self.interface_keyword()?;
        interface_items(&interface.items, self)
    }

    fn interface_keyword(&mut self) -> PrintResult
        ensures { Prints self.old result self.new (token (codes "interface") ∷ []) }
    {
        self.token("interface")
    }

    fn interface_head(&mut self, id: &Ident<'_>) -> PrintResult
        requires { IdentSliced self.old.source (ident_of id.now) }
        ensures { PrintsHead self.old result self.new (codes "interface") (ident_of id.now) }
    {
        self.head("interface", id)
    }

    /// Prints an item of an interface.
    pub fn interface_item(&mut self, item: &InterfaceItem<'_>) -> PrintResult
        requires { walk_interface_item (printable self.old.source) any_docs (interface_item_of item.now) }
        ensures { PrintsInterfaceItem self.old result self.new (interface_item_of item.now) }
    {
        match item {
            InterfaceItem::Use(decl) => self.use_type(decl),
            InterfaceItem::Ty(decl) => self.item_type_decl(decl),
            InterfaceItem::Export(export) => self.interface_export(export),
        }
    }

    /// Prints an export of an interface: `f: func();`.
    pub fn interface_export(&mut self, export: &InterfaceExport<'_>) -> PrintResult
        requires { walk_interface_export (printable self.old.source) any_docs (interface_export_of export.now) }
        ensures { PrintsInterfaceExport self.old result self.new (interface_export_of export.now) }
    {
        self.docs(&export.docs)
            .and(self.label(&export.id))
            .and(self.func_type_ref(&export.ty))
            .and(self.token(";"))
    }

    /// Prints a `use`: `use a:b/c.{ t, u as v };`.
    pub fn use_type(&mut self, decl: &Use<'_>) -> PrintResult
        requires { walk_use (printable self.old.source) any_docs (use_of decl.now) }
        ensures { PrintsTree self.old result self.new use_layout walk_use (use_of decl.now) }
    {
        self.docs(&decl.docs)
            .and(self.line())
            .and(self.token("use"))
            .and(self.blank(" "))
            .and(self.use_path(&decl.path))
            .and(self.use_items(&decl.items))
            .and(self.token(";"))
    }

    fn use_items(&mut self, items: &[UseItem<'_>]) -> PrintResult
        requires { All (walk_use_item (printable self.old.source)) (map use_item_of items.now) }
        ensures { PrintsEach self.old result self.new use_items_layout walk_use_item (map use_item_of items.now) }
    {
        self.token(".")
            .and(self.token("{"))
            .and(self.blank(" "))
            .and(self.joined(items))
            .and(self.blank(" "))
            .and(self.token("}"))
    }

    /// Prints the path of a `use`.
    pub fn use_path(&mut self, path: &UsePath<'_>) -> PrintResult
        requires { walk_use_path (printable self.old.source) (use_path_of path.now) }
        ensures { PrintsBare self.old result self.new use_path_layout walk_use_path (use_path_of path.now) }
    {
        match path {
            UsePath::Package(path) => self.package_path(path),
            UsePath::Ident(id) => self.ident(id),
        }
    }

    fn use_item(&mut self, item: &UseItem<'_>) -> PrintResult
        requires { walk_use_item (printable self.old.source) (use_item_of item.now) }
        ensures { PrintsBare self.old result self.new use_item_layout walk_use_item (use_item_of item.now) }
    {
        self.ident(&item.id).and(self.as_ident(&item.as_id))
    }

    fn as_ident(&mut self, id: &Option<Ident<'_>>) -> PrintResult
        requires { IfThere (IdentSliced self.old.source) (option_map ident_of id.now) }
        ensures { PrintsOption self.old result self.new as_layout walk_ident (option_map ident_of id.now) }
    {
        match id {
            None => self.ready(),
            Some(id) => self
                .blank(" ")
                .and(self.token("as"))
                .and(self.blank(" "))
                .and(self.ident(id)),
        }
    }
}
