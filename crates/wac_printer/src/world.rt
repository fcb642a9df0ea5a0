//! Printing worlds.
ghost use Rattle.std.specs.Prelude.{◌≡◌, List, map};
ghost use Rattle.std.specs.List.{All};
ghost use Rattle.wac_ast_grammar.specs.Walk.{walk_extern_type, walk_named_world_item, walk_world_decl, walk_world_export, walk_world_import, walk_world_include, walk_world_include_item, walk_world_item, walk_world_item_path, walk_world_ref};
ghost use Rattle.wac_printer.specs.Sliced.{any_docs, printable};
ghost use Rattle.wac_ast_worlds.specs.Worlds.{extern_type_of, named_world_item_of, world_decl_of, world_export_of, world_import_of, world_item_of, world_item_path_of};
ghost use Rattle.wac_ast_uses.specs.Uses.{world_include_of, world_include_item_of, world_ref_of};
ghost use Rattle.wac_printer_layout.specs.WorldLayout.{extern_type_layout, with_layout, world_decl_layout, world_include_item_layout, world_item_layout, world_ref_layout};
ghost use Rattle.wac_printer.specs.Forms.{PrintsBare, PrintsTree, bare_layout, tree_layout};
ghost use Rattle.wac_printer.specs.Nodes.{PrintsNamedWorldItem, PrintsRenamings, PrintsWorldExport, PrintsWorldImport, PrintsWorldInclude, PrintsWorldIncludeItem, PrintsWorldItemPath, PrintsWorldItems};
ghost use Rattle.wac_printer.specs.Layouts.{with_rows_layout};

use crate::lists::Node;
use crate::printer::DocumentPrinter;
use wac_ast::{
    ExternType, NamedWorldItem, WorldDecl, WorldExport, WorldImport, WorldInclude,
    WorldIncludeItem, WorldItem, WorldItemPath, WorldRef,
};
use wac_lexer::Sink;
use wac_printer_pieces::PrintResult;

impl Node for WorldItem<'_> {
    ghost layout = { tree_layout world_item_layout walk_world_item world_item_of };

    ghost sliced = { λ source x. walk_world_item (printable source) any_docs (world_item_of x) };

    fn print<S: Sink>(&self, printer: &mut DocumentPrinter<'_, S>) -> PrintResult {
        printer.world_item(self)
    }
}

impl Node for WorldIncludeItem<'_> {
    ghost layout = { bare_layout world_include_item_layout walk_world_include_item world_include_item_of };

    ghost sliced = { λ source x. walk_world_include_item (printable source) (world_include_item_of x) };

    fn print<S: Sink>(&self, printer: &mut DocumentPrinter<'_, S>) -> PrintResult {
        printer.world_include_item(self)
    }
}

fn items_of<'t, 'a>(decl: &'t WorldDecl<'a>) -> &'t [WorldItem<'a>]
    ensures { result.now ≡ decl.now.items.items }
{
    &decl.items
}

/// Prints the items of a world, which comes first: the prover's work grows with the number of lifetimes before its own.
#[tactic(auto, using(crate::proofs::Steps::lists))]
fn print_items<S: Sink>(decl: &WorldDecl<'_>, printer: &mut DocumentPrinter<'_, S>) -> PrintResult
    requires { All (walk_world_item (printable printer.old.source) any_docs) (map world_item_of decl.now.items.items) }
    ensures { PrintsWorldItems printer.old result printer.new (map world_item_of decl.now.items.items) }
{
    printer.body(items_of(decl))
}

#[tactic(auto, using(crate::proofs::Steps::lists))]
impl<'a, S: Sink> DocumentPrinter<'a, S> {
    /// Prints a world.
    pub fn world_decl(&mut self, decl: &WorldDecl<'_>) -> PrintResult
        requires { walk_world_decl (printable self.old.source) any_docs (world_decl_of decl.now) }
        ensures { PrintsTree self.old result self.new world_decl_layout walk_world_decl (world_decl_of decl.now) }
    {
        self.docs(&decl.docs)
            .and(self.head("world", &decl.id))
            .and(print_items(decl, self))
    }

    /// Prints an item of a world.
    pub fn world_item(&mut self, item: &WorldItem<'_>) -> PrintResult
        requires { walk_world_item (printable self.old.source) any_docs (world_item_of item.now) }
        ensures { PrintsTree self.old result self.new world_item_layout walk_world_item (world_item_of item.now) }
    {
        match item {
            WorldItem::Use(decl) => self.use_type(decl),
            WorldItem::Ty(decl) => self.item_type_decl(decl),
            WorldItem::Import(import) => self.world_import(import),
            WorldItem::Export(export) => self.world_export(export),
            WorldItem::Include(include) => self.world_include(include),
        }
    }

    /// Prints an import of a world.
    pub fn world_import(&mut self, import: &WorldImport<'_>) -> PrintResult
        requires { walk_world_import (printable self.old.source) any_docs (world_import_of import.now) }
        ensures { PrintsWorldImport self.old result self.new (world_import_of import.now) }
    {
        self.docs(&import.docs)
            .and(self.line())
            .and(self.token("import"))
            .and(self.blank(" "))
            .and(self.world_item_path(&import.path))
            .and(self.token(";"))
    }

    /// Prints an export of a world.
    pub fn world_export(&mut self, export: &WorldExport<'_>) -> PrintResult
        requires { walk_world_export (printable self.old.source) any_docs (world_export_of export.now) }
        ensures { PrintsWorldExport self.old result self.new (world_export_of export.now) }
    {
        self.docs(&export.docs)
            .and(self.line())
            .and(self.token("export"))
            .and(self.blank(" "))
            .and(self.world_item_path(&export.path))
            .and(self.token(";"))
    }

    /// Prints what a world imports or exports.
    pub fn world_item_path(&mut self, path: &WorldItemPath<'_>) -> PrintResult
        requires { walk_world_item_path (printable self.old.source) any_docs (world_item_path_of path.now) }
        ensures { PrintsWorldItemPath self.old result self.new (world_item_path_of path.now) }
    {
        match path {
            WorldItemPath::Named(item) => self.named_world_item(item),
            WorldItemPath::Package(path) => self.package_path(path),
            WorldItemPath::Ident(id) => self.ident(id),
        }
    }

    /// Prints a name with its type: `f: func()`.
    pub fn named_world_item(&mut self, item: &NamedWorldItem<'_>) -> PrintResult
        requires { walk_named_world_item (printable self.old.source) any_docs (named_world_item_of item.now) }
        ensures { PrintsNamedWorldItem self.old result self.new (named_world_item_of item.now) }
    {
        self.ident(&item.id)
            .and(self.token(":"))
            .and(self.blank(" "))
            .and(self.extern_type(&item.ty))
    }

    /// Prints the type of an item of a world.
    pub fn extern_type(&mut self, ty: &ExternType<'_>) -> PrintResult
        requires { walk_extern_type (printable self.old.source) any_docs (extern_type_of ty.now) }
        ensures { PrintsTree self.old result self.new extern_type_layout walk_extern_type (extern_type_of ty.now) }
    {
        match ty {
            ExternType::Ident(id) => self.ident(id),
            ExternType::Func(ty) => self.func_type(ty),
            ExternType::Interface(interface) => self.inline_interface(interface),
        }
    }

    /// Prints an `include`, with the names that change, if there are any.
    pub fn world_include(&mut self, include: &WorldInclude<'_>) -> PrintResult
        requires { walk_world_include (printable self.old.source) any_docs (world_include_of include.now) }
        ensures { PrintsWorldInclude self.old result self.new (world_include_of include.now) }
    {
        self.docs(&include.docs)
            .and(self.line())
            .and(self.token("include"))
            .and(self.blank(" "))
            .and(self.world_ref(&include.world))
            .and(self.with_items(&include.with))
            .and(self.token(";"))
    }

    /// Prints the world that is included.
    pub fn world_ref(&mut self, world: &WorldRef<'_>) -> PrintResult
        requires { walk_world_ref (printable self.old.source) (world_ref_of world.now) }
        ensures { PrintsBare self.old result self.new world_ref_layout walk_world_ref (world_ref_of world.now) }
    {
        match world {
            WorldRef::Ident(id) => self.ident(id),
            WorldRef::Package(path) => self.package_path(path),
        }
    }

    fn with_items(&mut self, items: &[WorldIncludeItem<'_>]) -> PrintResult
        requires { All (walk_world_include_item (printable self.old.source)) (map world_include_item_of items.now) }
        ensures { PrintsRenamings self.old result self.new with_layout (map world_include_item_of items.now) }
    {
        if items.is_empty() {
            return self.ready();
        }
        self.with_rows(items)
    }

    fn with_rows(&mut self, items: &[WorldIncludeItem<'_>]) -> PrintResult
        requires { All (walk_world_include_item (printable self.old.source)) (map world_include_item_of items.now) }
        ensures { PrintsRenamings self.old result self.new with_rows_layout (map world_include_item_of items.now) }
    {
        self.blank(" ")
            .and(self.token("with"))
            .and(self.rows(items))
    }

    fn world_include_item(&mut self, item: &WorldIncludeItem<'_>) -> PrintResult
        requires { walk_world_include_item (printable self.old.source) (world_include_item_of item.now) }
        ensures { PrintsWorldIncludeItem self.old result self.new (world_include_item_of item.now) }
    {
        self.line()
            .and(self.ident(&item.from))
            .and(self.blank(" "))
            .and(self.token("as"))
            .and(self.blank(" "))
            .and(self.ident(&item.to))
    }
}
