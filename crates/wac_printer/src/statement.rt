//! Printing documents and their statements.
ghost use Rattle.std.specs.List.{All};
ghost use Rattle.std.specs.Prelude.{◌≡◌, map};
ghost use Rattle.std.specs.Option.{option_map};
ghost use Rattle.wac_ast_grammar.specs.Walk.{walk_export_options, walk_export_statement, walk_extern_name, walk_import_statement, walk_import_type, walk_let_statement, walk_package_directive, walk_statement, walk_type_statement};
ghost use Rattle.wac_ast_statements.specs.Statements.{directive_of, export_options_of, export_statement_of, let_statement_of};
ghost use Rattle.wac_ast_base.specs.Names.{extern_name_of, package_path_of};
ghost use Rattle.wac_ast.specs.Statements.{document_of, statement_of, type_statement_of};
ghost use Rattle.wac_ast_worlds.specs.Worlds.{import_statement_of, import_type_of};
ghost use Rattle.wac_printer.specs.ReadBack.{IsReadBack};
ghost use Rattle.wac_ast_grammar.specs.Leaves.{IfThere};
ghost use Rattle.wac_printer.specs.Sliced.{DocumentSliced, PackagePathSliced, any_docs, printable};
ghost use Rattle.wac_printer_layout.specs.StatementLayout.{import_type_layout, renamed_layout, statement_layout};
ghost use Rattle.wac_printer.specs.Forms.{PrintsBare, PrintsTree, tree_layout};
ghost use Rattle.wac_printer.specs.Nodes.{PrintsDocument, PrintsExportOptions, PrintsExportStatement, PrintsImportName, PrintsImportStatement, PrintsLetStatement, PrintsPackageDirective, PrintsStatements, PrintsTargets, PrintsTypeStatement};

use crate::laws::printed_documents_read_back;
use crate::lists::Node;
use crate::printer::DocumentPrinter;
use std::marker::Model;
use wac_ast::{
    Document, ExportOptions, ExportStatement, ExternName, ImportStatement, ImportType,
    LetStatement, PackageDirective, PackagePath, Statement, TypeStatement,
};
use wac_lexer::Sink;
use wac_printer_pieces::PrintResult;

impl Node for Statement<'_> {
    ghost layout = { tree_layout statement_layout walk_statement statement_of };

    ghost sliced = { λ source x. walk_statement (printable source) any_docs (statement_of x) };

    fn print<S: Sink>(&self, printer: &mut DocumentPrinter<'_, S>) -> PrintResult {
        printer.statement(self)
    }
}

/// A document that is lent to a printer.
///
/// `printer.page(Page { document: &document })` does what `printer.document(&document)` does. It is for callers that
/// are proved themselves: the prover follows a lent document through a call at far less cost when it is in a `Page`.
#[derive(Drop)]
pub struct Page<'t, 'a> {
    /// The document.
    pub document: &'t Document<'a>,
}

impl<'t, 'a> Model for Page<'t, 'a> {
    ghost use Rattle.std.specs.Coded.{codes};
    ghost use Rattle.wac_ast_types.specs.contracts.types.«Type» as ty;
    ghost use Rattle.wac_ast_statements.specs.contracts.expr.PrimaryExpr as primary;
    ghost use Rattle.wac_printer.specs.Lent.{no_lifetime};
    ghost use Rattle.wac_ast.specs.declared.document.Document.{Document};

    ghost Value = { Document };

    ghost coded = { Prim.hlevel (codes, (ty.the_row no_lifetime).coded, (primary.the_row no_lifetime).coded) };

    ghost view = { λ p. p.document.now };

    ghost invariant = { λ p. Unit {0} };
}

/// The statements of a document that is lent.
///
/// `Statements { document }.all()` is `&document.statements`. It is for callers that are proved themselves: the prover
/// follows the statements through a call at less cost than the document.
#[derive(Drop)]
pub struct Statements<'t, 'a> {
    /// The document.
    pub document: &'t Document<'a>,
}

impl<'t, 'a> Model for Statements<'t, 'a> {
    ghost use Rattle.std.specs.Prelude.{List};
    ghost use Rattle.std.specs.Coded.{codes};
    ghost use Rattle.wac_ast_types.specs.contracts.types.«Type» as ty;
    ghost use Rattle.wac_ast_statements.specs.contracts.expr.PrimaryExpr as primary;
    ghost use Rattle.wac_printer.specs.Lent.{no_lifetime};
    ghost use Rattle.wac_ast.specs.declared.statement.Statement.{Statement};

    ghost Value = { List Statement };

    ghost coded = { Prim.hlevel (codes, (ty.the_row no_lifetime).coded, (primary.the_row no_lifetime).coded) };

    ghost view = { λ s. s.document.now.statements.items };

    ghost invariant = { λ s. Unit {0} };
}

fn statements_of<'t, 'a>(document: &'t Document<'a>) -> &'t [Statement<'a>]
    ensures { result.now ≡ document.now.statements.items }
{
    &document.statements
}

impl<'t, 'a> Statements<'t, 'a> {
    /// All statements, in order.
    pub fn all(self) -> &'t [Statement<'a>]
        ensures { result.now ≡ self.entry }
    {
        statements_of(self.document)
    }
}

/// Prints the statements of a document, which come first: see `print_items`.
#[tactic(auto, using(crate::proofs::Steps::lists))]
fn print_statements<S: Sink>(
    statements: &[Statement<'_>],
    printer: &mut DocumentPrinter<'_, S>,
) -> PrintResult
    requires { All (walk_statement (printable printer.old.source) any_docs) (map statement_of statements.now) }
    ensures { PrintsStatements printer.old result printer.new (map statement_of statements.now) }
{
    printer.spaced(statements)
}

#[tactic(auto, using(crate::proofs::Steps::lists))]
impl<'a, S: Sink> DocumentPrinter<'a, S> {
    /// Prints a document.
    ///
    /// What a new printer writes of the tree of its source reads back as the same document, where its space consists of
    /// blanks, TAB, CR and LF.
    pub fn document(&mut self, document: &Document<'_>) -> PrintResult
        requires { DocumentSliced self.old.source (document_of document.now) }
        ensures prints { PrintsDocument self.old result self.new (document_of document.now) }
        ensures reads_back { IsReadBack self.old result self.new (document_of document.now) }
    {
        printed_documents_read_back();
        self.page(Page { document })
    }

    /// Prints a document that is lent.
    pub fn page(&mut self, page: Page<'_, '_>) -> PrintResult
        requires { DocumentSliced self.old.source (document_of page) }
        ensures { PrintsDocument self.old result self.new (document_of page.entry) }
    {
        let Page { document } = page;
        let statements = Statements { document };
        self.docs(&document.docs)
            .and(self.package_directive(&document.directive))
            .and(print_statements(statements.all(), self))
    }

    /// Prints the directive that names the package, and an empty line.
    pub fn package_directive(&mut self, directive: &PackageDirective<'_>) -> PrintResult
        requires { walk_package_directive (printable self.old.source) (directive_of directive.now) }
        ensures { PrintsPackageDirective self.old result self.new (directive_of directive.now) }
    {
        self.line()
            .and(self.token("package"))
            .and(self.blank(" "))
            .and(self.package_name(&directive.package))
            .and(self.targets(&directive.targets))
            .and(self.token(";"))
            .and(self.blank("\n"))
            .and(self.blank("\n"))
    }

    fn targets(&mut self, path: &Option<PackagePath<'_>>) -> PrintResult
        requires { IfThere (PackagePathSliced self.old.source) (option_map package_path_of path.now) }
        ensures { PrintsTargets self.old result self.new (option_map package_path_of path.now) }
    {
        match path {
            None => self.ready(),
            Some(path) => self
                .blank(" ")
                .and(self.token("targets"))
                .and(self.blank(" "))
                .and(self.package_path(path)),
        }
    }

    /// Prints a statement.
    pub fn statement(&mut self, statement: &Statement<'_>) -> PrintResult
        requires { walk_statement (printable self.old.source) any_docs (statement_of statement.now) }
        ensures { PrintsTree self.old result self.new statement_layout walk_statement (statement_of statement.now) }
    {
        match statement {
            Statement::Import(statement) => self.import_statement(statement),
            Statement::Ty(statement) => self.type_statement(statement),
            Statement::Let(statement) => self.let_statement(statement),
            Statement::Export(statement) => self.export_statement(statement),
        }
    }

    /// Prints the declaration of an interface, a world or a type.
    pub fn type_statement(&mut self, statement: &TypeStatement<'_>) -> PrintResult
        requires { walk_type_statement (printable self.old.source) any_docs (type_statement_of statement.now) }
        ensures { PrintsTypeStatement self.old result self.new (type_statement_of statement.now) }
    {
        match statement {
            TypeStatement::Interface(decl) => self.interface_decl(decl),
            TypeStatement::World(decl) => self.world_decl(decl),
            TypeStatement::Ty(decl) => self.type_decl(decl),
        }
    }

    /// Prints an import.
    pub fn import_statement(&mut self, statement: &ImportStatement<'_>) -> PrintResult
        requires { walk_import_statement (printable self.old.source) any_docs (import_statement_of statement.now) }
        ensures { PrintsImportStatement self.old result self.new (import_statement_of statement.now) }
    {
        self.docs(&statement.docs)
            .and(self.head("import", &statement.id))
            .and(self.import_name(&statement.name))
            .and(self.token(":"))
            .and(self.blank(" "))
            .and(self.import_type(&statement.ty))
            .and(self.token(";"))
    }

    fn import_name(&mut self, name: &Option<ExternName<'_>>) -> PrintResult
        requires { IfThere (walk_extern_name (printable self.old.source)) (option_map extern_name_of name.now) }
        ensures { PrintsImportName self.old result self.new (option_map extern_name_of name.now) }
    {
        match name {
            None => self.ready(),
            Some(name) => self.renamed(name),
        }
    }

    fn renamed(&mut self, name: &ExternName<'_>) -> PrintResult
        requires { walk_extern_name (printable self.old.source) (extern_name_of name.now) }
        ensures { PrintsBare self.old result self.new renamed_layout walk_extern_name (extern_name_of name.now) }
    {
        self.blank(" ")
            .and(self.token("as"))
            .and(self.blank(" "))
            .and(self.extern_name(name))
    }

    /// Prints the type of an import.
    pub fn import_type(&mut self, ty: &ImportType<'_>) -> PrintResult
        requires { walk_import_type (printable self.old.source) any_docs (import_type_of ty.now) }
        ensures { PrintsTree self.old result self.new import_type_layout walk_import_type (import_type_of ty.now) }
    {
        match ty {
            ImportType::Package(path) => self.package_path(path),
            ImportType::Func(ty) => self.func_type(ty),
            ImportType::Interface(interface) => self.inline_interface(interface),
            ImportType::Ident(id) => self.ident(id),
        }
    }

    /// Prints a `let`.
    pub fn let_statement(&mut self, statement: &LetStatement<'_>) -> PrintResult
        requires { walk_let_statement (printable self.old.source) any_docs (let_statement_of statement.now) }
        ensures { PrintsLetStatement self.old result self.new (let_statement_of statement.now) }
    {
        self.docs(&statement.docs)
            .and(self.head("let", &statement.id))
            .and(self.blank(" "))
            .and(self.token("="))
            .and(self.blank(" "))
            .and(self.expr(&statement.expr))
            .and(self.token(";"))
    }

    /// Prints an export.
    pub fn export_statement(&mut self, statement: &ExportStatement<'_>) -> PrintResult
        requires { walk_export_statement (printable self.old.source) any_docs (export_statement_of statement.now) }
        ensures { PrintsExportStatement self.old result self.new (export_statement_of statement.now) }
    {
        self.docs(&statement.docs)
            .and(self.line())
            .and(self.token("export"))
            .and(self.blank(" "))
            .and(self.expr(&statement.expr))
            .and(self.export_options(&statement.options))
            .and(self.token(";"))
    }

    fn export_options(&mut self, options: &ExportOptions<'_>) -> PrintResult
        requires { walk_export_options (printable self.old.source) (export_options_of options.now) }
        ensures { PrintsExportOptions self.old result self.new (export_options_of options.now) }
    {
        match options {
            ExportOptions::None => self.ready(),
            ExportOptions::Spread(_) => self.token("..."),
            ExportOptions::Rename(name) => self.renamed(name),
        }
    }
}
