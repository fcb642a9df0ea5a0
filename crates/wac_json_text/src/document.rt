//! Statements and documents.
ghost use Rattle.std.specs.Prelude.{ℕ, List};
ghost use Rattle.std.specs.Option.{option_map};
ghost use Rattle.wac_ast_base.specs.Names.{package_path_of};
ghost use Rattle.wac_printer_pieces.specs.Printed.{Prints};
ghost use Rattle.wac_json_forms.specs.Forms.{target_member};
ghost use Rattle.wac_json_text.specs.Pieces.{members_pieces};

use crate::form::Json;
use crate::parts::variant;
use wac_ast::{PackageDirective, PackagePath, Statement};
use wac_lexer::Sink;
use wac_printer_pieces::{Pieces, PrintResult};

/// The one object with a member that may be left out: `targets`.
impl Json for PackageDirective<'_> {
    ghost use Rattle.wac_ast_statements.specs.Statements.{directive_of};
    ghost use Rattle.wac_json_forms.specs.Forms.{directive_json};

    ghost form = { λ x. directive_json (directive_of x) };

    fn write<S: Sink>(&self, out: &mut Pieces<'_, S>) -> PrintResult {
        out.blank("{\"package\":")
            .and(self.package.write(out))
            .and(target(&self.targets, out))
    }
}

/// Writes the target, where there is one, and the closing brace.
fn target<S: Sink>(path: &Option<PackagePath<'_>>, out: &mut Pieces<'_, S>) -> PrintResult
    ensures { Prints out.old result out.new (members_pieces (target_member (option_map package_path_of path.now))) }
{
    match path {
        Some(path) => variant(",\"targets\":", path, out),
        None => out.blank("}"),
    }
}

/// The one enum whose variants keep their capital letters.
impl Json for Statement<'_> {
    ghost use Rattle.wac_ast.specs.Statements.{statement_of};
    ghost use Rattle.wac_json_forms.specs.Forms.{statement_json};

    ghost form = { λ x. statement_json (statement_of x) };

    fn write<S: Sink>(&self, out: &mut Pieces<'_, S>) -> PrintResult {
        match self {
            Statement::Import(part) => variant("{\"Import\":", part, out),
            Statement::Ty(part) => variant("{\"Type\":", part, out),
            Statement::Let(part) => variant("{\"Let\":", part, out),
            Statement::Export(part) => variant("{\"Export\":", part, out),
        }
    }
}
