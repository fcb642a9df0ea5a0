//! Whole documents.
ghost use Rattle.std.specs.Prelude.{◌≡◌, ◌+◌, ◌++◌, ℕ, List, [], OnOk, OnErr, map};
ghost use Rattle.wac_ast.specs.Statements.{document_of, statement_of};
ghost use Rattle.wac_printer_pieces.specs.Printed.{Prints};
ghost use Rattle.wac_json_forms.specs.Forms.{json_of, list_json, statement_json};
ghost use Rattle.wac_json_text.specs.Contents.{page_text};
ghost use Rattle.wac_json_text.specs.Pieces.{pieces, IsBegun};

use crate::form::{Enclosed, Json};
use crate::parts::list;
use wac_ast::Statement;
use wac_lexer::Sink;
use wac_printer::{Page, Statements};
use wac_printer_pieces::{Pieces, PrintResult};

/// Writes the JSON form of a document into a sink: compact, each object's keys sorted by their bytes.
///
/// The document of `package a:b;` is written as
/// `{"directive":{"package":{"name":"a:b","span":{"length":3,"offset":8},"string":"a:b","version":null}},"docs":[],"statements":[]}`.
///
/// After an error the sink holds a prefix of the text, and not the whole.
pub fn write_json<S: Sink>(page: Page<'_, '_>, writer: &mut S) -> PrintResult
    ensures written { OnOk result (S.bytes writer.new ≡ S.bytes writer.old ++ page_text page.entry) }
    ensures works { OnOk result (S.failures writer.new ≡ S.failures writer.old) }
    ensures began { OnErr result (IsBegun (S.bytes writer.old) (S.bytes writer.new) (page_text page.entry)) }
    ensures failed { OnErr result (S.failures writer.new ≡ S.failures writer.old + 1) }
{
    let mut out = Pieces::new(writer, "", None);
    let result = document(page, &mut out);
    let writer = out.into_writer();
    // The proof reads from this use what the writer holds.
    let _ = &*writer;
    result
}

/// Writes statements in brackets.
fn write_statements<S: Sink>(statements: &[Statement<'_>], out: &mut Pieces<'_, S>) -> PrintResult
    ensures { Prints out.old result out.new (pieces (list_json statement_json (map statement_of statements.now))) }
{
    list(statements, out)
}

/// Writes the form of a document.
fn document<S: Sink>(page: Page<'_, '_>, out: &mut Pieces<'_, S>) -> PrintResult
    ensures { Prints out.old result out.new (pieces (json_of (document_of page.entry))) }
{
    let Page { document } = page;
    let statements = Statements { document };
    out.blank("{\"directive\":")
        .and(document.directive.write(out))
        .and(out.blank(",\"docs\":["))
        .and(document.docs.write_inside(out))
        .and(out.blank("],\"statements\":"))
        .and(write_statements(statements.all(), out))
        .and(out.blank("}"))
}
