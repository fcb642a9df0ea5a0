//! Prints documents, by a [`DocumentPrinter`] into any sink; [`format`] prints the document of a text in the one layout.
#![tactic(auto)]

mod declaration;
mod docs;
mod expression;
mod formatting;
mod interface;
mod laws;
mod lists;
mod printer;
mod statement;
mod value_type;
mod world;

pub use formatting::format;
pub use laws::{
    equal_bare_trees_print_equally, printed_documents_read_back, trees_of_texts_can_be_printed,
};
pub use printer::DocumentPrinter;
pub use statement::{Page, Statements};
pub use wac_printer_pieces::{PrintError, PrintResult};
