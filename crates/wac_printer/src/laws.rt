// Laws of the definitions that the printer's contracts cite. Each function does nothing: its contract is the law.
ghost use Rattle.std.specs.Prelude.{ℕ, List};
ghost use Rattle.wac_ast_grammar.specs.Tree.{Document};
ghost use Rattle.wac_ast_grammar.specs.Slices.{DocumentSlices};
ghost use Rattle.wac_printer.specs.Sliced.{DocumentSliced};
ghost use Rattle.wac_printer.specs.ReadBack.{EqualBareTreesPrintEqually, WhatIsPrintedReadsBack};

/// Documents that are equal but for spans, with each name as its source spells it and each line of docs apart,
/// print equally, whatever their layout was.
pub fn equal_bare_trees_print_equally()
    ensures { EqualBareTreesPrintEqually }
{}

/// A tree whose spans slice the source, as those of the tree of a text do, can be printed.
pub fn trees_of_texts_can_be_printed()
    ensures { (source : List ℕ) (tree : Document) → DocumentSlices source tree → DocumentSliced source tree }
{}

/// What is written of a document, in a new printer whose space consists of blanks, TAB, CR and LF, reads back: its items are the tokens of
/// the layout, and it has a tree with the same bare tree, whose docs are the lines of the first one's docs. Printed again it is fixed.
pub fn printed_documents_read_back()
    ensures { WhatIsPrintedReadsBack }
{}
