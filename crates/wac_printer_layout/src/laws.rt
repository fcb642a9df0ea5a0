// Laws of printed pieces. Each function does nothing: its contract is the law.
ghost use Rattle.std.specs.Prelude.{◌≡◌, ◌==◌, ℕ, Bool, List, [], ◌∷◌, map, length, if◌then◌else◌};
ghost use Rattle.std.specs.List.{AllByRecursion};
ghost use Rattle.std.specs.Str.{IsUtf8, trim};
ghost use Rattle.std.specs.Str.Lines.{lines};
ghost use Rattle.wac_lexer.specs.Follow.{Follows};
ghost use Rattle.wac_lexer.specs.Items.{items};
ghost use Rattle.wac_lexer.specs.Reading.{slice, Slices};
ghost use Rattle.wac_lexer.specs.Span.{Span};
ghost use Rattle.wac_lexer.specs.declared.token.Token.{Token};
ghost use Rattle.wac_ast_grammar.specs.Tree.{Document};
ghost use Rattle.wac_printer_layout.specs.Accepted.{IsAccepted, ItemIsAccepted};
ghost use Rattle.wac_printer_layout.specs.Joins.{IsDocLine, Stands};
ghost use Rattle.wac_printer_layout.specs.Printed.{Piece};
ghost use Rattle.wac_printer_layout.specs.Bare.{Keep};
ghost use Rattle.wac_ast_grammar.specs.TextTree.{IsTreeOf};
ghost use Rattle.wac_printer_layout.specs.Laws.{WriteAccepted, ReadAsPlaced, PlacedSay, WriteBoth, FreshAsWritten};
ghost use Rattle.wac_printer_layout.specs.Laws.{JoinBoth, DocumentsJoin, StatementsJoin, IsPrintable, PrintableIsReread};
ghost use Rattle.wac_printer_layout.specs.Laws.{TreeIsReread, PrintReadsBack, RereadsPrintAlike, PrintStays, PrintIsUtf8};
ghost use Rattle.wac_printer_layout.specs.Laws.{BareGivesPlain, RereadIsPlain, LinesGiveText, RereadByLines, LinesSettle};

/// What pieces that join write is read back: a lexer accepts the text, and its items are the token pieces
/// at their places, with the doc pieces before them as docs.
pub fn pieces_are_read_back()
    ensures accepted { (rest space : List ℕ) (fresh : Bool) (ps : List Piece) → WriteAccepted rest space fresh ps }
    ensures items { (space : List ℕ) (fresh : Bool) (ps : List Piece) → ReadAsPlaced space fresh ps }
    ensures said { (place : ℕ) (space : List ℕ) (fresh : Bool) (ps : List Piece) → PlacedSay place space fresh ps }
{}

/// The concatenation of two lists of pieces joins where the second joins, and
/// the first joins before what the second writes.
pub fn pieces_are_put_together()
    ensures text { (space : List ℕ) (fresh : Bool) (ps qs : List Piece) → WriteBoth space fresh ps qs }
    ensures fresh { (space : List ℕ) (fresh : Bool) (ps : List Piece) → FreshAsWritten space fresh ps }
    ensures joins { (rest space : List ℕ) (fresh : Bool) (ps qs : List Piece) → JoinBoth rest space fresh ps qs }
    ensures token { (t rest : List ℕ) (kind : Token) → IsAccepted t → Follows kind t rest → Stands t rest }
{}

/// The pieces of a document join where each of its texts is spelled as its sort: an identifier, a string, a package's name or path, a line of docs.
pub fn documents_join()
    ensures document { (space : List ℕ) (fresh : Bool) → DocumentsJoin space fresh }
    ensures statement { (rest space : List ℕ) (fresh : Bool) → StatementsJoin rest space fresh }
{}

/// The texts and docs of the items of a text have no rejected character, where the text has none.
pub fn items_are_accepted()
    ensures items { (source : List ℕ) → IsAccepted source → AllByRecursion ItemIsAccepted (items source) }
    ensures slices { (source : List ℕ) (s : Span) → IsAccepted source → Slices source s → IsAccepted (slice source s) }
{}

/// The lines of a doc, cut at LF and trimmed, can be printed as lines of docs, and stay what they are when they are read and cut again.
pub fn docs_are_cut_into_lines()
    ensures lines { (comment : List ℕ) → IsAccepted comment → AllByRecursion (λ l. IsDocLine (trim l)) (lines comment) }
    ensures settled { (l : List ℕ) → IsDocLine l → map trim (lines l) ≡ (if length l == 0 then [] else l ∷ []) }
{}

/// What is printed of a document reads back as a tree with the same bare tree, whose docs are the lines of its docs.
pub fn documents_are_read_back()
    ensures { (space source : List ℕ) (tree : Document) → PrintableIsReread space source tree }
{}

/// The tree of a text can be printed, and what is printed of it reads back as a tree with the same bare tree, whose docs are the lines of its docs.
pub fn trees_are_read_back()
    ensures spelled { (source : List ℕ) (x : Document) → IsUtf8 source → IsTreeOf source x → IsPrintable source x }
    ensures reread { (space source : List ℕ) (tree : Document) → TreeIsReread space source tree }
{}

/// What is printed is fixed from the second time on: the tree of the second printed text is printed as that text.
pub fn printing_is_fixed()
    ensures { (space source : List ℕ) → RereadsPrintAlike space source }
{}

/// What is printed of the tree of a text reads back, and is fixed from the second time on.
pub fn printed_texts_read_back()
    ensures { (space source : List ℕ) (tree : Document) → PrintReadsBack space source tree }
{}

/// What is printed of a text that was itself printed has a tree that is printed as the same text.
pub fn printed_texts_stay()
    ensures { (space source : List ℕ) (tree : Document) → PrintStays space source tree }
{}

/// What is printed of the tree of a text is UTF-8, whatever text is written for a depth.
pub fn printed_texts_are_utf8()
    ensures { (space source : List ℕ) (tree : Document) → PrintIsUtf8 space source tree }
{}

/// Documents with equal bare trees have equal plain trees, whatever is kept of their docs. So a document and what is printed of it have the same plain tree.
pub fn bare_trees_give_plain_trees()
    ensures bare { (keep other : Keep) (source text : List ℕ) → BareGivesPlain keep other source text }
    ensures reread { (source text : List ℕ) (x again : Document) → RereadIsPlain source text x again }
{}

/// A printed text depends on the bare tree and the lines of docs alone, whatever the layout, comments and spans of the
/// source were. What is printed has a tree with the same bare tree, whose docs are the lines, one doc a line, and what
/// is printed of that one has the lines that are not empty.
pub fn bare_trees_and_lines_give_texts()
    ensures texts { (space source other : List ℕ) (x y : Document) → LinesGiveText space source other x y }
    ensures reread { (text source : List ℕ) (again tree : Document) → RereadByLines text source again tree }
    ensures settled { (space source : List ℕ) (x again third : Document) → LinesSettle space source x again third }
{}
