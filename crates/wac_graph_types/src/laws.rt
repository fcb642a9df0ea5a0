//! Laws of the definitions that the contracts cite. Each function does nothing: its contract is the law.
ghost use Rattle.std.specs.Prelude.{List};
ghost use Rattle.wac_graph_types.specs.declared.entry.Entry.{Entry};
ghost use Rattle.wac_graph_types.specs.Meaning.{IsOneToOne};

/// The entries' own numbers are origins that distinguish a table's resources, so each table has such origins.
pub fn origins_exist()
    ensures { (es : List Entry) → IsOneToOne es (λ n. n) }
{}
