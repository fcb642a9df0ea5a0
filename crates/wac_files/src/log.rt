// What was replaced, for contracts alone.
ghost use Rattle.std.specs.Prelude.{◌≡◌, List};
ghost use Rattle.std.specs.Coded.{coded_list};
ghost use Rattle.wac_files.specs.Replacements.{Replacement, replacement_code};

use std::marker::Model;

/// A step of a file system: it is made, or replaces what a file held.
#[derive(Clone, Copy)]
pub(crate) enum Step<'a> {
    Begins,
    Replaces(&'a Log, &'a str, &'a [u8], &'a [u8]),
}

/// What was replaced, in order. It exists in contracts alone, and takes no memory.
#[derive(Drop)]
pub(crate) struct Log {
    ghost replaced: { List Replacement } by { coded_list replacement_code },
}

impl Model for Log {
    ghost use base.Fml.{ftrue};

    ghost also_owns = { λ _. ftrue };
}

impl Log {
    ghost use Rattle.wac_files.specs.Logs.{replaced_by};

    pub(crate) fn after(_step: &Step<'_>) -> Log
        ensures { result.replaced ≡ replaced_by _step.now }
    {
        Log {}
    }
}
