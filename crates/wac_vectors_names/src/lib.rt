//! Tests of what an editor asks of a text: which name is where, and what it denotes (`wac_names`); what can stand at an
//! offset (`wac_completion`); where a name is bound and used, and texts after a renaming (`wac_lsp_names`); what texts
//! declare, and what of them can be folded (`wac_lsp_outline`).
#![tactic(auto)]

#[cfg(test)]
mod asked;
#[cfg(test)]
mod completion;
#[cfg(test)]
mod lsp_names;
#[cfg(test)]
mod marked;
#[cfg(test)]
mod names;
#[cfg(test)]
mod outline;
#[cfg(test)]
mod spans;
