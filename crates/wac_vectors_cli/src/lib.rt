//! Tests of the commands of `wacx` over files in memory: what they write, which status they return, which files they
//! leave while a call fails; of `wac_files`, which files paths lead to and how they are written; of `wac_diff`, how
//! texts differ; of the packages that documents declare and of those of components; and of the calls of the library
//! for C. Rows of whole runs are in .ci/runs/.
#![tactic(auto)]

#[cfg(test)]
mod calls;
#[cfg(test)]
mod commands;
#[cfg(test)]
mod diffs;
#[cfg(test)]
mod disks;
#[cfg(test)]
mod failing;
#[cfg(test)]
mod formats;
#[cfg(test)]
mod leftovers;
#[cfg(test)]
mod packages;
#[cfg(test)]
mod runs;
#[cfg(test)]
mod walks;
