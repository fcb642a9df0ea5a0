//! Tests of what is said of a text: excerpts and each output as golden texts; what is found first; all faults and all
//! errors of texts, counted by hand; and what is left of texts with faults.
#![tactic(auto)]

#[cfg(test)]
mod all_errors;
#[cfg(test)]
mod excerpts;
#[cfg(test)]
mod faults;
#[cfg(test)]
mod findings;
#[cfg(test)]
mod hints;
#[cfg(test)]
mod outputs;
#[cfg(test)]
mod parts;
