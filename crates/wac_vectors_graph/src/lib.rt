//! Tests of types, packages and composition graphs: that calls succeed, and what they look like from outside.
#![tactic(auto)]

#[cfg(test)]
mod borrows;
#[cfg(test)]
mod building;
#[cfg(test)]
mod chains;
#[cfg(test)]
mod fixture;
#[cfg(test)]
mod graph;
#[cfg(test)]
mod hostile;
#[cfg(test)]
mod reading;
#[cfg(test)]
mod rows;
#[cfg(test)]
mod types;
