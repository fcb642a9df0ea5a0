//! Tests of `wac_component_rules` and `wac_component_rules`: kinds that fit and kinds that don't, in tables built by
//! hand; tables made by a seeded generator, of whose pairs the two say what a plain definition says, computed kind by
//! kind; and a table of pairs that documents declare, each case and each refusal with its path.
#![tactic(auto)]

#[cfg(test)]
mod asynchronous;
#[cfg(test)]
mod building;
#[cfg(test)]
mod chain_paths;
#[cfg(test)]
mod choices;
#[cfg(test)]
mod definition;
#[cfg(test)]
mod function_pairs;
#[cfg(test)]
mod generated;
#[cfg(test)]
mod instance_pairs;
#[cfg(test)]
mod kinds;
#[cfg(test)]
mod long_chains;
#[cfg(test)]
mod modules;
#[cfg(test)]
mod names;
#[cfg(test)]
mod pairs;
#[cfg(test)]
mod shapes;
#[cfg(test)]
mod tables;
#[cfg(test)]
mod value_pairs;
#[cfg(test)]
mod versions;
