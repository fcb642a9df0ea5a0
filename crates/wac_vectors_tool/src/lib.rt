//! Tests of `wac_tool` and of resolving whole documents: runs, and readers, writers and memory that fail; documents with
//! their graphs or errors; the lines of a graph, and a graph in the forms of `wacx graph`.
#![tactic(auto)]

#[cfg(test)]
mod chains;
#[cfg(test)]
mod choices;
#[cfg(test)]
mod documents;
#[cfg(test)]
mod entries;
#[cfg(test)]
mod errors;
#[cfg(test)]
mod failing;
#[cfg(test)]
mod formatting;
#[cfg(test)]
mod graph_building;
#[cfg(test)]
mod graph_lines;
#[cfg(test)]
mod graph_outputs;
#[cfg(test)]
mod graph_rules;
#[cfg(test)]
mod memory;
#[cfg(test)]
mod narrow;
#[cfg(test)]
mod order;
#[cfg(test)]
mod packages;
#[cfg(test)]
mod readings;
#[cfg(test)]
mod rows;
#[cfg(test)]
mod rules;
#[cfg(test)]
mod runs;
#[cfg(test)]
mod types;
