//! Tests of `wac_components`: broken components with kind and offset of their error, small components that were made by
//! hand, one with a large core module, and one that grows without end; of numbers and names in bytes; of the names of
//! types; of words of WAC; of packages. Each test passes whichever request for memory fails.
#![tactic(auto)]

#[cfg(test)]
mod broken;
#[cfg(test)]
mod large;
#[cfg(test)]
mod names;
#[cfg(test)]
mod numbers;
#[cfg(test)]
mod packages;
#[cfg(test)]
mod small;
#[cfg(test)]
mod words;
