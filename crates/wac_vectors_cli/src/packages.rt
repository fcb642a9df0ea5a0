//! Tests of the packages that documents declare and of those of components: what documents declare, and each error with
//! its place; which files are found under which keys, what is read of them, and what is said of packages that are
//! declared too; which names of versions are compatible.

mod all;
mod errors;
mod found;
mod memory;
mod order;
mod rows;
mod shown;
mod supplied;
mod versions;
mod worlds;
