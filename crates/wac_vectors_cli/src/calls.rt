//! Tests of the calls of the library for C: each word with room of several sizes, texts that are rejected, nesting, and
//! packages that are handed over.

mod graphs;
mod nesting;
mod numbers;
mod rooms;
mod words;
