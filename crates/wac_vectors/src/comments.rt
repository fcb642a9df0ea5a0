//! Tests of `wac_comments`: the comments of texts, and what documents are tidied to, where a request for memory fails too:
//! each test then asks once more.

mod listed;
mod tidied;
