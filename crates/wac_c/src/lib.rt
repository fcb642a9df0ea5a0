//! The words of `wac` and `wacx` for callers in other languages, by C's conventions. include/wac.h declares what is
//! exported.
#![tactic(auto)]

mod answer;
mod run;

pub use answer::WacAnswer;
