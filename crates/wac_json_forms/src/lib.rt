//! The JSON form of each node of a tree, as definitions: which value a tree's JSON is.
//!
//! `wac_json` makes the value and `wac_json_text` writes its text; both cite these forms. `docs/JSON.md` has them as text.
#![tactic(auto)]
