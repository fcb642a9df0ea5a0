//! What a document declares and what of it can be folded, by its tokens alone, so that a text with faults has both too.
//!
//! ```text
//! let text = "interface i {\n  f: func();\n}\n";
//! let symbols = outline(alloc, text)?;      // `i`, and in it `f`, whose detail is `func()`
//! let folds = folds(alloc, &pieces)?;       // from after the one brace to the other
//! ```
#![tactic(auto)]

mod detail;
mod folding;
mod item;
mod symbol;
mod walk;
mod within;

pub use detail::in_one_line;
pub use folding::{Fold, folds};
pub use symbol::{Kind, Symbol};
pub use walk::outline;
