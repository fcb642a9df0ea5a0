//! The folders that a client has open, and paths of files as URIs.
//!
//! ```text
//! let folders = client_folders(alloc, body)?;                         // of the message `initialize`: "/home/me/shop", ..
//! let added = folder_paths(alloc, uris)?;                              // of `file:///home/me/shop/`: "/home/me/shop"
//! let path = path_of_uri(alloc, "file:///home/me/caf%C3%A9.wac")?;    // "/home/me/café.wac"
//! let uri = uri_of_path(alloc, "/home/me/café.wac")?;                 // "file:///home/me/caf%C3%A9.wac"
//! ```
#![tactic(auto)]

mod initialize;
mod uris;

pub use initialize::{client_folders, folder_paths};
pub use uris::{path_of_uri, uri_of_path};
