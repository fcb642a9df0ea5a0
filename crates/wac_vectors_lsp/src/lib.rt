//! Tests of the language server, of what its program can't show or no answer says: frames in pieces of each size, and
//! replies as texts; the offsets of places, the places of offsets, and texts after changes; folders, their files and URIs
//! over files in memory, while a call fails; and a session of each kind, message by message. Other rows of sessions are in
//! .ci/sessions/.
#![tactic(auto)]

#[cfg(test)]
mod changes;
#[cfg(test)]
mod devices;
#[cfg(test)]
mod folders;
#[cfg(test)]
mod frames;
#[cfg(test)]
mod kinds;
#[cfg(test)]
mod messages;
#[cfg(test)]
mod offsets;
#[cfg(test)]
mod places;
#[cfg(test)]
mod replies;
#[cfg(test)]
mod server;
#[cfg(test)]
mod sessions;
#[cfg(test)]
mod uris;
