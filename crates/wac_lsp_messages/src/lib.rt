//! The messages of a language server: how they are framed, which requests and notifications there are, and replies.
//!
//! ```text
//! let mut receiver = Receiver::new(alloc);
//! while let Some(Received::Body(body)) = receiver.receive(alloc, &mut input)? {
//!     match read_message(alloc, &body)? {
//!         Message::Request { id, call } => send(alloc, &mut output, &reply(alloc, &id, &Value::Null)?)?,
//!         _ => {}
//!     }
//! }
//! ```
#![tactic(auto)]

mod call;
mod features;
mod fields;
mod frame;
mod header;
mod id;
mod markup;
mod message;
mod navigation;
mod notice;
mod question;
mod receiving;
mod refusal;
mod replies;
mod surrogates;

pub use call::{Call, Initialize};
pub use features::Features;
pub use frame::{Frame, frame_in};
pub use header::HeaderError;
pub use id::Id;
pub use markup::Markup;
pub use message::{Message, read_message};
pub use notice::{Change, Notice, Range};
pub use question::{FormattingOptions, Question};
pub use receiving::{ReceiveError, Received, Receiver, send};
pub use refusal::{Code, Refusal};
pub use replies::{notification, refused, reply};
