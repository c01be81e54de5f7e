//! Scripts: a stream of bytes as lines and payloads, and lines as requests.
#![tactic(auto)]

mod content;
mod feed;
mod framer;
mod header;
mod imports;
pub mod laws;
mod numbers;
mod place;
mod requests;
mod words;

pub use feed::{Event, Feed, MAX_LINE};
pub use framer::{Ended, Framer};
pub use header::{MAX_PAYLOAD, is_quit, payload_due};
pub use imports::header_place;
pub use requests::{CommandFault, MAX_VIEW, Request, command};
