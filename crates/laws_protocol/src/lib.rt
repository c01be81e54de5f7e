//! The laws of framing and of replies: an item has one effect and one reply, a refused item leaves the state, and each item leaves a state whose sheet is in order, of proper contents, within the limits, whose steps can be undone and done again, whose replica holds its sheet, and whose list gives its sheet again. Each is the contract of a function that does nothing.
#![tactic(auto)]

pub mod framing;
pub mod replies;
