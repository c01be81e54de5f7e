//! The reader of formulas.
#![tactic(auto)]

mod applied;
mod arity;
mod build;
mod depth;
mod fault;
mod functions;
mod grammar;
mod names;
mod peek;
mod raw;
mod reader;
mod stop;
mod walk;
mod whole;

pub use fault::ParseFault;
pub use reader::parse;
