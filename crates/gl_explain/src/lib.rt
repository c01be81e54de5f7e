//! Certificates of what addresses show, found by a walk from the key that decides.
#![tactic(auto)]

mod ending;
mod explained;
mod explaining;
mod reading;
mod turning;
mod walking;

pub use explained::Explained;
pub use explaining::certificate;
