//! Certificates of what addresses show, and the check of one against a sheet and an oracle. Nothing
//! here knows how a certificate was found.
#![tactic(auto)]

mod cert;
mod checking;
mod loops;
mod making;
mod notes;
mod noting;
mod root;
mod saying;
mod stepping;
mod straying;
mod verdict;

pub use cert::Cert;
pub use checking::check;
pub use loops::is_among;
pub use notes::Notes;
pub use root::key_at;
pub use saying::says;
pub use verdict::Verdict;
