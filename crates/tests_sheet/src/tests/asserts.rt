//! Comparisons that several tests make.
use std::process::Abort;

pub fn assert_text(rt: &impl Abort, found: &str, want: &str) {
    assert_eq!(rt; found, want);
}

pub fn assert_count(rt: &impl Abort, found: usize, want: usize) {
    assert_eq!(rt; found, want);
}
