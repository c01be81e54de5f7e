//! Tests of evaluations, one by one and in runs that demand keys in any order.
#![tactic(auto)]

#[cfg(test)]
mod tests;
