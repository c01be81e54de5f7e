//! Tests of the top call: whole scripts through `run`, over sources and sinks in memory.
#![tactic(auto)]

#[cfg(test)]
mod tests;
