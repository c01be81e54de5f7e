//! Tests of the sheet: of its cells, imports and scripts, of the texts of what is shown, of
//! replicas and of steps that are undone and done again, and of its forecast.
#![tactic(auto)]

#[cfg(test)]
mod tests;
