//! The forecast of a sheet: whether its calculation surely settles, told from its formulas.
#![tactic(auto)]

mod areas;
mod bindings;
mod boxes;
mod columns;
mod contents;
mod extents;
mod forecast;
mod forecasting;
mod grid;
mod levels;
mod making;
mod network;
mod places;
mod reading;
mod rivals;
mod searching;
mod shaping;
mod sheets;
mod steps;
mod unknowns;

pub use forecast::Forecast;
pub use forecasting::flow;
