//! Forecasts that are written as rows of tables.
use gl_cells::Cells;
use gl_flow::{Forecast, flow};
use std::alloc::Global;
use std::test::Fail;
use tests_common::address;

/// A forecast; its cell, if it tells one, is written as a text.
#[derive(Clone, Copy)]
pub enum Told {
    Yes(u32),
    Circle(&'static str),
    Unknown(&'static str),
}

fn forecast_of(told: Told) -> Result<Forecast, Fail> {
    match told {
        Told::Yes(height) => Ok(Forecast::Yes { height }),
        Told::Circle(name) => Ok(Forecast::Circle(address(name)?)),
        Told::Unknown(name) => Ok(Forecast::Unknown(address(name)?)),
    }
}

/// The forecast of the sheet is the one that is told.
pub fn is_told(alloc: Global, cells: &Cells, told: Told) -> Result<bool, Fail> {
    let forecast = flow(alloc, cells)?;
    Ok(forecast == forecast_of(told)?)
}
