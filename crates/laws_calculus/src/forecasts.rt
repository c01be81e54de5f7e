//! What the forecast of a sheet tells.
ghost use Rattle.laws_calculus.specs.Forecast.{SomeForecast, OneForecast, YesSettles};

/// A sheet has exactly one forecast; where it is yes, the calculation settles and no cell is a
/// cycle.
pub fn forecast_laws()
    ensures some { SomeForecast }
    ensures one { OneForecast }
    ensures settles { YesSettles }
{}
