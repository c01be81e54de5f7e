//! Whether the calculation surely settles.
ghost use Rattle.std.specs.Prelude.{◌≡◌, ◌++◌, IfOk, codes};
ghost use Rattle.std.specs.Fmt.{decimal};
ghost use Rattle.gl_protocol.specs.Replies.Explanations.{forecast_line};
ghost use Rattle.gl_protocol.specs.Replies.Tables.{line};
ghost use Rattle.gl_cells.specs.Sheet.{sheet};
ghost use Rattle.gl_flow.specs.View.{forecast_tree};
ghost use Rattle.gl_run.specs.Replies.{TellsForecast};

use crate::lines::address_line;
use gl_cells::Cells;
use gl_flow::{Forecast, flow};
use gl_plane::NoMemory;
use std::alloc::Global;

/// The reply that tells the forecast of a sheet, for which nothing is calculated.
pub(crate) fn forecast(alloc: Global, cells: &Cells) -> Result<Vec<u8>, NoMemory>
    ensures { IfOk result (λ reply. TellsForecast (sheet cells.now) reply.items) }
{
    match flow(alloc, cells) {
        Ok(forecast) => forecast_line(alloc, forecast),
        Err(NoMemory) => Err(NoMemory),
    }
}

fn forecast_line(alloc: Global, forecast: Forecast) -> Result<Vec<u8>, NoMemory>
    ensures { IfOk result (λ reply. reply.items ≡ forecast_line (forecast_tree forecast)) }
{
    match forecast {
        Forecast::Yes { height } => height_line(alloc, height),
        Forecast::Circle(a) => address_line(alloc, "circle ", a),
        Forecast::Unknown(a) => address_line(alloc, "unknown ", a),
    }
}

fn height_line(alloc: Global, height: u32) -> Result<Vec<u8>, NoMemory>
    ensures { IfOk result (λ reply. reply.items ≡ line (codes "yes " ++ decimal height)) }
{
    let text = format!(in alloc; "yes {height}\n")?;
    Ok(text.into_bytes())
}
