//! The search for circles and for the greatest height, over the formula cells in turn.
ghost use Rattle.std.specs.Prelude.{◌≡◌, ◌<◌, true, length, IfOk, OnOk, IfSome, IfNone};
ghost use Rattle.gl_graph.specs.Search.{is_shut};
ghost use Rattle.gl_graph.specs.declared.mark.Mark.TheVariants as known;
ghost use Rattle.gl_flow.specs.Searching.{SearchesIn, IsLow, IsCircled, IsForecastOf};
ghost use Rattle.gl_flow.specs.{Plans.plan, View.forecast_tree};

use crate::forecast::Forecast;
use crate::network::Network;
use gl_graph::{Mark, Search};
use gl_plane::NoMemory;
use std::alloc::Global;

/// The height of a node of which all is known; none of one in a circle.
fn height_in(mark: Mark) -> Option<u32>
    requires { is_shut mark ≡ true }
    ensures some { IfSome result (λ h. mark ≡ known.Plain h) }
    ensures none { IfNone result (mark ≡ known.Circle) }
{
    match mark {
        Mark::New | Mark::Open(_) => unreachable!(),
        Mark::Plain(height) => Some(height),
        Mark::Circle => None,
    }
}

/// The height of a formula cell; none where a node of it is in a circle.
fn height_of(search: &mut Search, net: &Network, k: usize) -> Result<Option<u32>, NoMemory>
    requires inside { k < length net.now.places.items }
    requires knows { SearchesIn net.now search.old }
    ensures knows { OnOk result (SearchesIn net.now search.new) }
    ensures some { IfOk result (λ o. IfSome o (λ h. IsLow (plan net.now) k h)) }
    ensures none { IfOk result (λ o. IfNone o (IsCircled (plan net.now) k)) }
{
    let top = net.top(k);
    search.visit(net, top)?;
    match height_in(search.mark(2 * k as u32)) {
        Some(_) => Ok(height_in(search.mark(top))),
        None => Ok(None),
    }
}

/// The first formula cell in a circle, or the greatest height.
pub fn searched(alloc: Global, net: &Network) -> Result<Forecast, NoMemory>
    ensures { IfOk result (λ x. IsForecastOf (plan net.now) (forecast_tree x)) }
{
    let mut search = Search::new(alloc, net)?;
    let mut height = 0u32;
    for k in 0..net.places.len() {
        match height_of(&mut search, net, k)? {
            Some(h) => height = height.max(h),
            None => return Ok(Forecast::Circle(net.places[k])),
        }
    }
    Ok(Forecast::Yes { height })
}
