//! The starts of segments.
ghost use Rattle.std.specs.Prelude.{◌≡◌, nat_lt, nat_eq};
ghost use Rattle.gl_graph.specs.Search.{Rises, AreCut, passes, last_of};

/// Drops the starts behind the place.
pub fn cut(starts: &mut Vec<usize>, at: usize)
    requires { Rises starts.old.items }
    ensures { AreCut starts.old.items at starts.new.items }
{
    while is_behind(starts, at) {
        let _ = starts.pop();
    }
}

/// The last start lies behind the place.
fn is_behind(starts: &Vec<usize>, at: usize) -> bool
    ensures { result ≡ passes (λ s. nat_lt at s) (last_of starts.now.items) }
{
    match starts.last() {
        Some(start) => *start > at,
        None => false,
    }
}

/// The last start is this one.
pub fn is_last(starts: &Vec<usize>, at: usize) -> bool
    ensures { result ≡ passes (λ s. nat_eq s at) (last_of starts.now.items) }
{
    match starts.last() {
        Some(start) => *start == at,
        None => false,
    }
}
