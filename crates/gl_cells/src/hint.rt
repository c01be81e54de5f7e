//! Where the next of several things is likely to stand.
ghost use Rattle.std.specs.Prelude.{◌≡◌, ◌<◌, ◌≤◌, ◌+◌, ◌-◌, ◌^◌};

/// Where the next one is likely to stand, of those that are asked for one after another: as far behind
/// the last as that stood behind the one before. So the contents of a row or column that came in order
/// are found without a search, and the numbers of its formulas. No answer depends on a hint.
#[derive(Clone, Copy)]
pub struct Hint {
    last: usize,
    step: usize,
}

impl Hint {
    /// The first place of all.
    pub fn new() -> Hint
        ensures last { result.last ≡ 0 }
        ensures step { result.step ≡ 0 }
    {
        Hint { last: 0, step: 0 }
    }

    /// The place that is likely.
    pub fn place(self) -> usize
        ensures { self.last + self.step < 2 ^ 64 → result ≡ self.last + self.step }
    {
        self.last.wrapping_add(self.step)
    }

    /// It stood at this place.
    pub fn found(&mut self, place: usize)
        ensures last { self.new.last ≡ place }
        ensures step { self.old.last ≤ place → self.new.step ≡ place - self.old.last }
    {
        self.step = place.wrapping_sub(self.last);
        self.last = place;
    }
}
