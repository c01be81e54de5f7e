//! Which of the calls fail, by their numbers.
ghost use Rattle.std.specs.Prelude.{◌<◌};

/// The number of the next call from 0, the numbers of those that fail, and the most bytes of one.
#[derive(Drop)]
pub struct Calls {
    /// There is none behind the last that a list can name.
    next: Option<u64>,
    failing: Vec<u64>,
    step: usize,
    ghost moves: { 0 < step },
}

impl Calls {
    ghost use Rattle.std.specs.Prelude.{◌≡◌};
    ghost use Rattle.gl_protocol.specs.Run.Plans.{is_listed, behind};
    ghost use Rattle.gl_port.specs.CallsView.{plan_of};

    /// From number 0 on.
    pub fn new(step: usize, failing: Vec<u64>) -> Calls
        requires { 0 < step }
        ensures { plan_of result ≡ record { next = Some 0; failing = failing.items; step = step } }
    {
        Calls {
            next: Some(0),
            failing,
            step,
        }
    }

    /// The most bytes of one call.
    pub fn step(&self) -> usize
        ensures step { result ≡ self.now.step }
        ensures some { 0 < result }
    {
        self.step
    }

    /// Counts a call, and tells whether it is listed.
    pub fn count(&mut self) -> bool
        ensures listed { result ≡ is_listed (plan_of self.old) }
        ensures next { plan_of self.new ≡ behind (plan_of self.old) }
    {
        match self.next {
            None => false,
            Some(number) => {
                self.next = number.checked_add(1);
                self.failing.contains(&number)
            }
        }
    }
}
