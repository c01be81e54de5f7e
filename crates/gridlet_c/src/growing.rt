//! A sink in memory that grows.
use gl_port::{Failed, Sink};
use std::alloc::Global;

/// It takes all bytes. A write fails only where no memory is left.
#[derive(Drop)]
pub struct Growing {
    taken: Vec<u8>,
    faults: u64,
}

impl Growing {
    ghost use Rattle.std.specs.Prelude.{◌≡◌, [], take, length};

    /// Nothing is taken yet.
    pub fn new(alloc: Global) -> Growing
        ensures nothing_taken { result.taken.items ≡ [] }
        ensures faults { result.faults ≡ 0 }
    {
        Growing {
            taken: Vec::new(alloc),
            faults: 0,
        }
    }

    /// All bytes that were taken, in order.
    pub fn taken(&self) -> &[u8]
        ensures { result.now ≡ self.now.taken.items }
    {
        &self.taken
    }

    /// How many bytes were taken.
    pub fn len(&self) -> usize
        ensures { result ≡ length self.now.taken.items }
    {
        self.taken.len()
    }

    /// Lets go of all bytes but so many first ones.
    pub fn truncate(&mut self, count: usize)
        ensures { self.new.taken.items ≡ take count self.old.taken.items }
    {
        self.taken.truncate(count);
    }

    /// Lets go of all bytes.
    pub fn clear(&mut self)
        ensures { self.new.taken.items ≡ [] }
    {
        self.taken.clear();
    }
}

impl Sink for Growing {
    ghost use Rattle.std.specs.Prelude.{⊤, Some, None};

    ghost taken = { λ s. Some s.taken.items };

    ghost faults = { λ s. s.faults };

    ghost is_exact = { λ _. ⊤ };

    ghost plan = { λ _. None };

    ghost takes = { λ _ _. ⊥ };

    fn write(&mut self, bytes: &[u8]) -> Result<usize, Failed> {
        let Ok(()) = self.taken.extend_from_slice(bytes) else {
            self.faults = self.faults.saturating_add(1);
            return Err(Failed);
        };
        Ok(bytes.len())
    }
}
