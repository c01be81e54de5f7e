//! The rings of steps.
ghost use Rattle.std.specs.Prelude.{◌≡◌, ◌<◌, [], ◌∷◌, take, length, slice_get};
ghost use Rattle.std.specs.Prelude.{option_copied, IfOk};
ghost use Rattle.gl_calculus.specs.Edits.Limits.{max_steps};
ghost use Rattle.gl_undo.specs.Rings.{MovesFirst};

use circular_buffer::HeapCircularBuffer;
use std::alloc::{AllocError, Global};
use std::marker::Model;

/// The most steps that are kept.
pub const MAX_STEPS: usize = 256;

/// Steps that were done, and steps that were undone, each from the latest on.
#[derive(Drop)]
pub struct Rings<T> {
    done: HeapCircularBuffer<T>,
    undone: HeapCircularBuffer<T>,
}

impl<T> Model for Rings<T> {
    ghost use Rattle.std.specs.Prelude.{List};
    ghost use Rattle.std.specs.Coded.{coded×, coded_list};
    ghost use Rattle.gl_undo.specs.Rings.{AreRings};

    ghost Value = { List T × List T };

    ghost coded = { coded× (coded_list T.code) (coded_list T.code) };

    ghost view = { λ a. (a.done.items, a.undone.items) };

    ghost invariant = { λ a. AreRings a.done a.undone };
}

impl<T: Drop> Rings<T> {
    /// Nothing is done yet.
    pub fn new(alloc: Global) -> Result<Rings<T>, AllocError>
        ensures { IfOk result (λ h. (h.0 ≡ []) × (h.1 ≡ [])) }
    {
        let done = HeapCircularBuffer::with_capacity(alloc, MAX_STEPS)?;
        let undone = HeapCircularBuffer::with_capacity(alloc, MAX_STEPS)?;
        Ok(Rings { done, undone })
    }

    /// Forgets all steps. It takes no memory.
    pub fn clear(&mut self)
        ensures { (self.new.0 ≡ []) × (self.new.1 ≡ []) }
    {
        self.done.clear();
        self.undone.clear();
    }

    /// A step is done: it stands first, and the last of too many goes; nothing can be redone. It
    /// takes no memory.
    pub fn push(&mut self, step: T)
        ensures done { self.new.0 ≡ take max_steps (step ∷ self.old.0) }
        ensures undone { self.new.1 ≡ [] }
    {
        self.undone.clear(); // what was undone is no longer ahead
        self.done.push_front(step);
    }

    /// The latest step that was done.
    pub fn done(&self) -> Option<&T>
        ensures { option_copied result ≡ slice_get self.now.0 0 }
    {
        self.done.front()
    }

    /// The latest step that was undone.
    pub fn undone(&self) -> Option<&T>
        ensures { option_copied result ≡ slice_get self.now.1 0 }
    {
        self.undone.front()
    }

    /// The latest step is undone. It takes no memory.
    pub fn move_back(&mut self)
        requires { 0 < length self.old.0 }
        ensures { MovesFirst self.old.0 self.old.1 self.new.0 self.new.1 }
    {
        move_first(&mut self.done, &mut self.undone);
    }

    /// The latest undone step is done again. It takes no memory.
    pub fn move_forward(&mut self)
        requires { 0 < length self.old.1 }
        ensures { MovesFirst self.old.1 self.old.0 self.new.1 self.new.0 }
    {
        move_first(&mut self.undone, &mut self.done);
    }
}

// Moves the first item of a buffer to the front of another one that has room.
fn move_first<T: Drop>(from: &mut HeapCircularBuffer<T>, to: &mut HeapCircularBuffer<T>)
    requires some { 0 < length from.old.items }
    requires room { length to.old.items < to.old.capacity }
    ensures moved { MovesFirst from.old.items to.old.items from.new.items to.new.items }
    ensures from { from.new.capacity ≡ from.old.capacity }
    ensures to { to.new.capacity ≡ to.old.capacity }
{
    let Some(s) = from.pop_front() else {
        return;
    };
    to.push_front(s);
}
