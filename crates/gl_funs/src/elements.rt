//! The elements of several values.
ghost use Rattle.std.specs.Prelude.{◌≡◌, IsTrue, map};
ghost use Rattle.gl_calculus.specs.Values.Value.{elements};
ghost use Rattle.gl_calculus.specs.Evaluation.Sound.{is_sound_value};
ghost use Rattle.gl_value.specs.View.{scalar_tree, value_tree};
ghost use Rattle.gl_funs.specs.Elements.{AreSound, elements_of, elements_left};

use gl_value::{Scalar, Value};
use std::slice;

/// The elements of values in their order, those of an array in row-major order.
#[derive(Drop)]
pub struct Elements<'a> {
    /// What is left of the value that is gone through.
    items: &'a [Scalar],
    /// The values behind it.
    values: &'a [Value],
    ghost sound: { AreSound values.now },
}

impl<'a> Elements<'a> {
    /// All elements of these values.
    pub fn new(values: &'a [Value]) -> Elements<'a>
        requires { AreSound values.now }
        ensures { elements_left result.items.now result.values.now ≡ elements_of values.now }
    {
        Elements { items: &[], values }
    }
}

impl<'a> Iterator for Elements<'a> {
    ghost use Rattle.std.specs.Iterator.{YieldsFirstBy, item_count};
    ghost use Rattle.gl_value.specs.View.{scalar_tree};
    ghost use Rattle.gl_funs.specs.Elements.{elements_left};

    type Item = &'a Scalar;

    ghost next_gives = { YieldsFirstBy (λ x. scalar_tree x.now) (λ s.
        elements_left s.items.now s.values.now) };

    ghost remaining = { item_count (λ s. elements_left s.items.now s.values.now) };

    fn next(&mut self) -> Option<&'a Scalar> {
        loop {
            if let Some((x, rest)) = self.items.split_first() {
                self.items = rest;
                return Some(x);
            }
            match self.values.split_first() {
                Some((v, rest)) => {
                    self.items = items_of(v);
                    self.values = rest;
                }
                None => return None,
            }
        }
    }
}

/// The elements of a value, those of an array in row-major order.
fn items_of(v: &Value) -> &[Scalar]
    requires { IsTrue (is_sound_value (value_tree v.now)) }
    ensures { map scalar_tree result.now ≡ elements (value_tree v.now) }
{
    match v {
        Value::One(x) => slice::from_ref(x),
        Value::Array(a) => a.items(),
    }
}
