//! Whether a value is sound.
ghost use Rattle.std.specs.Prelude.{◌≡◌, ◌==◌, IsTrue};
ghost use Rattle.std.specs.Rc.{rc_str_bytes};
ghost use Rattle.gl_calculus.specs.Evaluation.Sound.{is_sound_scalar, are_sound, is_sound_value};
ghost use Rattle.gl_calculus.specs.Evaluation.Sound.{are_sound_overrides, is_sound_sheet};
ghost use Rattle.gl_calculus.specs.Evaluation.Sound.{is_sound_frame};
ghost use Rattle.gl_calculus.specs.Evaluation.Sound.{overrides_rank, are_inside};
ghost use Rattle.gl_calculus.specs.Values.Sheet.{overrides_weight};
ghost use Rattle.gl_calculus.specs.Values.Value as V;
ghost use Rattle.gl_value.specs.View.{value_tree, array_tree, frame_tree, sheet_tree, scalar_tree};
ghost use Rattle.gl_value.specs.View.{override_trees, item_trees};
ghost use Rattle.gl_value.specs.Parts.{is_after};

use crate::{Array, Env, MAX_RANK, MAX_TEXT, MAX_WEIGHT, Scalar, SheetVal, Value};
use gl_plane::{Addr, Range};
use std::rc::RcStr;

type Override = (Addr, Value);

/// The text is within the limit. It is UTF-8 in any case.
#[tactic(auto, using(crate::specs::Sound::text_sound))]
fn is_short(text: &RcStr) -> bool
    ensures { result ≡ is_sound_scalar (V.Scalar.Text (rc_str_bytes text.now)) }
{
    text.as_bytes().len() <= MAX_TEXT
}

impl Scalar {
    /// A text is within the limit, and a sheet value is sound.
    #[cycle(sound)]
    #[tactic(auto, using(crate::specs::Forms::trees))]
    pub fn is_sound(&self) -> bool
        ensures { result ≡ is_sound_scalar (scalar_tree self.now) }
    {
        match self {
            Scalar::Text(t) => is_short(t),
            Scalar::Sheet(s) => s.is_sound(),
            _ => true,
        }
    }
}

/// Every item is sound.
#[cycle(sound)]
fn items_sound(items: &[Scalar]) -> bool
    ensures { result ≡ are_sound (item_trees items.now) }
{
    for x in items {
        if !x.is_sound() {
            return false;
        }
    }
    true
}

impl Array {
    /// As many items as cells, each of them sound.
    #[cycle(sound)]
    #[tactic(auto, using(crate::specs::Sound::array_sound))]
    pub fn is_sound(&self) -> bool
        ensures { result ≡ is_sound_value (array_tree self.now) }
    {
        let cells = usize::from(self.size.rows()) * usize::from(self.size.cols());
        self.items.len() == cells && items_sound(&self.items)
    }
}

impl Value {
    /// The scalar or the array is sound.
    #[cycle(sound)]
    #[tactic(auto, using(crate::specs::Forms::trees))]
    pub fn is_sound(&self) -> bool
        ensures { result ≡ is_sound_value (value_tree self.now) }
    {
        match self {
            Value::One(x) => x.is_sound(),
            Value::Array(a) => a.is_sound(),
        }
    }
}

/// Every override's value is sound.
#[cycle(sound)]
fn overrides_sound(overrides: &[Override]) -> bool
    ensures { result ≡ are_sound_overrides (override_trees overrides.now) }
{
    for (_, x) in overrides {
        if !x.is_sound() {
            return false;
        }
    }
    true
}

impl SheetVal {
    /// Overrides in order inside the region, a rank above those of the frame and of the overrides,
    /// a weight as the parts have it, and each part sound.
    #[cycle(sound)]
    pub fn is_sound(&self) -> bool
        ensures { result ≡ is_sound_sheet (sheet_tree self.now) }
    {
        if !overrides_sound(&self.overrides) {
            return false;
        }
        if !self.env.is_sound() {
            return false;
        }
        self.fits()
    }
}

impl Env {
    /// The frame's sheet value is sound.
    #[cycle(sound)]
    #[tactic(auto, using(crate::specs::Forms::trees))]
    pub fn is_sound(&self) -> bool
        ensures { result ≡ is_sound_frame (frame_tree self.now) }
    {
        match self {
            Env::Top => true,
            Env::In(s, _) => s.is_sound(),
        }
    }
}

/// The address comes after another, if there is one.
fn comes_after(last: Option<Addr>, a: Addr) -> bool
    ensures { result ≡ is_after last a }
{
    match last {
        None => true,
        Some(b) => b.is_before(a),
    }
}

/// The addresses lie in the region and increase in row-major order.
#[tactic(auto, using(crate::specs::Sound::inside_from))]
fn inside(region: &Range, overrides: &[Override]) -> bool
    ensures { result ≡ are_inside region.now (override_trees overrides.now) }
{
    let mut last: Option<Addr> = None;
    for (a, _) in overrides {
        if !region.covers(*a) {
            return false;
        }
        if !comes_after(last, *a) {
            return false;
        }
        last = Some(*a);
    }
    true
}

/// One above the greatest rank in the overrides' values, or 0.
fn greatest_rank(overrides: &[Override]) -> u8
    requires { IsTrue (are_sound_overrides (override_trees overrides.now)) }
    ensures { result ≡ overrides_rank (override_trees overrides.now) }
{
    let mut most: u8 = 0;
    for (_, x) in overrides {
        most = most.max(x.rank_above());
    }
    most
}

/// The overrides' values weigh this much together. The sum itself may be too large to write down.
fn weigh(overrides: &[Override], weight: u64) -> bool
    requires { IsTrue (are_sound_overrides (override_trees overrides.now)) }
    ensures { result ≡ (overrides_weight (override_trees overrides.now) == weight) }
{
    let mut left = weight;
    for (_, x) in overrides {
        let w = u64::from(x.weight());
        if w > left {
            return false;
        }
        left -= w;
    }
    left == 0
}

impl SheetVal {
    /// The test of soundness, where the parts are known to be sound.
    fn fits(&self) -> bool
        requires overrides { IsTrue
            (are_sound_overrides (override_trees self.now.overrides.items)) }
        requires frame { IsTrue (is_sound_frame (frame_tree self.now.env)) }
        ensures { result ≡ is_sound_sheet (sheet_tree self.now) }
    {
        if !inside(&self.region, &self.overrides) {
            return false;
        }
        if self.rank > MAX_RANK
            || self.env.rank() >= self.rank
            || greatest_rank(&self.overrides) > self.rank
        {
            return false;
        }
        let parent = self.env.weight() + 1;
        let weight = u64::from(self.weight);
        weight <= u64::from(MAX_WEIGHT)
            && parent <= weight
            && weigh(&self.overrides, weight - parent)
    }
}
