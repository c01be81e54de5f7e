//! Ranks, weights, and what SHEET and UPDATE make.
ghost use Rattle.std.specs.Prelude.{◌≡◌, ◌≤◌, ◌<◌, ◌^◌, ◌+◌, ◌∷◌, [], IsTrue, IfOk, length};
ghost use Rattle.std.specs.Prelude.{option_map};
ghost use Rattle.std.specs.Option.{option_copied};
ghost use Rattle.gl_calculus.specs.Grid.Limits.{max_rank, max_weight, max_cells};
ghost use Rattle.gl_calculus.specs.Values.Value.{overrides, rank, sheet_value};
ghost use Rattle.gl_calculus.specs.Values.Sheet.{override_at, frame_rank, rank_above};
ghost use Rattle.gl_calculus.specs.Values.Sheet.{scalar_weight};
ghost use Rattle.gl_calculus.specs.Values.Sheet.{scalars_weight, value_weight, weight};
ghost use Rattle.gl_calculus.specs.Values.Sheet.{frame_weight};
ghost use Rattle.gl_calculus.specs.Values.Sheet.{sheet, update};
ghost use Rattle.gl_calculus.specs.Evaluation.Sound.{is_sound_scalar, are_sound, is_sound_value};
ghost use Rattle.gl_calculus.specs.Evaluation.Sound.{is_sound_sheet, is_sound_frame};
ghost use Rattle.gl_calculus.specs.Values.Value as V;
ghost use Rattle.gl_calculus.specs.Values.Sheet as S;
ghost use Rattle.gl_value.specs.View.{value_tree, array_tree, frame_tree, sheet_tree, scalar_tree};
ghost use Rattle.gl_value.specs.View.{override_trees, item_trees};
ghost use Rattle.gl_value.specs.Parts.{value_rank, weight_at, is_sound_made};
ghost use Rattle.gl_value.specs.Made.{made_tree};

use crate::put::put;
use crate::{Array, Env, MAX_RANK, MAX_WEIGHT, Made, Scalar, SheetVal, Value};
use gl_plane::{Addr, NoMemory, Range, Share};
use std::alloc::Global;
use std::rc::Rc;

impl Env {
    /// The rank of the frame: 0 at the top, else that of its sheet value.
    #[tactic(auto, using(crate::specs::Forms::trees))]
    pub fn rank(&self) -> u8
        requires { IsTrue (is_sound_frame (frame_tree self.now)) }
        ensures value { result ≡ frame_rank (frame_tree self.now) }
        ensures most { result ≤ max_rank }
    {
        match self {
            Env::Top => 0,
            Env::In(sheet, _) => sheet.sound_rank(),
        }
    }
}

impl SheetVal {
    /// The value of the override at an address, if there is one.
    #[tactic(auto, using(crate::specs::Forms::sheet_tree_is))]
    pub fn get_override(&self, a: Addr) -> Option<&Value>
        requires { IsTrue (is_sound_sheet (sheet_tree self.now)) }
        ensures { option_map value_tree (option_copied result)
            ≡ override_at (overrides (sheet_tree self.now)) a }
    {
        match self.overrides.binary_search_by_key(&a, |o| o.0) {
            Ok(i) => Some(&self.overrides[i].1),
            Err(_) => None,
        }
    }
}

impl SheetVal {
    /// The rank, which a sound sheet value keeps within the limit.
    #[tactic(auto, using(crate::specs::Sound::sheets))]
    fn sound_rank(&self) -> u8
        requires { IsTrue (is_sound_sheet (sheet_tree self.now)) }
        ensures value { result ≡ rank (sheet_tree self.now) }
        ensures most { result ≤ max_rank }
    {
        self.rank
    }

    /// One more than the rank.
    #[tactic(auto, using(crate::specs::Sound::sheets))]
    fn rank_above(&self) -> u8
        requires { IsTrue (is_sound_sheet (sheet_tree self.now)) }
        ensures value { result ≡ rank (sheet_tree self.now) + 1 }
        ensures most { result ≤ 97 }
    {
        self.rank + 1
    }

    /// The weight, which a sound sheet value keeps in its field.
    #[tactic(auto, using(crate::specs::Sound::sheets))]
    fn weight(&self) -> u32
        requires { IsTrue (is_sound_sheet (sheet_tree self.now)) }
        ensures value { result ≡ weight (sheet_tree self.now) }
        ensures most { result ≤ max_weight }
    {
        self.weight
    }
}

impl Scalar {
    /// One more than the rank of the sheet value, and 0 where the scalar is none.
    #[tactic(auto, using(crate::specs::Forms::trees))]
    fn rank_above(&self) -> u8
        requires { IsTrue (is_sound_scalar (scalar_tree self.now)) }
        ensures value { result ≡ rank_above (scalar_tree self.now ∷ []) }
        ensures most { result ≤ 97 }
    {
        match self {
            Scalar::Sheet(sheet) => sheet.rank_above(),
            _ => 0,
        }
    }

    /// The scalar's weight.
    #[tactic(auto, using(crate::specs::Forms::trees))]
    fn weight(&self) -> u32
        requires { IsTrue (is_sound_scalar (scalar_tree self.now)) }
        ensures value { result ≡ scalar_weight (scalar_tree self.now) }
        ensures most { result ≤ max_weight }
    {
        match self {
            Scalar::Sheet(sheet) => sheet.weight(),
            _ => 1,
        }
    }
}

/// The sum of the items' weights.
fn items_weight(items: &[Scalar]) -> u32
    requires sound { IsTrue (are_sound (item_trees items.now)) }
    requires few { length items.now ≤ max_cells }
    ensures value { result ≡ scalars_weight (item_trees items.now) }
    ensures most { result ≤ 655360000 }
{
    let mut total = 0;
    for x in items {
        total += x.weight();
    }
    total
}

/// The greatest of the items' ranks above.
fn items_rank(items: &[Scalar]) -> u8
    requires { IsTrue (are_sound (item_trees items.now)) }
    ensures value { result ≡ rank_above (V.items (item_trees items.now)) }
    ensures most { result ≤ 97 }
{
    let mut most: u8 = 0;
    for x in items {
        most = most.max(x.rank_above());
    }
    most
}

impl Array {
    /// The sum of the weights of the array's items.
    #[tactic(auto, using(crate::specs::Sound::arrays))]
    fn weight(&self) -> u32
        requires { IsTrue (is_sound_value (array_tree self.now)) }
        ensures value { result ≡ value_weight (array_tree self.now) }
        ensures most { result ≤ 655360000 }
    {
        let _rows = self.size.rows();
        items_weight(&self.items)
    }

    /// The greatest of the items' ranks above.
    #[tactic(auto, using(crate::specs::Sound::arrays))]
    fn rank_above(&self) -> u8
        requires { IsTrue (is_sound_value (array_tree self.now)) }
        ensures value { result ≡ value_rank (array_tree self.now) }
        ensures most { result ≤ 97 }
    {
        items_rank(&self.items)
    }
}

impl Value {
    /// The greatest of one more than the ranks of the sheet values in it, and 0 where there is none.
    #[tactic(auto, using(crate::specs::Forms::trees))]
    pub(crate) fn rank_above(&self) -> u8
        requires { IsTrue (is_sound_value (value_tree self.now)) }
        ensures value { result ≡ value_rank (value_tree self.now) }
        ensures most { result ≤ 97 }
    {
        match self {
            Value::One(x) => x.rank_above(),
            Value::Array(a) => a.rank_above(),
        }
    }

    /// The sum of the weights of the value's scalars.
    #[tactic(auto, using(crate::specs::Forms::trees))]
    pub(crate) fn weight(&self) -> u32
        requires { IsTrue (is_sound_value (value_tree self.now)) }
        ensures value { result ≡ value_weight (value_tree self.now) }
        ensures most { result ≤ 655360000 }
    {
        match self {
            Value::One(x) => x.weight(),
            Value::Array(a) => a.weight(),
        }
    }
}

impl SheetVal {
    /// The weight of the override at the address, and 0 where there is none.
    fn weight_at(&self, a: Addr) -> u32
        requires { IsTrue (is_sound_sheet (sheet_tree self.now)) }
        ensures { result ≡ weight_at (override_trees self.now.overrides.items) a }
    {
        match self.get_override(a) {
            Some(v) => v.weight(),
            None => 0,
        }
    }
}

impl Env {
    /// The weight of the frame: that of its sheet value and one for each entry of its oracle.
    #[tactic(auto, using(crate::specs::Forms::trees))]
    pub(crate) fn weight(&self) -> u64
        requires { IsTrue (is_sound_frame (frame_tree self.now)) }
        ensures value { result ≡ frame_weight (frame_tree self.now) }
        ensures most { result ≤ 2 ^ 63 + 65536 }
    {
        match self {
            Env::Top => 0,
            Env::In(sheet, oracle) => u64::from(sheet.weight()) + oracle.len() as u64,
        }
    }
}

/// The sheet value of a region, made in a frame, with no overrides: never `Outside`.
pub fn sheet(alloc: Global, env: &Env, region: Range) -> Result<Made, NoMemory>
    requires { IsTrue (is_sound_frame (frame_tree env.now)) }
    ensures value { IfOk result (λ m. made_tree m ≡ sheet (frame_tree env.now) region) }
    ensures sound { IfOk result (λ m. IsTrue (is_sound_made (made_tree m))) }
{
    let rank = env.rank() + 1;
    if rank > MAX_RANK {
        return Ok(Made::Deep);
    }
    let weight = env.weight() + 1;
    if weight > u64::from(MAX_WEIGHT) {
        return Ok(Made::Heavy);
    }
    make(
        alloc,
        region,
        Vec::new(alloc),
        env.share()?,
        rank,
        weight as u32,
    )
}

/// The sheet value with this value at the address, in place of what it held there. The call is made
/// in the frame `env`; region and parent frame stay those of the sheet value.
pub fn update(alloc: Global, env: &Env, s: &SheetVal, a: Addr, v: Value) -> Result<Made, NoMemory>
    requires frame { IsTrue (is_sound_frame (frame_tree env.now)) }
    requires sheet { IsTrue (is_sound_sheet (sheet_tree s.now)) }
    requires value { IsTrue (is_sound_value (value_tree v)) }
    ensures value { IfOk result
        (λ m. made_tree m ≡ update (frame_tree env.now) (sheet_tree s.now) a (value_tree v)) }
    ensures sound { IfOk result (λ m. IsTrue (is_sound_made (made_tree m))) }
{
    if !s.region.covers(a) {
        return Ok(Made::Outside);
    }
    let rank = s.rank.max((env.rank() + 1).max(v.rank_above()));
    if rank > MAX_RANK {
        return Ok(Made::Deep);
    }
    let weight = s.weight + v.weight() - s.weight_at(a);
    if weight > MAX_WEIGHT {
        return Ok(Made::Heavy);
    }
    let overrides = put(alloc, s, a, v)?;
    make(alloc, s.region, overrides, s.env.share()?, rank, weight)
}

/// The sheet value of these parts.
#[tactic(auto, using(crate::specs::Forms::trees))]
fn make(
    alloc: Global,
    region: Range,
    overrides: Vec<(Addr, Value)>,
    env: Env,
    rank: u8,
    weight: u32,
) -> Result<Made, NoMemory>
    ensures { IfOk result (λ m.
        made_tree m
        ≡ S.Sheet
        (sheet_value region (override_trees overrides.items) (frame_tree env) rank weight)) }
{
    let sheet = SheetVal {
        rank,
        weight,
        region,
        overrides,
        env,
    };
    Ok(Made::Sheet(Rc::new(alloc, sheet)?))
}
