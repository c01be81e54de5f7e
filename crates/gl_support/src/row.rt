//! Notes whose keys are numbers.
ghost use Rattle.std.specs.Prelude.{◌≡◌, ◌<◌, ℕ, All, filter, not, vec_len};
ghost use Rattle.gl_support.specs.{Reach.is_marked, Rows.marked_or};

/// What a key gave, with the keys that it read and the places that it looked at. Keys are numbers.
#[derive(Drop)]
pub struct Row<O, A> {
    pub by: u32,
    pub outcome: O,
    pub reads: Vec<u32>,
    pub looked: Vec<A>,
}

/// Whether the number is marked. None is marked past the end of the marks.
pub fn is_marked(marks: &[bool], k: u32) -> bool
    ensures { result ≡ is_marked marks.now k }
{
    match marks.get(k as usize) {
        Some(mark) => *mark,
        None => false,
    }
}

/// Marks the numbers.
pub fn mark_all(marks: &mut Vec<bool>, numbers: &[u32])
    requires { All (λ k. k < vec_len marks.old) numbers.now }
    ensures marks { (k : ℕ)
        → is_marked marks.new.items k ≡ marked_or marks.old.items numbers.now k }
    ensures size { vec_len marks.new ≡ vec_len marks.old }
{
    for k in numbers {
        marks[*k as usize] = true;
    }
}

/// Drops the rows whose numbers are marked.
pub fn keep_unmarked<O: Drop, A: Drop>(rows: &mut Vec<Row<O, A>>, gone: &[bool])
    ensures { rows.new.items ≡ filter (λ r. not (is_marked gone.now r.by)) rows.old.items }
{
    rows.retain(|row| !is_marked(gone, row.by));
}
