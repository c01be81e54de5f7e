//! The words with which the program is called.
ghost use Rattle.std.specs.Prelude.{◌≡◌, ◌≤◌, ◌==◌, ◌&&◌, ◌||◌, nat_lt, nat_le, slice_index, Some};
ghost use Rattle.std.specs.Prelude.{None, IfSome, option_map, if◌then◌else◌};
ghost use Rattle.gl_calculus.specs.Grid.Limits.{max_generated};
ghost use Rattle.std.specs.Option.{option_and_then, option_or};
ghost use Rattle.gl_protocol.specs.Run.Words.{kind_of, size_of, order_pair, gen_pair, plain_call};
ghost use Rattle.gl_run.specs.{CallView.call_tree, CallView.IsPossible};
ghost use Rattle.gl_protocol.specs.Run.Call.{words_call};

/// The most rows of the generated script.
pub const MAX_GENERATED: u32 = 1600;

/// What the words ask for.
#[derive(Clone, Copy, PartialEq, Eq)]
pub struct Call {
    /// The kind of the pick rule, at most 2.
    pub kind: u8,
    /// The rows of the generated script that takes the place of the input, if one does: from 1 to
    /// `MAX_GENERATED`.
    pub size: Option<u32>,
}

// Without a word.
const PLAIN: Call = Call {
    kind: 0,
    size: None,
};

// The kind that a word names.
fn kind_of(word: &str) -> Option<u8>
    ensures kind { result ≡ kind_of word.now }
    ensures few { IfSome result (λ kind. kind ≤ 2) }
{
    match word {
        "first" => Some(0),
        "last" => Some(1),
        "turn" => Some(2),
        _ => None,
    }
}

// The number, where a script of so many rows is generated.
fn in_limits(n: u32) -> Option<u32>
    ensures value { result ≡ (if nat_lt 0 n && nat_le n max_generated then Some n else None) }
    ensures some { IfSome result (λ n. 1 ≤ n) }
    ensures few { IfSome result (λ n. n ≤ max_generated) }
{
    if 1 <= n && n <= MAX_GENERATED {
        Some(n)
    } else {
        None
    }
}

// Whether a zero or a sign stands at the front.
fn is_led(word: &[u8]) -> bool
    ensures { result ≡ (slice_index word.now 0 == 48 || slice_index word.now 0 == 43) }
{
    match word {
        [] => false,
        [first, ..] => *first == b'0' || *first == b'+',
    }
}

// The number of rows that a word writes, with no zero and no sign at its front.
fn size_of(word: &str) -> Option<u32>
    ensures size { result ≡ size_of word.now }
    ensures some { IfSome result (λ n. 1 ≤ n) }
    ensures few { IfSome result (λ n. n ≤ max_generated) }
{
    if is_led(word.as_bytes()) {
        return None;
    }
    match word.parse::<u32>() {
        Ok(n) => in_limits(n),
        Err(_) => None,
    }
}

// `--order` and the word of a kind, with what the words before ask.
fn order_pair(word: &str, value: &str, call: Call) -> Option<Call>
    requires { IsPossible call }
    ensures call { option_map call_tree result ≡ order_pair word.now value.now (call_tree call) }
    ensures possible { IfSome result IsPossible }
{
    if word != "--order" {
        return None;
    }
    match kind_of(value) {
        Some(kind) => Some(Call {
            kind,
            size: call.size,
        }),
        None => None,
    }
}

// `--gen` and a number of rows, with what the words before ask.
fn gen_pair(word: &str, value: &str, call: Call) -> Option<Call>
    requires { IsPossible call }
    ensures call { option_map call_tree result ≡ gen_pair word.now value.now (call_tree call) }
    ensures possible { IfSome result IsPossible }
{
    if word != "--gen" {
        return None;
    }
    match size_of(value) {
        Some(size) => Some(Call {
            kind: call.kind,
            size: Some(size),
        }),
        None => None,
    }
}

// `--order`, and then `--gen`.
fn order_then_gen(first: &str, kind: &str, second: &str, size: &str) -> Option<Call>
    ensures call { option_map call_tree result
        ≡ option_and_then (gen_pair second.now size.now)
        (order_pair first.now kind.now plain_call) }
    ensures possible { IfSome result IsPossible }
{
    match order_pair(first, kind, PLAIN) {
        Some(call) => gen_pair(second, size, call),
        None => None,
    }
}

// `--gen`, and then `--order`.
fn gen_then_order(first: &str, size: &str, second: &str, kind: &str) -> Option<Call>
    ensures call { option_map call_tree result
        ≡ option_and_then (order_pair second.now kind.now)
        (gen_pair first.now size.now plain_call) }
    ensures possible { IfSome result IsPossible }
{
    match gen_pair(first, size, PLAIN) {
        Some(call) => order_pair(second, kind, call),
        None => None,
    }
}

// One pair.
fn one_pair(word: &str, value: &str) -> Option<Call>
    ensures call { option_map call_tree result
        ≡ option_or (order_pair word.now value.now plain_call)
        (gen_pair word.now value.now plain_call) }
    ensures possible { IfSome result IsPossible }
{
    match order_pair(word, value, PLAIN) {
        Some(call) => Some(call),
        None => gen_pair(word, value, PLAIN),
    }
}

// Both pairs, in either order.
fn two_pairs(a: &str, b: &str, c: &str, d: &str) -> Option<Call>
    ensures call { option_map call_tree result ≡ option_or
        (option_and_then (gen_pair c.now d.now) (order_pair a.now b.now plain_call))
        (option_and_then (order_pair c.now d.now) (gen_pair a.now b.now plain_call)) }
    ensures possible { IfSome result IsPossible }
{
    match order_then_gen(a, b, c, d) {
        Some(call) => Some(call),
        None => gen_then_order(a, b, c, d),
    }
}

/// What the words ask for, where they have a form: none, `--order` with a kind, `--gen` with a number,
/// or both pairs in either order.
pub fn call_of(words: &[String]) -> Option<Call>
    ensures call { option_map call_tree result ≡ words_call words.now }
    ensures possible { IfSome result IsPossible }
{
    match words {
        [] => Some(PLAIN),
        [a, b] => one_pair(a, b),
        [a, b, c, d] => two_pairs(a, b, c, d),
        _ => None,
    }
}
