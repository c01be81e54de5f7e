//! The text of an explanation.
ghost use Rattle.std.specs.Prelude.{◌≡◌, ◌++◌, codes, map, IfOk, OnOk};
ghost use Rattle.std.specs.{Fmt.decimal, String.string_bytes};
ghost use Rattle.gl_calculus.specs.Evaluation.Key as K;
ghost use Rattle.gl_language.specs.Texts.Text as text;
ghost use Rattle.gl_protocol.specs.Replies.Explanations.{key_text, outcome_text};
ghost use Rattle.gl_protocol.specs.Replies.Explanations.{note_line};
ghost use Rattle.gl_protocol.specs.Replies.Explanations.{loop_line, explanation_text};
ghost use Rattle.gl_protocol.specs.Replies.Tables.{line};
ghost use Rattle.gl_cert.specs.{Claims.claim_trees, View.cert_tree, View.verdict_tree};
ghost use Rattle.gl_demand.specs.View.{key_tree, outcome_tree};
ghost use Rattle.gl_value.specs.View.{frame_tree, scalar_tree, sheet_tree, value_tree};
ghost use Rattle.gl_value.specs.Made.{shown_tree};
ghost use Rattle.gl_run.specs.Replies.{note_lines, loop_lines, verdict_text};

use gl_ast::{put, put_address, put_number, put_range};
use gl_cert::{Cert, Verdict};
use gl_demand::{Key, Outcome};
use gl_plane::{Addr, NoMemory, Share, Size};
use gl_value::{Env, Scalar, SheetVal, Shown, Value};
use gl_views::shown_text;
use std::alloc::Global;

/// The lines of an explanation: how many notes and loops there are, a line for each, what is shown,
/// and the verdict.
pub(crate) fn explanation(alloc: Global, cert: &Cert, verdict: Verdict) -> Result<Vec<u8>, NoMemory>
    ensures { IfOk result (λ reply.
        reply.items ≡ explanation_text (verdict_text (verdict_tree verdict)) (cert_tree cert.now)) }
{
    let mut out = String::new(alloc);
    put_counts(alloc, &mut out, cert.notes.len(), cert.loops.len())?;
    put_notes(alloc, &mut out, &cert.notes)?;
    put_loops(alloc, &mut out, &cert.loops)?;
    put_shown(alloc, &mut out, &cert.shown)?;
    put_verdict(alloc, &mut out, verdict)?;
    Ok(out.into_bytes())
}

/// The line with the numbers of notes and loops.
fn put_counts(alloc: Global, out: &mut String, notes: usize, loops: usize) -> Result<(), NoMemory>
    ensures { OnOk result (string_bytes out.new ≡ string_bytes out.old
        ++ line (codes "explain " ++ decimal notes ++ codes " " ++ decimal loops)) }
{
    put(out, "explain ")?;
    put_number(alloc, out, notes)?;
    put(out, " ")?;
    put_number(alloc, out, loops)?;
    put(out, "\n")
}

// ---- notes and loops

/// The lines of notes.
fn put_notes(alloc: Global, out: &mut String, notes: &[(Key, Outcome)]) -> Result<(), NoMemory>
    ensures { OnOk result (
        string_bytes out.new ≡ string_bytes out.old ++ note_lines (claim_trees notes.now)) }
{
    for note in notes {
        let (key, outcome) = note;
        put_note(alloc, out, key, outcome)?;
    }
    Ok(())
}

/// The lines of loops.
fn put_loops(alloc: Global, out: &mut String, loops: &[Key]) -> Result<(), NoMemory>
    ensures { OnOk result (
        string_bytes out.new ≡ string_bytes out.old ++ loop_lines (map key_tree loops.now)) }
{
    for key in loops {
        put_loop(alloc, out, key)?;
    }
    Ok(())
}

fn put_note(alloc: Global, out: &mut String, key: &Key, outcome: &Outcome) -> Result<(), NoMemory>
    ensures { OnOk result (string_bytes out.new ≡ string_bytes out.old
        ++ note_line (key_tree key.now) (outcome_tree outcome.now)) }
{
    put_key(alloc, out, key)?;
    put(out, " ")?;
    put_outcome(alloc, out, outcome)?;
    put(out, "\n")
}

fn put_loop(alloc: Global, out: &mut String, key: &Key) -> Result<(), NoMemory>
    ensures { OnOk result (
        string_bytes out.new ≡ string_bytes out.old ++ loop_line (key_tree key.now)) }
{
    put_key(alloc, out, key)?;
    put(out, " #CYCLE!\n")
}

// ---- keys

fn put_key(alloc: Global, out: &mut String, key: &Key) -> Result<(), NoMemory>
    ensures { OnOk result (
        string_bytes out.new ≡ string_bytes out.old ++ key_text (key_tree key.now)) }
{
    match key {
        Key::Cell(env, a) => put_cell(alloc, out, env, *a),
        Key::Settle(sheet) => put_settling(alloc, out, sheet),
    }
}

/// The address of a cell, behind a word where it is one of a copy.
#[tactic(auto, using(gl_value::specs::Forms::trees))]
fn put_cell(alloc: Global, out: &mut String, env: &Env, a: Addr) -> Result<(), NoMemory>
    ensures { OnOk result (
        string_bytes out.new ≡ string_bytes out.old ++ key_text (K.Cell (frame_tree env.now) a)) }
{
    match env {
        Env::Top => put_address(alloc, out, a),
        Env::In(_, _) => {
            put(out, "copy ")?;
            put_address(alloc, out, a)
        }
    }
}

/// The region of a copy that settles.
#[tactic(auto, using(gl_value::specs::Forms::trees))]
fn put_settling(alloc: Global, out: &mut String, sheet: &SheetVal) -> Result<(), NoMemory>
    ensures { OnOk result (
        string_bytes out.new ≡ string_bytes out.old ++ key_text (K.Settle (sheet_tree sheet.now))) }
{
    put(out, "settle ")?;
    put_range(alloc, out, sheet.region)
}

// ---- outcomes

/// A scalar, the size of an array, or the number of entries of an oracle.
fn put_outcome(alloc: Global, out: &mut String, outcome: &Outcome) -> Result<(), NoMemory>
    ensures { OnOk result (
        string_bytes out.new ≡ string_bytes out.old ++ outcome_text (outcome_tree outcome.now)) }
{
    match outcome {
        Outcome::Value(value) => put_value(alloc, out, value),
        Outcome::Settled(w) => put_number(alloc, out, w.len()),
        Outcome::Abort(_) => Ok(()),
    }
}

#[tactic(auto, using(gl_value::specs::Forms::trees))]
fn put_value(alloc: Global, out: &mut String, value: &Value) -> Result<(), NoMemory>
    ensures { OnOk result (string_bytes out.new ≡ string_bytes out.old
        ++ outcome_text (K.Outcome.Value (value_tree value.now))) }
{
    match value {
        Value::One(x) => put_scalar(alloc, out, x),
        Value::Array(array) => put_size(alloc, out, array.size()),
    }
}

fn put_scalar(alloc: Global, out: &mut String, x: &Scalar) -> Result<(), NoMemory>
    ensures { OnOk result (
        string_bytes out.new ≡ string_bytes out.old ++ text.scalar_text (scalar_tree x.now)) }
{
    let shown = Shown::Value(x.share()?);
    let text = shown_text(alloc, &shown)?;
    put(out, text.as_str())
}

fn put_size(alloc: Global, out: &mut String, size: Size) -> Result<(), NoMemory>
    ensures { OnOk result (string_bytes out.new ≡ string_bytes out.old ++ text.size_text size) }
{
    put_number(alloc, out, usize::from(size.rows()))?;
    put(out, "x")?;
    put_number(alloc, out, usize::from(size.cols()))
}

// ---- what is shown, and the verdict

fn put_shown(alloc: Global, out: &mut String, shown: &Shown) -> Result<(), NoMemory>
    ensures { OnOk result (string_bytes out.new ≡ string_bytes out.old
        ++ line (codes "shown " ++ text.shown_text (shown_tree shown.now))) }
{
    let text = shown_text(alloc, shown)?;
    put(out, "shown ")?;
    put(out, text.as_str())?;
    put(out, "\n")
}

fn put_verdict(alloc: Global, out: &mut String, verdict: Verdict) -> Result<(), NoMemory>
    ensures { OnOk result (string_bytes out.new ≡ string_bytes out.old
        ++ line (verdict_text (verdict_tree verdict))) }
{
    match verdict {
        Verdict::Accepted => put(out, "accepted\n"),
        Verdict::Note { at } => put_numbered(alloc, out, "note ", at),
        Verdict::Loop { at } => put_numbered(alloc, out, "loop ", at),
        Verdict::Wrong => put(out, "wrong\n"),
    }
}

/// A line of a word and a number behind it.
fn put_numbered(alloc: Global, out: &mut String, word: &str, n: u32) -> Result<(), NoMemory>
    ensures { OnOk result (
        string_bytes out.new ≡ string_bytes out.old ++ line (word.now ++ decimal n)) }
{
    put(out, word)?;
    put_number(alloc, out, n as usize)?;
    put(out, "\n")
}
