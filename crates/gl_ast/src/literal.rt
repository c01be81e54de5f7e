//! Texts as literals. What a text holds after `NoMemory` is not told.

ghost use Rattle.std.specs.Prelude.{◌≡◌, ◌≢◌, ◌++◌, ◌∷◌, [], ◌/◌, ◌%◌, ◌<◌, OnOk, flat_map};
ghost use Rattle.std.specs.{Char.encode_utf8, String.string_bytes};
ghost use Rattle.gl_language.specs.Texts.Text as text;

use gl_plane::NoMemory;

/// Appends a text as a literal: in quotes, with the escapes of a backslash, a quote and the control characters.
pub fn put_literal(out: &mut String, t: &str) -> Result<(), NoMemory>
    ensures { OnOk result (string_bytes out.new ≡ string_bytes out.old ++ text.literal_text t.now) }
{
    put(out, "\"")?;
    put_escaped(out, t)?;
    put(out, "\"")?;
    Ok(())
}

/// Appends a text as it is.
pub fn put(out: &mut String, t: &str) -> Result<(), NoMemory>
    ensures { OnOk result (string_bytes out.new ≡ string_bytes out.old ++ t.now) }
{
    out.push_str(t)?;
    Ok(())
}

fn put_escaped(out: &mut String, t: &str) -> Result<(), NoMemory>
    ensures { OnOk result (
        string_bytes out.new ≡ string_bytes out.old ++ flat_map text.escaped t.now) }
{
    for c in t.chars() {
        put_char(out, c)?;
    }
    Ok(())
}

#[tactic(auto, using(crate::proofs::Escapes::char_rules))]
fn put_char(out: &mut String, c: char) -> Result<(), NoMemory>
    ensures { OnOk result (
        string_bytes out.new ≡ string_bytes out.old ++ flat_map text.escaped (encode_utf8 c)) }
{
    match c {
        '\\' => put(out, "\\\\"),
        '"' => put(out, "\\\""),
        '\n' => put(out, "\\n"),
        '\r' => put(out, "\\r"),
        '\t' => put(out, "\\t"),
        _ => put_other(out, c),
    }
}

/// A character that has no escape of its own.
#[tactic(auto, using(crate::proofs::Escapes::other_rules))]
fn put_other(out: &mut String, c: char) -> Result<(), NoMemory>
    requires backslash { c ≢ 92 }
    requires quote { c ≢ 34 }
    requires feed { c ≢ 10 }
    requires return_ { c ≢ 13 }
    requires tab { c ≢ 9 }
    ensures { OnOk result (
        string_bytes out.new ≡ string_bytes out.old ++ flat_map text.escaped (encode_utf8 c)) }
{
    if c < ' ' || c == '\x7f' {
        return put_hex(out, c as u8);
    }
    out.push(c)?;
    Ok(())
}

fn hex_digit(d: u8) -> char
    requires { d < 16 }
    ensures value { result ≡ text.hex_digit d }
    ensures small { result < 128 }
{
    if d < 10 {
        (48 + d) as char
    } else {
        (55 + d) as char
    }
}

/// A control character by its number.
fn put_hex(out: &mut String, b: u8) -> Result<(), NoMemory>
    requires { b < 128 }
    ensures { OnOk result (
        string_bytes out.new
        ≡ string_bytes out.old
        ++ (92 ∷ 120 ∷ text.hex_digit (b / 16) ∷ text.hex_digit (b % 16) ∷ [])) }
{
    out.push_str("\\x")?;
    out.push(hex_digit(b / 16))?;
    out.push(hex_digit(b % 16))?;
    Ok(())
}
