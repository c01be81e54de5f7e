//! Payloads as contents of B2 and on: each with its address, as a cell shows it.
use crate::tests::asserts::assert_count;
use gl_ast::put_address;
use gl_cells::Content;
use gl_csvin::contents;
use gl_plane::Addr;
use gl_views::content_text;
use std::alloc::Global;
use std::test::Fail;
use tests_common::{address, each_is_read};

/// A content as a cell shows it, behind its address.
fn push_content(alloc: Global, out: &mut String, a: Addr, content: &Content) -> Result<(), Fail> {
    put_address(alloc, out, a)?;
    out.push(' ')?;
    let shown = content_text(alloc, content)?;
    out.push_str(shown.as_str())?;
    Ok(())
}

/// The contents of a payload, with `; ` between them.
fn told(alloc: Global, payload: &str) -> Result<String, Fail> {
    let found: Vec<(Addr, Content)> = contents(alloc, payload.as_bytes(), address("B2")?)?;
    let mut out = String::new(alloc);
    for (a, content) in &found {
        if !out.is_empty() {
            out.push_str("; ")?;
        }
        push_content(alloc, &mut out, *a, content)?;
    }
    Ok(out)
}

#[test]
fn fields_of_payloads(rt: HostRuntime) -> Result<(), Fail> {
    each_is_read(
        rt.alloc(),
        told,
        &[
            ("-7,\"a\nb\"\n,=A9\n", "B2 -7; C2 \"a\\nb\"; C3 \"=A9\""),
            (
                "1,x\n2,y\n1,z\n",
                "B2 1; C2 \"x\"; B3 2; C3 \"y\"; B4 1; C4 \"z\"",
            ),
            // records of differing lengths
            (
                "a\nb,c,d\ne,f\n",
                "B2 \"a\"; B3 \"b\"; C3 \"c\"; D3 \"d\"; B4 \"e\"; C4 \"f\"",
            ),
            ("", ""),
        ],
    )
}

#[test]
fn line_ends_and_quotes(rt: HostRuntime) -> Result<(), Fail> {
    each_is_read(
        rt.alloc(),
        told,
        &[
            // each kind of line end, and empty lines
            (
                "a\rb\r\nc\n\n\r\n\r\rd",
                "B2 \"a\"; B3 \"b\"; B4 \"c\"; B5 \"d\"",
            ),
            // quotes: doubled, in the middle, with text behind them
            (
                "\"a\"\"b\",c\"d,\"e\"f\n",
                "B2 \"a\\\"b\"; C2 \"c\\\"d\"; D2 \"ef\"",
            ),
            // an empty field alone is a record, and a quote may be left open
            ("\"\"\n\"a,\nb", "B3 \"a,\\nb\""),
            // one mark or two go, and a third is text
            ("\u{feff}7\n", "B2 7"),
            ("\u{feff}\u{feff}7", "B2 7"),
            ("\u{feff}\u{feff}\u{feff}7", "B2 \"\u{feff}7\""),
        ],
    )
}

/// A byte so many times, and a line end.
fn push_line(payload: &mut Vec<u8>, byte: u8, count: u32) -> Result<(), Fail> {
    for _ in 0..count {
        payload.push(byte)?;
    }
    payload.push(b'\n')?;
    Ok(())
}

/// So many records of one field, each of 256 bytes.
fn records(alloc: Global, count: u32) -> Result<Vec<u8>, Fail> {
    let mut payload = Vec::new(alloc);
    for _ in 0..count {
        push_line(&mut payload, b'a', 255)?;
    }
    Ok(payload)
}

/// 1,048,576 bytes, the most that an import takes, in 4,096 records of one field.
#[test]
fn the_longest_payload(rt: HostRuntime) -> Result<(), Fail> {
    let first = address("B2")?;
    let payload = records(rt.alloc(), 4096)?;
    assert_count(&rt, payload.len(), 1_048_576);
    let found = contents(rt.alloc(), payload.as_slice(), first)?;
    assert_count(&rt, found.len(), 4096);
    Ok(())
}
