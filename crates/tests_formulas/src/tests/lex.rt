//! Texts as tokens, and texts that are one literal.
use gl_lex::{Kind, LexFault, MAX_FORMULA, Sign, Token, literal, tokens};
use std::alloc::Global;
use std::test::Fail;
use tests_common::{each_is_read, push_times};

/// A letter for each kind of token; signs as they are written.
fn letter(kind: &Kind) -> &'static str {
    match kind {
        Kind::Integer(_) => "i",
        Kind::Text(_) => "t",
        Kind::Address(_) => "a",
        Kind::Truth(true) => "y",
        Kind::Truth(false) => "n",
        Kind::Word => "w",
        Kind::Variable => "v",
        Kind::Sign(sign) => sign_text(*sign),
    }
}

fn sign_text(sign: Sign) -> &'static str {
    match sign {
        Sign::Eq => "=",
        Sign::Ne => "<>",
        Sign::Lt => "<",
        Sign::Le => "<=",
        Sign::Gt => ">",
        Sign::Ge => ">=",
        Sign::Join => "&",
        Sign::Plus => "+",
        Sign::Minus => "-",
        Sign::Times => "*",
        Sign::Over => "/",
        Sign::Hash => "#",
        Sign::LeftParen => "(",
        Sign::RightParen => ")",
        Sign::Comma => ",",
        Sign::Colon => ":",
    }
}

fn fault_text(alloc: Global, fault: LexFault) -> Result<String, Fail> {
    match fault {
        LexFault::Token { at } => Ok(format!(in alloc; "token {at}")?),
        LexFault::Number { at } => Ok(format!(in alloc; "number {at}")?),
        LexFault::Text { at } => Ok(format!(in alloc; "text {at}")?),
        LexFault::NoMemory => Err(Fail::new("no memory")),
    }
}

/// The kinds of the tokens, with the letters of words and variables.
fn kinds(alloc: Global, text: &str, found: &[Token]) -> Result<String, Fail> {
    let mut out = String::new(alloc);
    for token in found {
        let name = letter(&token.kind);
        out.push_str(name)?;
        if name == "w" || name == "v" {
            let span = token.start as usize..token.end as usize;
            out.push_str(text.get(span).unwrap_or("?"))?;
        }
        out.push_str(" ")?;
    }
    Ok(out)
}

/// The kinds of a text's tokens, or its fault.
fn read(alloc: Global, text: &str) -> Result<String, Fail> {
    if text.len() > MAX_FORMULA {
        return Err(Fail::new("too long"));
    }
    match tokens(alloc, text) {
        Err(fault) => fault_text(alloc, fault),
        Ok(found) => kinds(alloc, text, &found),
    }
}

#[test]
fn kinds_of_tokens(rt: HostRuntime) -> Result<(), Fail> {
    each_is_read(
        rt.alloc(),
        read,
        &[
            ("", ""),
            ("   ", ""),
            (" 1 + ( 2*3 )", "i + ( i * i ) "),
            ("12 3", "i i "),
            ("007", "i "),
            ("9223372036854775807", "i "),
            ("A1", "a "),
            ("ZZ9999#", "a # "),
        ],
    )
}

#[test]
fn kinds_of_signs_and_texts(rt: HostRuntime) -> Result<(), Fail> {
    each_is_read(
        rt.alloc(),
        read,
        &[
            ("A1:B2", "a : a "),
            ("1+A1B2", "i + a a "),
            ("SUM(a,b1)", "wSUM ( va , vb i ) "),
            ("abcABC", "vabc wABC "),
            ("TRUE FALSE TRUEx", "y n y vx "),
            ("TRUTH", "wTRUTH "),
            ("<>=<=>=><", "<> = <= >= > < "),
            ("\"a\\\\b\\\"\\n\\r\\t\\x7F\\x0a\"", "t "),
            ("\"\u{20ac}\"&\"\"", "t & t "),
        ],
    )
}

#[test]
fn texts_without_tokens(rt: HostRuntime) -> Result<(), Fail> {
    each_is_read(
        rt.alloc(),
        read,
        &[
            ("9223372036854775808", "number 0"),
            ("1+00000000000000000000009223372036854775808", "number 2"),
            ("A0", "token 0"),
            ("A01", "token 0"),
            ("AAA1", "token 0"),
            ("A10000", "token 0"),
            ("$A1", "token 0"),
            ("A$1", "token 1"),
            ("TRUE1", "token 0"),
            ("\"a", "text 0"),
            ("1 \"\\q\"", "text 2"),
            ("\"\\x80\"", "text 0"),
            ("\"\\x7g\"", "text 0"),
            ("\"a\tb\"", "text 0"),
            ("\"a\"\"", "text 3"),
            ("1+\u{20ac}", "token 2"),
            ("1 ? 2", "token 2"),
        ],
    )
}

#[test]
fn long_formulas(rt: HostRuntime) -> Result<(), Fail> {
    let mut long = String::new(rt.alloc());
    push_times(&mut long, "1+", 4096)?;
    assert_eq!(rt; read(rt.alloc(), &long)?.len(), 4 * 4096);
    Ok(())
}

/// What is read of a literal with so many letters, and a quote behind it.
fn read_quoted(alloc: Global, count: u32, behind: &str) -> Result<String, Fail> {
    let mut quoted = String::new(alloc);
    quoted.push_str("\"")?;
    push_times(&mut quoted, "a", count)?;
    quoted.push_str("\"")?;
    quoted.push_str(behind)?;
    read(alloc, &quoted)
}

#[test]
fn long_texts(rt: HostRuntime) -> Result<(), Fail> {
    assert_eq!(rt; read_quoted(rt.alloc(), 4096, "")?.as_str(), "t ");
    assert_eq!(rt; read_quoted(rt.alloc(), 4096, "a\"")?.as_str(), "text 4099");
    Ok(())
}

/// The text of a literal is this one.
fn is_literal(alloc: Global, text: &str, want: &str) -> bool {
    match literal(alloc, text) {
        Ok(found) => &*found == want,
        Err(_) => false,
    }
}

/// The text is refused at its beginning.
fn is_no_literal(alloc: Global, text: &str) -> bool {
    match literal(alloc, text) {
        Ok(_) => false,
        Err(fault) => matches!(fault, LexFault::Text { at: 0 }),
    }
}

/// Literals, and their texts.
const LITERALS: &[(&str, &str)] = &[
    ("\"\"", ""),
    ("\"a\\x41\\n\"", "aA\n"),
    ("\"\u{1f600}\\\"\"", "\u{1f600}\""),
];

const NO_LITERALS: &[&str] = &[
    "",
    "a",
    "\"a",
    "\"a\" ",
    "\"a\"b",
    " \"a\"",
    "\"\\q\"",
    "\"a\"\"b\"",
];

#[test]
fn literals(rt: HostRuntime) -> Result<(), Fail> {
    for (text, want) in LITERALS {
        assert!(rt; is_literal(rt.alloc(), text, want), "{text}");
    }
    for text in NO_LITERALS {
        assert!(rt; is_no_literal(rt.alloc(), text), "{text}");
    }
    Ok(())
}
