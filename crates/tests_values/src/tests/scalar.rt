//! Operators on scalars: at each pair of kinds, at the limits of numbers, and on texts.
use gl_ast::Op;
use gl_plane::NoMemory;
use gl_scalar::{arith, compare, join_text, negate};
use gl_value::{ErrKind, MAX_TEXT, Scalar};
use std::alloc::Global;
use std::rc::RcStr;
use std::test::Fail;
use tests_common::{each_is_read, scalar, scalar_text, text};

fn operate(alloc: Global, op: Op, x: &Scalar, y: &Scalar) -> Result<Scalar, NoMemory> {
    match op {
        Op::Add | Op::Sub | Op::Mul | Op::Div => Ok(arith(op, x, y)),
        Op::Join => join_text(alloc, x, y),
        _ => Ok(compare(op, x, y)),
    }
}

/// What an operator gives, where operands and result are written as cells show them.
fn told(alloc: Global, op: Op, x: &str, y: &str) -> Result<String, Fail> {
    let result = operate(alloc, op, &scalar(alloc, x)?, &scalar(alloc, y)?)?;
    Ok(scalar_text(alloc, &result)?)
}

/// The kinds that an operator computes with.
const PLAIN: &[&str] = &[".", "7", "\"a\"", "TRUE"];

/// What an operator gives at a first operand and each of these second ones.
fn beside(alloc: Global, op: Op, x: &str, others: &[&str]) -> Result<String, Fail> {
    let mut out = String::new(alloc);
    for y in others {
        if !out.is_empty() {
            out.push(' ')?;
        }
        out.push_str(told(alloc, op, x, y)?.as_str())?;
    }
    Ok(out)
}

/// What operators give at a first operand and each of the plain ones: without a number none computes.
#[rattlefmt::skip]
const AT_EACH_KIND: &[(Op, &str, &str)] = &[
    (Op::Add, ".", "0 7 #VALUE! #VALUE!"),
    (Op::Add, "7", "7 14 #VALUE! #VALUE!"),
    (Op::Sub, ".", "0 -7 #VALUE! #VALUE!"),
    (Op::Sub, "7", "7 0 #VALUE! #VALUE!"),
    (Op::Mul, ".", "0 0 #VALUE! #VALUE!"),
    (Op::Mul, "7", "0 49 #VALUE! #VALUE!"),
    (Op::Div, ".", "#DIV/0! 0 #VALUE! #VALUE!"),
    (Op::Div, "7", "#DIV/0! 1 #VALUE! #VALUE!"),
    (Op::Add, "\"a\"", "#VALUE! #VALUE! #VALUE! #VALUE!"),
    (Op::Add, "TRUE", "#VALUE! #VALUE! #VALUE! #VALUE!"),
    (Op::Sub, "\"a\"", "#VALUE! #VALUE! #VALUE! #VALUE!"),
    (Op::Sub, "TRUE", "#VALUE! #VALUE! #VALUE! #VALUE!"),
    (Op::Mul, "\"a\"", "#VALUE! #VALUE! #VALUE! #VALUE!"),
    (Op::Mul, "TRUE", "#VALUE! #VALUE! #VALUE! #VALUE!"),
    (Op::Div, "\"a\"", "#VALUE! #VALUE! #VALUE! #VALUE!"),
    (Op::Div, "TRUE", "#VALUE! #VALUE! #VALUE! #VALUE!"),
    (Op::Join, ".", "\"\" \"7\" \"a\" \"TRUE\""),
    (Op::Join, "7", "\"7\" \"77\" \"7a\" \"7TRUE\""),
    (Op::Join, "\"a\"", "\"a\" \"a7\" \"aa\" \"aTRUE\""),
    (Op::Join, "TRUE", "\"TRUE\" \"TRUE7\" \"TRUEa\" \"TRUETRUE\""),
];

#[test]
fn operators_at_each_kind(rt: HostRuntime) -> Result<(), Fail> {
    for (op, x, want) in AT_EACH_KIND {
        assert!(rt;
            beside(rt.alloc(), *op, x, PLAIN)?.as_str() == *want,
            "{op:?} {x}"
        );
    }
    Ok(())
}

fn letter(word: &str) -> &'static str {
    match word {
        "TRUE" => "T",
        "FALSE" => "F",
        _ => "?",
    }
}

/// A letter for each truth value: a word of the four second operands for each first one.
fn truths(alloc: Global, op: Op) -> Result<String, Fail> {
    let mut out = String::new(alloc);
    for x in PLAIN {
        if !out.is_empty() {
            out.push(' ')?;
        }
        let row = beside(alloc, op, x, PLAIN)?;
        for word in row.split(' ') {
            out.push_str(letter(word))?;
        }
    }
    Ok(out)
}

/// What comparisons give at each pair of kinds.
const COMPARISONS: &[(Op, &str)] = &[
    (Op::Eq, "TFFF FTFF FFTF FFFT"),
    (Op::Ne, "FTTT TFTT TTFT TTTF"),
    (Op::Lt, "FTTT FFTT FFFT FFFF"),
    (Op::Le, "TTTT FTTT FFTT FFFT"),
    (Op::Gt, "FFFF TFFF TTFF TTTF"),
    (Op::Ge, "TFFF TTFF TTTF TTTT"),
];

#[test]
fn comparisons_at_each_kind(rt: HostRuntime) -> Result<(), Fail> {
    for (op, want) in COMPARISONS {
        assert!(rt; truths(rt.alloc(), *op)?.as_str() == *want, "{op:?}");
    }
    Ok(())
}

/// An error and a sheet value.
const FAULTY: &[&str] = &["#N/A", "sheet(A1:A1)"];

/// What any operator gives at an error or a sheet value beside each kind, and at each kind beside these.
const FAULTS: &[(&str, &[&str], &str)] = &[
    (".", FAULTY, "#N/A #VALUE!"),
    ("7", FAULTY, "#N/A #VALUE!"),
    ("\"a\"", FAULTY, "#N/A #VALUE!"),
    ("TRUE", FAULTY, "#N/A #VALUE!"),
    ("#REF!", PLAIN, "#REF! #REF! #REF! #REF!"),
    ("#REF!", FAULTY, "#REF! #REF!"),
    ("sheet(A1:A1)", PLAIN, "#VALUE! #VALUE! #VALUE! #VALUE!"),
    ("sheet(A1:A1)", FAULTY, "#N/A #VALUE!"),
];

/// At a fault on either side the operator gives what the table says.
fn faults(alloc: Global, op: Op) -> Result<bool, Fail> {
    for (x, others, want) in FAULTS {
        if beside(alloc, op, x, others)?.as_str() != *want {
            return Ok(false);
        }
    }
    Ok(true)
}

const OPERATORS: &[Op] = &[
    Op::Add,
    Op::Sub,
    Op::Mul,
    Op::Div,
    Op::Eq,
    Op::Ne,
    Op::Lt,
    Op::Le,
    Op::Gt,
    Op::Ge,
    Op::Join,
];

#[test]
fn faults_at_each_kind(rt: HostRuntime) -> Result<(), Fail> {
    for op in OPERATORS {
        assert!(rt; faults(rt.alloc(), *op)?, "{op:?}");
    }
    Ok(())
}

fn negated(alloc: Global, x: &str) -> Result<String, Fail> {
    Ok(scalar_text(alloc, &negate(&scalar(alloc, x)?))?)
}

#[test]
fn the_sign_of_every_kind(rt: HostRuntime) -> Result<(), Fail> {
    each_is_read(
        rt.alloc(),
        negated,
        &[
            (".", "0"),
            ("7", "-7"),
            ("\"a\"", "#VALUE!"),
            ("TRUE", "#VALUE!"),
            ("#N/A", "#N/A"),
            ("sheet(A1:A1)", "#VALUE!"),
            ("-9223372036854775808", "#NUM!"),
        ],
    )
}

/// Operators on numbers at their limits, and on texts.
#[rattlefmt::skip]
const NUMBERS_AND_TEXTS: &[(Op, &str, &str, &str)] = &[
    (Op::Add, "9223372036854775807", "1", "#NUM!"),
    (Op::Add, "9223372036854775807", "0", "9223372036854775807"),
    (Op::Sub, "-9223372036854775808", "1", "#NUM!"),
    (Op::Mul, "-9223372036854775808", "-1", "#NUM!"),
    (Op::Mul, "4294967296", "-2147483648", "-9223372036854775808"),
    (Op::Div, "-9223372036854775808", "-1", "#NUM!"),
    (Op::Div, "-7", "2", "-3"),
    (Op::Div, "7", "-2", "-3"),
    (Op::Div, "1", "0", "#DIV/0!"),
    (Op::Lt, "-1", "0", "TRUE"),
    (Op::Lt, "\"Z\"", "\"a\"", "TRUE"),
    (Op::Lt, "\"aa\"", "\"b\"", "TRUE"),
    (Op::Lt, "\"a\"", "\"aa\"", "TRUE"),
    (Op::Eq, "\"a\"", "\"A\"", "FALSE"),
    (Op::Lt, "\"z\"", "\"\u{e9}\"", "TRUE"),
    (Op::Add, "\"1\"", "\"1\"", "#VALUE!"),
    (Op::Join, "\"a\"", "\"\u{e9}\"", "\"a\u{e9}\""),
    (Op::Eq, "1", "\"1\"", "FALSE"),
    (Op::Eq, "\"\"", ".", "TRUE"),
    (Op::Join, "\"a1\"", "TRUE", "\"a1TRUE\""),
];

#[test]
fn numbers_at_their_limits_and_texts(rt: HostRuntime) -> Result<(), Fail> {
    for (op, x, y, want) in NUMBERS_AND_TEXTS {
        assert!(rt;
            told(rt.alloc(), *op, x, y)?.as_str() == *want,
            "{op:?} {x} {y}"
        );
    }
    Ok(())
}

/// A text of as many bytes as may be.
fn longest(alloc: Global) -> Result<Scalar, Fail> {
    let mut most = String::new(alloc);
    for _ in 0..MAX_TEXT {
        most.push('x')?;
    }
    Ok(Scalar::Text(RcStr::from_string(most)?))
}

#[test]
fn the_longest_text(rt: HostRuntime) -> Result<(), Fail> {
    let longest = longest(rt.alloc())?;
    let as_long = join_text(rt.alloc(), &longest, &Scalar::Blank)?;
    assert!(rt; as_long == longest);
    Ok(())
}

#[test]
fn a_text_that_is_longer(rt: HostRuntime) -> Result<(), Fail> {
    let longest = longest(rt.alloc())?;
    let longer = join_text(rt.alloc(), &longest, &text(rt.alloc(), "x")?)?;
    assert!(rt; longer == Scalar::Err(ErrKind::Size));
    Ok(())
}
