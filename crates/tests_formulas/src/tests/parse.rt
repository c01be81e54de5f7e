//! Texts that are read as formulas, by their canonical texts, and those that are refused.
use gl_ast::print;
use gl_parse::parse;
use std::alloc::Global;
use std::test::Fail;
use tests_common::{each_is_read, formula_word, push_times};

/// The canonical text of a formula, or why there is none, in a word.
fn read(alloc: Global, text: &str) -> Result<String, Fail> {
    match parse(alloc, text) {
        Ok(f) => Ok(print(alloc, &f)?),
        Err(fault) => Ok(formula_word(&fault).to_string(alloc)?),
    }
}

#[test]
fn constants_and_references(rt: HostRuntime) -> Result<(), Fail> {
    each_is_read(
        rt.alloc(),
        read,
        &[
            (" 1 + ( 2*3 )", "1+2*3"),
            ("(1+2)+3", "(1+2)+3"),
            ("1+(2+3)", "1+(2+3)"),
            ("007", "7"),
            ("9223372036854775807", "9223372036854775807"),
            ("\"a\\x41\\t\"", "\"aA\\t\""),
            (" TRUE ", "TRUE"),
            ("FALSE", "FALSE"),
            ("AZ3", "AZ3"),
            ("A1 #", "A1#"),
            ("A1 : B3", "A1:B3"),
            ("A1:J1000", "A1:J1000"),
            ("((A1))", "A1"),
            ("- -1", "--1"),
            ("-(1+2)", "-(1+2)"),
            ("(-1)*2", "-1*2"),
            ("-(1*2)", "-(1*2)"),
        ],
    )
}

#[test]
fn operators(rt: HostRuntime) -> Result<(), Fail> {
    each_is_read(
        rt.alloc(),
        read,
        &[
            ("1-(-2)", "1--2"),
            ("1-2-3", "1-2-3"),
            ("1-(2-3)", "1-(2-3)"),
            ("1*2/3*4", "1*2/3*4"),
            ("(1/2)/3", "(1/2)/3"),
            ("1+2*3-4", "1+2*3-4"),
            ("(1+2)*3", "(1+2)*3"),
            ("1&2+3&(4&5)", "1&2+3&(4&5)"),
            ("1=2", "1=2"),
            ("1<>2", "1<>2"),
            ("1<2", "1<2"),
            ("1<=2", "1<=2"),
            ("1>2", "1>2"),
            ("1>=2", "1>=2"),
            ("(1=2)=3", "(1=2)=3"),
            ("1&2=3&4", "1&2=3&4"),
            ("1--------(-2)*3", "1--------(-2)*3"),
        ],
    )
}

#[test]
fn functions_of_elements(rt: HostRuntime) -> Result<(), Fail> {
    each_is_read(
        rt.alloc(),
        read,
        &[
            ("SUM( 1 , 2 )", "SUM(1,2)"),
            ("COUNT(A1:B2,1,NA())", "COUNT(A1:B2,1,NA())"),
            ("MIN(1)", "MIN(1)"),
            ("MAX((1),2)", "MAX(1,2)"),
            ("AND(TRUE,FALSE)", "AND(TRUE,FALSE)"),
            ("OR(TRUE)", "OR(TRUE)"),
            ("NOT(1=2)", "NOT(1=2)"),
            ("IF(A1,1,2)", "IF(A1,1,2)"),
            ("IFERROR(1/0,5)", "IFERROR(1/0,5)"),
            ("ISERROR(A1#)", "ISERROR(A1#)"),
            ("ISBLANK(A1)", "ISBLANK(A1)"),
            ("ABS(-1)", "ABS(-1)"),
            ("MOD(7,-2)", "MOD(7,-2)"),
            ("LEN(\"a\")", "LEN(\"a\")"),
            ("LEFT(\"ab\",1)", "LEFT(\"ab\",1)"),
            ("RIGHT(\"ab\",1)", "RIGHT(\"ab\",1)"),
            ("ROWS(A1:A3)", "ROWS(A1:A3)"),
            ("COLUMNS(A1:C1)", "COLUMNS(A1:C1)"),
        ],
    )
}

#[test]
fn functions_of_arrays(rt: HostRuntime) -> Result<(), Fail> {
    each_is_read(
        rt.alloc(),
        read,
        &[
            ("INDEX(A1:C3,1,2)", "INDEX(A1:C3,1,2)"),
            ("SEQUENCE(2,3)", "SEQUENCE(2,3)"),
            ("TRANSPOSE(A1:C1)", "TRANSPOSE(A1:C1)"),
            ("TAKE(A1:C3,2,-1)", "TAKE(A1:C3,2,-1)"),
            ("DROP(A1:C3,1,0)", "DROP(A1:C3,1,0)"),
            ("HSTACK(1,2)", "HSTACK(1,2)"),
            ("VSTACK(1,2,3)", "VSTACK(1,2,3)"),
            ("FILTER(A1:A3,B1:B3)", "FILTER(A1:A3,B1:B3)"),
            ("UNIQUE(A1:A3)", "UNIQUE(A1:A3)"),
            ("LOOKUP(1,A1:A3,B1:B3)", "LOOKUP(1,A1:A3,B1:B3)"),
        ],
    )
}

#[test]
fn functions_of_sheets_and_variables(rt: HostRuntime) -> Result<(), Fail> {
    each_is_read(
        rt.alloc(),
        read,
        &[
            ("NA ( )", "NA()"),
            ("SHEET(A1)", "SHEET(A1)"),
            ("SHEET((A1:B2))", "SHEET(A1:B2)"),
            ("UPDATE(SHEET(A1:B2),(A1),1)", "UPDATE(SHEET(A1:B2),A1,1)"),
            ("VIEW(1,A1:B2)", "VIEW(1,A1:B2)"),
            ("G(A1:B1)", "G(A1:B1)"),
            ("G(A1,B1,1,C1,2)", "G(A1,B1,1,C1,2)"),
            ("THIS()", "THIS()"),
            ("LET(x,1,x+x)", "LET(x,1,x+x)"),
            ("LET((x),1,x)", "LET(x,1,x)"),
            ("LET(x,3,LET(x,x+1,x*x))", "LET(x,3,LET(x,x+1,x*x))"),
        ],
    )
}

#[test]
fn tokens_that_are_refused(rt: HostRuntime) -> Result<(), Fail> {
    each_is_read(
        rt.alloc(),
        read,
        &[
            ("$A1", "token"),
            ("A0", "token"),
            ("TRUE1", "token"),
            ("9223372036854775808", "number"),
            ("\"a", "text"),
            ("\"\\q\"", "text"),
            ("---------1", "deep"),
            ("---------", "deep"),
            ("---------$", "token"),
        ],
    )
}

#[test]
fn syntax_that_is_refused(rt: HostRuntime) -> Result<(), Fail> {
    each_is_read(
        rt.alloc(),
        read,
        &[
            ("", "syntax"),
            ("1 2", "syntax"),
            ("1+", "syntax"),
            ("1=2=3", "syntax"),
            ("(A1)#", "syntax"),
            ("(A1):B2", "syntax"),
            ("TRUE(1)", "syntax"),
            ("sum(1)", "syntax"),
            ("SUM", "syntax"),
            ("a1", "syntax"),
            ("A1B2", "syntax"),
            ("SUM(1,)", "syntax"),
            ("B1:A1+", "syntax"),
        ],
    )
}

#[test]
fn ranges_and_names_that_are_refused(rt: HostRuntime) -> Result<(), Fail> {
    each_is_read(
        rt.alloc(),
        read,
        &[
            ("SUM(A1:ZZ9999)", "range"),
            ("B1:A1", "range"),
            ("A2:A1", "range"),
            ("A1:J1001", "range"),
            ("x+B1:A1", "range"),
            ("FOO(1)", "name"),
            ("x", "name"),
            ("LET(x,x,1)", "name"),
            ("LET(x,1)", "name"),
            ("LET(x,1,x)+x", "name"),
            ("ABS(x,1)", "name"),
        ],
    )
}

#[test]
fn arguments_that_are_refused(rt: HostRuntime) -> Result<(), Fail> {
    each_is_read(
        rt.alloc(),
        read,
        &[
            ("LET(A1,1,2)", "arity"),
            ("ABS(1,2)", "arity"),
            ("AND()", "arity"),
            ("NA(1)", "arity"),
            ("SHEET(1+2)", "arity"),
            ("SHEET(A1#)", "arity"),
            ("UPDATE(1,A1:A2,1)", "arity"),
            ("VIEW(1,2)", "arity"),
            ("G(A1:B1,A1)", "arity"),
            ("G(A1:B1,1,A1)", "arity"),
            ("HSTACK(1)", "arity"),
        ],
    )
}

/// What is read of a text with so many of two pieces around its middle.
fn read_within(
    alloc: Global,
    before: &str,
    count: u32,
    middle: &str,
    after: &str,
) -> Result<String, Fail> {
    let mut text = String::new(alloc);
    push_times(&mut text, before, count)?;
    text.push_str(middle)?;
    push_times(&mut text, after, count)?;
    read(alloc, text.as_str())
}

/// Two pieces so many times around a middle, and what is read of the text.
const LIMITS: &[(&str, u32, &str, &str, &str)] = &[
    ("(", 64, "1", ")", "1"),
    ("(", 65, "1", ")", "deep"),
    (")", 1, "", "(", "syntax"),
    ("(", 4096, "", ")", "deep"),
    ("(", 8192, "", "", "deep"),
    ("-", 8, "1", "", "--------1"),
    ("-", 9, "1", "", "deep"),
    (" ", 8191, "1", "", "1"),
    (" ", 8192, "1", "", "long"),
    ("$", 8193, "", "", "long"),
];

#[test]
fn limits(rt: HostRuntime) -> Result<(), Fail> {
    for (before, count, middle, after, want) in LIMITS {
        let found = read_within(rt.alloc(), before, *count, middle, after)?;
        assert!(rt; found.as_str() == *want, "{count} {before}");
    }
    Ok(())
}

/// What is read of a text with so many of a piece between its beginning and its end.
fn read_between(
    alloc: Global,
    start: &str,
    piece: &str,
    count: u32,
    end: &str,
) -> Result<String, Fail> {
    let mut text = start.to_string(alloc)?;
    push_times(&mut text, piece, count)?;
    text.push_str(end)?;
    read(alloc, text.as_str())
}

/// A piece so many times between a beginning and an end, and what is read of the text.
const PIECES: &[(&str, &str, u32, &str, &str)] = &[
    (")", "(", 64, "", "syntax"),
    (")", "(", 65, "", "deep"),
    (
        "SUM(1",
        ",1",
        15,
        ")",
        "SUM(1,1,1,1,1,1,1,1,1,1,1,1,1,1,1,1)",
    ),
    ("SUM(1", ",1", 16, ")", "arity"),
];

#[test]
fn limits_of_pieces(rt: HostRuntime) -> Result<(), Fail> {
    for (start, piece, count, end, want) in PIECES {
        let found = read_between(rt.alloc(), start, piece, *count, end)?;
        assert!(rt; found.as_str() == *want, "{start} and {count} {piece}");
    }
    Ok(())
}
