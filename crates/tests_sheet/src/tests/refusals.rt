//! Lines that are refused.
use crate::tests::asserts::assert_text;
use crate::tests::telling::{assert_all_told, assert_told, told};

#[test]
fn edits_that_are_refused(rt: HostRuntime) {
    assert_told(
        &rt,
        rt.alloc(),
        &[
            ("edit 0 1 A0 5", "error address"),
            ("edit 0 1 A1 =(", "error stamp"),
            ("edit 0 1 A1", "error stamp"),
            ("edit 1000000000001 1 A1 5", "error stamp"),
            ("edit 99999999999999999999 1 A1 5", "error stamp"),
            ("edit 1 65536 A1 5", "error stamp"),
            ("edit 1 99999999999999999999 A1 5", "error stamp"),
            ("edit 1 1 A1 =(", "syntax"),
            ("edit 1 1 A1 \"a", "error text"),
        ],
    );
}

#[test]
fn sites_and_stamps_that_are_no_numbers(rt: HostRuntime) {
    assert_all_told(
        &rt,
        rt.alloc(),
        &[
            "site",
            "site ",
            "site 1 ",
            "site 07",
            "site 65536",
            "site 99999999999999999999",
            "edit",
            "edit 1 1",
            "edit 1 1 ",
            "edit 1 1 A1 ",
            "edit 01 1 A1 5",
            "edit 1 01 A1 5",
            "edit  1 A1 5",
            "edit -1 1 A1 5",
            "export x",
            "undo 1",
            "redo ",
        ],
        "error command",
    );
}

#[test]
fn arguments_that_are_refused(rt: HostRuntime) {
    assert_told(
        &rt,
        rt.alloc(),
        &[
            ("view B2:A1", "error range"),
            ("view A1:B5001", "error range"),
            ("clear B1:A2", "error range"),
            ("import A1 1048577", "error payload"),
            ("import ZZZ1 99999999999999999999", "error payload"),
            ("set A1 \"a", "error text"),
            ("set A1 \"a\"b", "error text"),
            ("set A1 \"\\q\"", "error text"),
            ("set A1 \"", "error text"),
        ],
    );
}

#[test]
fn words_that_are_no_command(rt: HostRuntime) {
    assert_all_told(
        &rt,
        rt.alloc(),
        &[
            "foo",
            " ",
            "Show A1",
            "LIST",
            " list",
            "list ",
            "list x",
            "quit ",
            "show",
            "show ",
            "show  A1",
            "show A1 ",
            "show A1 B1",
            "show\tA1",
            "why",
            "explain",
            "explain ",
            "explain A1 B1",
            "flow x",
            "flow ",
            "get A1 =",
            "view A1 : B2",
        ],
        "error command",
    );
}

#[test]
fn arguments_that_are_missing_or_too_many(rt: HostRuntime) {
    assert_all_told(
        &rt,
        rt.alloc(),
        &[
            "clear",
            "set",
            "set ",
            "set A1",
            "set A1 ",
            "set  5",
            "Set A1 5",
            "import A1",
            "import A1 ",
            "import  1",
            "import A1 07",
            "import A1 -1",
            "import A1 1 ",
            "import A1 +1",
            "gridlet",
            "gridlet 1",
            "gridlet 2 ",
            "gridlet  2",
        ],
        "error command",
    );
}

#[test]
fn no_addresses(rt: HostRuntime) {
    assert_all_told(
        &rt,
        rt.alloc(),
        &[
            "show A0",
            "show A10000",
            "show AAA1",
            "show a1",
            "get A01",
            "why A1:A1",
            "explain A0",
            "explain A1:A1",
            "view A1:",
            "view :A1",
            "view A1:B2:C3",
            "view B2:A0",
            "clear A1;B2",
            "set A0 \"a",
            "set 1 5",
        ],
        "error address",
    );
}

#[test]
fn bytes_that_are_no_text(rt: HostRuntime) {
    assert_text(&rt, told(rt.alloc(), b"show \xff"), "error utf8");
    assert_text(&rt, told(rt.alloc(), b"foo\xff"), "error utf8");
    assert_text(&rt, told(rt.alloc(), b";\xff"), "");
}

#[test]
fn formulas_and_tokens_that_are_refused(rt: HostRuntime) {
    assert_told(
        &rt,
        rt.alloc(),
        &[
            ("set A1 = 1 + A1 ", "set formula"),
            ("set A1 =SEQUENCE(3,1)", "set formula"),
            ("set B1 =A1#*2", "set formula"),
            ("set A1 =", "syntax"),
            ("set A1 =$A1", "token"),
            ("set A1 =A0", "token"),
            ("set A1 =9223372036854775808", "number"),
            ("set A1 =\"a", "text"),
            ("set A1 =\"\\q\"", "text"),
        ],
    );
}

#[test]
fn formulas_that_are_refused(rt: HostRuntime) {
    assert_told(
        &rt,
        rt.alloc(),
        &[
            ("set A1 =---------1", "deep"),
            ("set A1 =1 2", "syntax"),
            ("set A1 =1+", "syntax"),
            ("set A1 =1=2=3", "syntax"),
            ("set A1 =SUM(A1:ZZ9999)", "range"),
            ("set A1 =B1:A1", "range"),
            ("set A1 =FOO(1)", "name"),
            ("set A1 =x", "name"),
            ("set A1 =LET(x,x,1)", "name"),
            ("set A1 =G(A1:B1,A1)", "arity"),
            ("set A1 =ABS(1,2)", "arity"),
            ("set A1 =SHEET(1+2)", "arity"),
            ("set A0 =1+", "error address"),
        ],
    );
}
