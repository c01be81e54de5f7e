//! Functions of elements and of scalars, by the texts of their arguments and of their results.
use crate::tests::calls::called;
use std::test::Fail;
use tests_common::each_is_read;

#[test]
fn sums(rt: HostRuntime) -> Result<(), Fail> {
    each_is_read(
        rt.alloc(),
        called,
        &[
            ("SUM ", "0"),
            ("SUM 1; \"a\"; TRUE; 2", "3"),
            ("SUM .", "0"),
            ("SUM {5}", "5"),
            ("SUM {1 2 .}; 4", "7"),
            ("SUM {9223372036854775807 1 -1}", "9223372036854775807"),
            ("SUM 9223372036854775807; 1", "#NUM!"),
            ("SUM -9223372036854775808; -1", "#NUM!"),
            ("SUM 9223372036854775807; 1; #N/A", "#N/A"),
            ("SUM 1; {2 #N/A}; #REF!", "#N/A"),
            ("SUM sheet(A1:A1); #N/A", "#VALUE!"),
        ],
    )
}

#[test]
fn counts(rt: HostRuntime) -> Result<(), Fail> {
    each_is_read(
        rt.alloc(),
        called,
        &[
            ("COUNT ", "0"),
            ("COUNT 1; #N/A; 2", "2"),
            ("COUNT \"1\"; TRUE; .; sheet(A1:A1)", "0"),
            ("COUNT {1 #N/A 2}; {3}", "3"),
        ],
    )
}

#[test]
fn least_and_greatest(rt: HostRuntime) -> Result<(), Fail> {
    each_is_read(
        rt.alloc(),
        called,
        &[
            ("MIN ", "0"),
            ("MIN .; \"a\"", "0"),
            ("MIN 3; -2; 5", "-2"),
            ("MIN {4 2}; 7", "2"),
            ("MIN 3; 5", "3"),
            ("MIN #N/A; 1", "#N/A"),
            ("MAX ", "0"),
            ("MAX -3; -2", "-2"),
            ("MAX {4 2}; 7", "7"),
            ("MAX 5; sheet(A1:A1)", "#VALUE!"),
        ],
    )
}

#[test]
fn all_and_any(rt: HostRuntime) -> Result<(), Fail> {
    each_is_read(
        rt.alloc(),
        called,
        &[
            ("AND ", "#VALUE!"),
            ("AND .", "#VALUE!"),
            ("AND TRUE; {TRUE .}", "TRUE"),
            ("AND TRUE; FALSE; TRUE", "FALSE"),
            ("AND FALSE; 1", "#VALUE!"),
            ("AND FALSE; #N/A; 1", "#N/A"),
            ("AND \"a\"; #N/A", "#VALUE!"),
            ("OR .", "#VALUE!"),
            ("OR FALSE; {FALSE}", "FALSE"),
            ("OR FALSE; TRUE; FALSE", "TRUE"),
            ("OR TRUE; #N/A", "#N/A"),
            ("OR TRUE; sheet(A1:A1)", "#VALUE!"),
        ],
    )
}

#[test]
fn truths_and_tests(rt: HostRuntime) -> Result<(), Fail> {
    each_is_read(
        rt.alloc(),
        called,
        &[
            ("NOT TRUE", "FALSE"),
            ("NOT FALSE", "TRUE"),
            ("NOT .", "TRUE"),
            ("NOT 1", "#VALUE!"),
            ("NOT \"a\"", "#VALUE!"),
            ("NOT #N/A", "#N/A"),
            ("NOT sheet(A1:A1)", "#VALUE!"),
            ("ISERROR #N/A", "TRUE"),
            ("ISERROR .", "FALSE"),
            ("ISERROR sheet(A1:A1)", "FALSE"),
            ("ISBLANK .", "TRUE"),
            ("ISBLANK \"\"", "FALSE"),
            ("ISBLANK 0", "FALSE"),
            ("ISBLANK #N/A", "FALSE"),
        ],
    )
}

#[test]
fn sizes_of_numbers_and_remainders(rt: HostRuntime) -> Result<(), Fail> {
    each_is_read(
        rt.alloc(),
        called,
        &[
            ("ABS -7", "7"),
            ("ABS 7", "7"),
            ("ABS .", "0"),
            ("ABS -9223372036854775808", "#NUM!"),
            ("ABS TRUE", "#VALUE!"),
            ("ABS #N/A", "#N/A"),
            ("ABS sheet(A1:A1)", "#VALUE!"),
            ("MOD 7; 3", "1"),
            ("MOD -7; 3", "2"),
            ("MOD 7; -3", "-2"),
            ("MOD -7; -3", "-1"),
            ("MOD -6; 3", "0"),
            ("MOD -9223372036854775808; -1", "0"),
            (
                "MOD -9223372036854775808; 9223372036854775807",
                "9223372036854775806",
            ),
            ("MOD .; 5", "0"),
            ("MOD 5; .", "#DIV/0!"),
            ("MOD \"a\"; 0", "#VALUE!"),
            ("MOD #N/A; #REF!", "#N/A"),
            ("MOD sheet(A1:A1); #REF!", "#REF!"),
            ("MOD sheet(A1:A1); 1", "#VALUE!"),
        ],
    )
}

#[test]
fn lengths(rt: HostRuntime) -> Result<(), Fail> {
    each_is_read(
        rt.alloc(),
        called,
        &[
            ("LEN \"\u{e9}\"", "1"),
            ("LEN \"\u{1f600}\u{e9}x\"", "3"),
            ("LEN .", "0"),
            ("LEN 0", "1"),
            ("LEN 9", "1"),
            ("LEN 10", "2"),
            ("LEN -10", "3"),
            ("LEN -9223372036854775808", "20"),
            ("LEN TRUE", "4"),
            ("LEN FALSE", "5"),
            ("LEN #N/A", "#N/A"),
            ("LEN sheet(A1:A1)", "#VALUE!"),
        ],
    )
}

#[test]
fn beginnings(rt: HostRuntime) -> Result<(), Fail> {
    each_is_read(
        rt.alloc(),
        called,
        &[
            ("LEFT \"gridlet\"; 4", "\"grid\""),
            ("LEFT \"\u{e9}\u{1f600}x\"; 2", "\"\u{e9}\u{1f600}\""),
            ("LEFT \"ab\"; 9223372036854775807", "\"ab\""),
            ("LEFT \"ab\"; 0", "\"\""),
            ("LEFT \"ab\"; .", "\"\""),
            ("LEFT \"ab\"; -1", "#VALUE!"),
            ("LEFT \"ab\"; \"1\"", "#VALUE!"),
            ("LEFT -123; 2", "\"-1\""),
            ("LEFT TRUE; 2", "\"TR\""),
            ("LEFT .; 3", "\"\""),
            ("LEFT #N/A; #REF!", "#N/A"),
            ("LEFT sheet(A1:A1); #REF!", "#REF!"),
            ("LEFT sheet(A1:A1); 1", "#VALUE!"),
            ("LEFT \"ab\"; sheet(A1:A1)", "#VALUE!"),
        ],
    )
}

#[test]
fn ends(rt: HostRuntime) -> Result<(), Fail> {
    each_is_read(
        rt.alloc(),
        called,
        &[
            ("RIGHT \"gridlet\"; 3", "\"let\""),
            ("RIGHT \"x\u{e9}\u{1f600}\"; 2", "\"\u{e9}\u{1f600}\""),
            ("RIGHT \"ab\"; 9223372036854775807", "\"ab\""),
            ("RIGHT \"ab\"; 0", "\"\""),
            ("RIGHT \"ab\"; -1", "#VALUE!"),
            ("RIGHT -123; 2", "\"23\""),
            ("RIGHT FALSE; 2", "\"SE\""),
            ("RIGHT \"ab\"; #REF!", "#REF!"),
        ],
    )
}
