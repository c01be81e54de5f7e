//! Scripts with their replies, each by each pick rule.
use crate::tests::calls::{DONE, REFUSED, Row, assert_rows, assert_rows_by};
use std::test::Fail;

/// Operators and functions.
#[rattlefmt::skip]
const FUNCTIONS: &[Row<'static>] = &[
    (b"set A1 =MOD(-7,3)\nshow A1\n", b"ok\n2\n", DONE),
    (b"set A1 =\"a\"&1&TRUE\nshow A1\nset A1 =1=\"1\"\nshow A1\nset A1 =-7/2\nshow A1\nset A1 =1/0\nshow A1\n", b"ok\n\"a1TRUE\"\nok\nFALSE\nok\n-3\nok\n#DIV/0!\n", DONE),
    (b"import A1 12\n1,x\n2,y\n1,z\nset D1 =FILTER(A1:B3,A1:A3=1)\nset G1 =UNIQUE(A1:A3)\nset I1 =LOOKUP(2,A1:A3,B1:B3)\nview D1:E2\nview G1:G2\nshow I1\n", b"ok\nok\nok\nok\n1 \"x\"\n1 \"z\"\n1\n2\n\"y\"\n", DONE),
    (b"set H1 =COUNT(1,NA(),2)\nshow H1\n", b"ok\n2\n", DONE),
    (b"set H1 =DROP(SEQUENCE(3,3),1,-2)\nview H1:H2\n", b"ok\n4\n7\n", DONE),
    (b"set H1 =HSTACK(SEQUENCE(2,1),9)\nview H1:I2\n", b"ok\n1    9\n2 #N/A\n", DONE),
    (b"set H1 =IF(SEQUENCE(1,2)=1,1,2)\nshow H1\n", b"ok\n#VALUE!\n", DONE),
    (b"set H1 =IFERROR(1/0,5)\nshow H1\n", b"ok\n5\n", DONE),
    (b"set H1 =INDEX(SEQUENCE(2,2),3,1)\nshow H1\n", b"ok\n#REF!\n", DONE),
    (b"set H1 =LEFT(\"gridlet\",4)\nshow H1\n", b"ok\n\"grid\"\n", DONE),
    (b"set H1 =LEN(\"\xc3\xa9\")\nshow H1\n", b"ok\n1\n", DONE),
    (b"set H1 =LET(x,3,LET(x,x+1,x*x))\nshow H1\n", b"ok\n16\n", DONE),
    (b"set H1 =RIGHT(\"gridlet\",3)\nshow H1\n", b"ok\n\"let\"\n", DONE),
    (b"set H1 =ROWS(SEQUENCE(4,2))\nshow H1\n", b"ok\n4\n", DONE),
    (b"set H1 =SEQUENCE(101,100)\nshow H1\n", b"ok\n#SIZE!\n", DONE),
];

#[test]
fn functions(rt: HostRuntime) -> Result<(), Fail> {
    assert_rows(&rt, rt.alloc(), FUNCTIONS)
}

/// More functions, and both versions.
#[rattlefmt::skip]
const MORE_FUNCTIONS: &[Row<'static>] = &[
    (b"set H1 =H1#\nshow H1\n", b"ok\n#REF!\n", DONE),
    (b"set H1 =SUM(1,\"a\",TRUE,2)\nshow H1\n", b"ok\n3\n", DONE),
    (b"set H1 =TAKE(SEQUENCE(3,3),2,-1)\nview H1:H2\n", b"ok\n3\n6\n", DONE),
    (b"set H1 =TRANSPOSE(SEQUENCE(2,3))\nview H1:I3\n", b"ok\n1 4\n2 5\n3 6\n", DONE),
    (b"set H1 =VSTACK(SEQUENCE(1,2),9)\nview H1:I2\n", b"ok\n1    2\n9 #N/A\n", DONE),
    (b"set H1 =AND()\n", b"error arity\n", REFUSED),
    (b"gridlet 2\nset A1 =IF(SEQUENCE(1,2)=1,1,2)\nview A1:B1\nlist\n", b"ok\nok\n1 2\nlist 1\ngridlet 2\nset A1 =IF(SEQUENCE(1,2)=1,1,2)\n", DONE),
    (b"set A1 =IFERROR(10/(SEQUENCE(1,3)-2),0)\nview A1:C1\n", b"ok\n-10 #DIV/0! 10\n", DONE),
    (b"gridlet 2\nset A1 =IFERROR(10/(SEQUENCE(1,3)-2),0)\nview A1:C1\n", b"ok\nok\n-10 0 10\n", DONE),
    (b"set A1 =IF(SEQUENCE(1,2)>0,1,A1)\nshow A1\n", b"ok\n#VALUE!\n", DONE),
    (b"gridlet 2\nset A1 =IF(SEQUENCE(1,2)>0,1,A1)\nshow A1\n", b"ok\nok\n#CYCLE!\n", DONE),
    (b"import A1 14\n-7,\"a\nb\"\n,=A9\nlist\n", b"ok\nlist 3\nset A1 -7\nset B1 \"a\\nb\"\nset B2 \"=A9\"\n", DONE),
    (b"set A1 1\ngridlet 2\n", b"ok\nerror command\n", REFUSED),
    (b"import B2 63\na\"b,\"c\"\"d\"e,\r\r\n,\"\",-0\r\"x\ry\",+1,\"TRUE\"\n\n9223372036854775808,\" 1\"list\n", b"ok\nlist 8\nset B2 \"a\\\"b\"\nset C2 \"c\\\"de\"\nset D3 0\nset B4 \"x\\ry\"\nset C4 \"+1\"\nset D4 TRUE\nset B5 \"9223372036854775808\"\nset C5 \" 1\"\n", DONE),
    (b"import A1 7\n\xef\xbb\xbf\xef\xbb\xbf7show A1\n", b"ok\n7\n", DONE),
    (b"import A1 14\n-7,\"a\nb\"\n,=A9", b"error truncated\n", REFUSED),
];

#[test]
fn more_functions(rt: HostRuntime) -> Result<(), Fail> {
    assert_rows(&rt, rt.alloc(), MORE_FUNCTIONS)
}

/// Sheets of constants, formulas, ranges and spills.
#[rattlefmt::skip]
const SHEETS: &[Row<'static>] = &[
    (b"", b"", DONE),
    (b"set A1 2\nset B1 40\nset C1 =A1+B1\nshow C1\n", b"ok\nok\nok\n42\n", DONE),
    (b"set A1 =9223372036854775807+1\nshow A1\nset A1 =9223372036854775808\nget A1\n", b"ok\n#NUM!\nerror number\n=9223372036854775807+1\n", REFUSED),
    (b"set A1 =9223372036854775807+1\nshow A1\n", b"ok\n#NUM!\n", DONE),
    (b"set A1 =SEQUENCE(3,1)\nset B1 =A1#*2\ncalc\noracle\nview A1:B3\n", b"ok\nok\nsettled 3\noracle 2\nA1 3x1 permitted\nB1 3x1 permitted\n1 2\n2 4\n3 6\n", DONE),
    (b"set A1 =SEQUENCE(3,1)\nset B1 =A1#*2\ncalc\noracle\nview A1:B3\nset A2 5\nview A1:B3\nwhy A1\nwhy B1\nclear A2\ncalc\n", b"ok\nok\nsettled 3\noracle 2\nA1 3x1 permitted\nB1 3x1 permitted\n1 2\n2 4\n3 6\nok\n#SPILL! #SPILL!\n      5       .\n      .       .\ncontent A2\nnone\nok\nsettled 3\n", DONE),
    (b"set A2 =SEQUENCE(1,3)\nset B1 =SEQUENCE(3,1)\noracle\nwhy A2\n", b"ok\nok\noracle 2\nB1 3x1 permitted\nA2 1x3 refused\nroot B1\n", DONE),
    (b"set A1 =IF(C1=0,SEQUENCE(1,3),5)\ncalc\nshow A1\nview A1:C1\noracle\nget A1\n", b"ok\nspent rounds A1\nspent rounds A1\nspent rounds A1\nspent rounds A1\n=IF(C1=0,SEQUENCE(1,3),5)\n", DONE),
    (b"set A9998 =SEQUENCE(3,1)\nshow A9998\nwhy A9998\nset A9998 =SEQUENCE(2,1)\nshow A9998\nwhy A9998\nset B1 =A9999+5\nshow B1\n", b"ok\n#SPILL!\nedge\nok\n1\npermitted\nok\n7\n", DONE),
    (b"import A1 14\n-7,\"a\nb\"\n,=A9\nlist\n", b"ok\nlist 3\nset A1 -7\nset B1 \"a\\nb\"\nset B2 \"=A9\"\n", DONE),
    (b"set A1 =SEQUENCE(3,1)\r\nset B1 =A1#*2\r\ncalc\r\noracle\r\nview A1:B3", b"ok\nok\nsettled 3\noracle 2\nA1 3x1 permitted\nB1 3x1 permitted\n1 2\n2 4\n3 6\n", DONE),
    (b"set A1 = 1 + ( 2*3 )\nget A1\nset A1 =(1+2)+3\nget A1\n", b"ok\n=1+2*3\nok\n=(1+2)+3\n", DONE),
    (b"quit\nfoo\n", b"bye\n", DONE),
    (b"set A1 =B1+1\nset B1 =A1\nshow A1\nshow C1\nset A1 07\nshow B1\nshow A0\nset A1 =(1)\n", b"ok\nok\n#CYCLE!\n.\nok\n7\nerror address\nok\n", REFUSED),
    (b"import A1 5\n\xef\xbb\xbf7\nshow A1\n", b"ok\n7\n", DONE),
    (b"set A1 = 1 + ( 2*3 )\nget A1\n", b"ok\n=1+2*3\n", DONE),
];

#[test]
fn sheets(rt: HostRuntime) -> Result<(), Fail> {
    assert_rows(&rt, rt.alloc(), SHEETS)
}

/// Cycles, copies of sheets, and what they spend.
#[rattlefmt::skip]
const COPIES: &[Row<'static>] = &[
    (b"set A1 =B1\nset B1 =A1\nset C1 =IFERROR(A1,7)\nshow A1\nshow B1\nshow C1\n", b"ok\nok\nok\n#CYCLE!\n#CYCLE!\n#CYCLE!\n", DONE),
    (b"set A1 =IF(TRUE,1,B1)\nset B1 =A1\nshow A1\nshow B1\n", b"ok\nok\n1\n1\n", DONE),
    (b"set A1 3\nset B1 4\nset C1 =A1*A1+B1*B1\nset E1 =G(A1:C1,A1,6)\nview E1:G1\nshow C1\n", b"ok\nok\nok\nok\n6 4 52\n25\n", DONE),
    (b"set A1 0\nset B1 =IF(A1=0,0,A1+VIEW(UPDATE(SHEET(A1:B1),A1,A1-1),B1))\nset D1 =VIEW(UPDATE(SHEET(A1:B1),A1,63),B1)\nshow D1\n", b"ok\nok\nok\n2016\n", DONE),
    (b"set A1 0\nset B1 =IF(A1=0,0,A1+VIEW(UPDATE(SHEET(A1:B1),A1,A1-1),B1))\nset D1 =VIEW(UPDATE(SHEET(A1:B1),A1,95),B1)\nshow D1\n", b"ok\nok\nok\n4560\n", DONE),
    (b"set A1 0\nset B1 =IF(A1=0,0,A1+VIEW(UPDATE(SHEET(A1:B1),A1,A1-1),B1))\nset D1 =VIEW(UPDATE(SHEET(A1:B1),A1,96),B1)\nshow D1\n", b"ok\nok\nok\nspent depth D1\n", DONE),
    (b"set A1 1\nset B1 =C1+A1\nset C1 =G(A1:B1,A1,5)\nshow A1\nshow B1\nshow C1\ncalc\n", b"ok\nok\nok\n1\n#CYCLE!\n#CYCLE!\nsettled 1\n", DONE),
    (b"set A1 2\nset B1 =SEQUENCE(A1,1)\nset D1 =G(A1:B3,A1,3)\ncalc\nview D1:E3\nset D1 =G(A1:B3,A1,4)\nview D1:E3\n", b"ok\nok\nok\nsettled 2\n3 1\n. 2\n. 3\nok\n4 #SPILL!\n.       .\n.       .\n", DONE),
    (b"set A1 1\nset B1 =IF(A1>=262144,1,VIEW(UPDATE(SHEET(A1:B1),A1,2*A1),B1)+VIEW(UPDATE(SHEET(A1:B1),A1,2*A1),B1))\nshow B1\n", b"ok\nok\n262144\n", DONE),
    (b"set D1 0\nset A2 =SEQUENCE(1,3)\nset B1 =IF(D1=0,1,IF(ISERROR(ROWS(A2#)),1,SEQUENCE(3,1)))\nset F1 =G(A1:D3,D1,1)\ncalc\n", b"ok\nok\nok\nok\nspent copyrounds F1\n", DONE),
    (b"set D1 1\nset A2 =SEQUENCE(1,3)\nset B1 =IF(D1=0,1,IF(ISERROR(ROWS(A2#)),1,SEQUENCE(3,1)))\ncalc\n", b"ok\nok\nok\nspent rounds B1\n", DONE),
    (b"set A1 1\nset B1 =A1*10\nset C1 =VIEW(SHEET(B1),B1)\nset D1 =VIEW(UPDATE(SHEET(A1:C1),A1,7),C1)\nshow C1\nshow D1\n", b"ok\nok\nok\nok\n10\n70\n", DONE),
    (b"set A1 =SEQUENCE(2,1)+SEQUENCE(1,3)\nview A1:C2\nset A1 =SEQUENCE(2,1)+SEQUENCE(3,1)\nview A1:A3\n", b"ok\n2 3 4\n3 4 5\nok\n   2\n   4\n#N/A\n", DONE),
    (b"set A1 =THIS()\nshow A1\nset A1 =SHEET(B1)\nshow A1\n", b"ok\n#REF!\nok\nsheet(B1:B1)\n", DONE),
    (b"set A3 =G(A1:G1,A1,SEQUENCE(100,100),B1,SEQUENCE(100,100),C1,SEQUENCE(100,100),D1,SEQUENCE(100,100),E1,SEQUENCE(100,100),F1,SEQUENCE(100,100),G1,SEQUENCE(100,100))\nshow A3\nset A3 =G(A1:F1,A1,SEQUENCE(100,100),B1,SEQUENCE(100,100),C1,SEQUENCE(100,100),D1,SEQUENCE(100,100),E1,SEQUENCE(100,100),F1,SEQUENCE(100,100))\nview A3:B3\n", b"ok\n#SIZE!\nok\n#SPILL! #SPILL!\n", DONE),
    (b"set A3 =G(A1:G1,A1,SEQUENCE(100,100),B1,SEQUENCE(100,100),C1,SEQUENCE(100,100),D1,SEQUENCE(100,100),E1,SEQUENCE(100,100),F1,SEQUENCE(100,100),G1,SEQUENCE(100,100))\nshow A3\n", b"ok\n#SIZE!\n", DONE),
];

#[test]
fn copies(rt: HostRuntime) -> Result<(), Fail> {
    assert_rows(&rt, rt.alloc(), COPIES)
}

/// What a calculation shows one by one, and the budgets that it spends.
#[rattlefmt::skip]
const BUDGETS: &[Row<'static>] = &[
    (b"set A1 =SEQUENCE(3,1)\nset B1 =A1#*2\ncalc\noracle\nshow A1\nshow B1\nshow A2\nshow B2\nshow A3\nshow B3\n", b"ok\nok\nsettled 3\noracle 2\nA1 3x1 permitted\nB1 3x1 permitted\n1\n2\n2\n4\n3\n6\n", DONE),
    (b"set A1 =IF(C1=0,SEQUENCE(1,3),5)\ncalc\nshow A1\noracle\nget A1\n", b"ok\nspent rounds A1\nspent rounds A1\nspent rounds A1\n=IF(C1=0,SEQUENCE(1,3),5)\n", DONE),
    (b"set A1 0\nset B1 =IF(A1=0,0,A1+VIEW(UPDATE(SHEET(A1:B1),A1,A1-1),B1))\nset D1 =VIEW(UPDATE(SHEET(A1:B1),A1,64),B1)\nshow D1\n", b"ok\nok\nok\n2080\n", DONE),
    (b"set A1 1\nset B1 =IF(A1>=1024,1,VIEW(UPDATE(SHEET(A1:B1),A1,2*A1),B1)+VIEW(UPDATE(SHEET(A1:B1),A1,2*A1+1),B1))\nshow B1\n", b"ok\nok\n1024\n", DONE),
];

#[test]
fn budgets(rt: HostRuntime) -> Result<(), Fail> {
    assert_rows(&rt, rt.alloc(), BUDGETS)
}

/// Refused commands.
#[rattlefmt::skip]
const REFUSALS: &[Row<'static>] = &[
    (b"show \xff\n", b"error utf8\n", REFUSED),
    (b"foo\nset A1\nlist x\nimport A1 07\n", b"error command\nerror command\nerror command\nerror command\n", REFUSED),
    (b"import A1 1048577\n", b"error payload\n", REFUSED),
    (b"import ZZZ1 2\n1\ncalc\n", b"error address\nsettled 1\n", REFUSED),
    (b"show A0\nshow A10000\nshow AAA1\n", b"error address\nerror address\nerror address\n", REFUSED),
    (b"view B2:A1\nview A1:B5001\n", b"error range\nerror range\n", REFUSED),
    (b"set A1 =$A1\nset A1 =A0\n", b"error token\nerror token\n", REFUSED),
    (b"set A1 =9223372036854775808\n", b"error number\n", REFUSED),
    (b"set A1 =\"a\nset A1 \"a\nset A1 =\"\\q\"\n", b"error text\nerror text\nerror text\n", REFUSED),
    (b"set A1 =\"a\nset A1 =\"\\q\"\n", b"error text\nerror text\n", REFUSED),
    (b"set A1 =(((((((((((((((((((((((((((((((((((((((((((((((((((((((((((((((((1)))))))))))))))))))))))))))))))))))))))))))))))))))))))))))))))))\nset A1 =---------1\n", b"error deep\nerror deep\n", REFUSED),
    (b"set A1 =1 2\nset A1 =1+\nset A1 =1=2=3\n", b"error syntax\nerror syntax\nerror syntax\n", REFUSED),
    (b"set A1 =SUM(A1:ZZ9999)\nset A1 =B1:A1\n", b"error range\nerror range\n", REFUSED),
    (b"set A1 =FOO(1)\nset A1 =x\nset A1 =LET(x,x,1)\n", b"error name\nerror name\nerror name\n", REFUSED),
    (b"set A1 =ABS(1,2)\nset A1 =SHEET(1+2)\nset A1 =G(A1:B1,A1)\n", b"error arity\nerror arity\nerror arity\n", REFUSED),
    (b"import A1 1\n\xff", b"error utf8\n", REFUSED),
    (b"import ZZ1 4\n1,2\nget ZZ1\n", b"error grid\n.\n", REFUSED),
];

#[test]
fn refused_commands(rt: HostRuntime) -> Result<(), Fail> {
    assert_rows(&rt, rt.alloc(), REFUSALS)
}

/// Hostile lines.
#[rattlefmt::skip]
const HOSTILE: &[Row<'static>] = &[
    (b"\r\n\r\r\n\r", b"error command\n", REFUSED),
    (b"import A1 1\n\xfflist\n", b"error utf8\nlist 0\n", REFUSED),
    (b"set A1 =--------1\nshow A1\nset A1 =---------1\nset A1 =1--------1\nshow A1\nset A1 =1---------1\n", b"ok\n1\nerror deep\nok\n2\nerror deep\n", REFUSED),
    (b"set A1 =1\x00\nset A1 a\x00\nget A1\n", b"error token\nok\n\"a\\x00\"\n", REFUSED),
    (b"import A1 4\n1,\"alist\n", b"ok\nlist 2\nset A1 1\nset B1 \"a\"\n", DONE),
    (b"set A1 =((((((((((((((((((((((((((((((((((((((((((((((((((((((((((((((((1))))))))))))))))))))))))))))))))))))))))))))))))))))))))))))))))\nset A1 =(((((((((((((((((((((((((((((((((((((((((((((((((((((((((((((((((1)))))))))))))))))))))))))))))))))))))))))))))))))))))))))))))))))\n", b"ok\nerror deep\n", REFUSED),
    (b"import A1 1048577\nshow A1\n", b"error payload\n.\n", REFUSED),
    (b"set A1 \"\nset A1 =\"\n", b"error text\nerror text\n", REFUSED),
    (b"set A3 =UPDATE(UPDATE(UPDATE(UPDATE(UPDATE(UPDATE(UPDATE(SHEET(A1:G1),A1,SEQUENCE(100,100)),B1,SEQUENCE(100,100)),C1,SEQUENCE(100,100)),D1,SEQUENCE(100,100)),E1,SEQUENCE(100,100)),F1,SEQUENCE(100,100)),G1,SEQUENCE(5535,1))\nshow A3\nset A3 =UPDATE(UPDATE(UPDATE(UPDATE(UPDATE(UPDATE(UPDATE(SHEET(A1:G1),A1,SEQUENCE(100,100)),B1,SEQUENCE(100,100)),C1,SEQUENCE(100,100)),D1,SEQUENCE(100,100)),E1,SEQUENCE(100,100)),F1,SEQUENCE(100,100)),G1,SEQUENCE(5536,1))\nshow A3\n", b"ok\nsheet(A1:G1)\nok\n#SIZE!\n", DONE),
    (b"set A1 =((((((((((((((((((((((((((((((((((((((((((((((((((((((((((((((((1))))))))))))))))))))))))))))))))))))))))))))))))))))))))))))))))\n", b"ok\n", DONE),
];

#[test]
fn hostile_lines(rt: HostRuntime) -> Result<(), Fail> {
    assert_rows(&rt, rt.alloc(), HOSTILE)
}

/// Scripts with forecasts.
#[rattlefmt::skip]
const FORECASTS: &[Row<'static>] = &[
    // nothing is there
    (b"flow\n", b"yes 0\n", DONE),
    // arrays over arrays
    (b"set A1 =SEQUENCE(3,1)\nset B1 =A1#*2\nflow\ncalc\n", b"ok\nok\nyes 2\nsettled 3\n", DONE),
    // the same from right to left
    (b"set A1 =B1#*2\nset B1 =SEQUENCE(3,1)\nflow\n", b"ok\nok\nyes 2\n", DONE),
    // arrays that meet
    (b"set A2 =SEQUENCE(1,3)\nset B1 =SEQUENCE(3,1)\nflow\ncalc\n", b"ok\nok\nyes 2\nsettled 2\n", DONE),
    // a circle that no value takes
    (b"set A1 =IF(TRUE,1,B1)\nset B1 =A1\nflow\n", b"ok\nok\ncircle A1\n", DONE),
    // a calculation that is spent
    (b"set A1 =IF(C1=0,SEQUENCE(1,3),5)\nflow\ncalc\n", b"ok\ncircle A1\nspent rounds A1\n", DONE),
    // a formula that makes sheets
    (b"set A1 3\nset B1 4\nset C1 =A1*A1+B1*B1\nset E1 =G(A1:C1,A1,6)\nflow\n", b"ok\nok\nok\nok\nunknown E1\n", DONE),
    // before an edit, and behind it
    (b"set A1 7\nset B1 =A1+1\nflow\nset A1 =B1\nflow\nclear A1\nflow\n", b"ok\nok\nyes 0\nok\ncircle A1\nok\nyes 0\n", DONE),
    // one round more than the height
    (b"gridlet 2\nset A1 =SEQUENCE(2,1)\nset B1 =A1#+1\nset C1 =B1#+1\nflow\ncalc\n", b"ok\nok\nok\nok\nyes 3\nsettled 4\n", DONE),
    // the first cell of a circle is told, though the search comes to another circle before
    (b"set A1 =D4\nset D4 =E5\nset E5 =D4\nset B1 =C1\nset C1 =B1\nflow\nclear B1\nflow\n", b"ok\nok\nok\nok\nok\ncircle B1\nok\ncircle D4\n", DONE),
    // an area that is larger than the array, over a blank that is read
    (b"set A1 =TAKE(SEQUENCE(3,1),1,1)\nset B1 =A3\nflow\ncalc\nset A1 =TAKE(SEQUENCE(3,1)+A3,1,1)\nflow\ncalc\n", b"ok\nok\nyes 1\nsettled 2\nok\ncircle A1\nsettled 2\n", DONE),
    // areas past the grid
    (b"set A9999 =SEQUENCE(3,1)\nset ZZ1 =SEQUENCE(1,3)\nflow\ncalc\n", b"ok\nok\nyes 1\nsettled 2\n", DONE),
    // a blank under the area of its own reader, as an array and as a cell
    (b"set A1 =IFERROR(A2#,SEQUENCE(2,1))\nflow\ncalc\nset A1 =IFERROR(A2,SEQUENCE(2,1))\nflow\ncalc\n", b"ok\nyes 1\nsettled 2\nok\ncircle A1\nsettled 1\n", DONE),
    // a range that covers its own cell
    (b"set B2 =SUM(A1:C3)\nflow\ncalc\nset B2 =SUM(A1:C1)\nflow\n", b"ok\ncircle B2\nsettled 1\nok\nyes 0\n", DONE),
    // sheets that are never made, before a circle; the first of two
    (b"set A1 =A1\nset B1 =IF(TRUE,1,UPDATE(THIS(),A1,1))\nflow\nset A2 =SHEET(A1:A1)\nflow\nclear B1\nflow\nclear A2\nflow\n", b"ok\nok\nunknown B1\nok\nunknown B1\nok\nunknown A2\nok\ncircle A1\n", DONE),
    // behind a calculation that is spent
    (b"set A1 =IF(C1=0,SEQUENCE(1,3),5)\ncalc\nflow\nclear A1\nflow\ncalc\n", b"ok\nspent rounds A1\ncircle A1\nok\nyes 0\nsettled 1\n", DONE),
    // arrays over arrays, 15 to 18 times
    (b"set A1 =SEQUENCE(3,1)+T2\nset B1 =A1#\nset C1 =B1#\nset D1 =C1#\nset E1 =D1#\nset F1 =E1#\nset G1 =F1#\nset H1 =G1#\nset I1 =H1#\nset J1 =I1#\nset K1 =J1#\nset L1 =K1#\nset M1 =L1#\nset N1 =M1#\nset O1 =N1#\nset P1 =O1#\nflow\nset Q1 =P1#\nflow\ncalc\nset R1 =Q1#\nflow\nset S1 =R1#\nflow\n", b"ok\nok\nok\nok\nok\nok\nok\nok\nok\nok\nok\nok\nok\nok\nok\nok\nyes 16\nok\nyes 17\nsettled 18\nok\ncircle A1\nok\ncircle A1\n", DONE),
    // an array that rests on a later one that it takes the place of
    (b"set B1 =TRANSPOSE(A2#)\nset A2 =SEQUENCE(1,3)\nflow\ncalc\n", b"ok\nok\ncircle B1\nspent rounds B1\n", DONE),
    // constants take part in nothing
    (b"set A1 =SEQUENCE(3,1)+A2\nset A2 5\nflow\ncalc\nclear A2\nflow\n", b"ok\nok\nyes 1\nsettled 2\nok\ncircle A1\n", DONE),
    // a word too many
    (b"flow x\nflow \nflow A1\nFLOW\n flow\n", b"error command\nerror command\nerror command\nerror command\nerror command\n", REFUSED),
];

#[test]
fn forecasts(rt: HostRuntime) -> Result<(), Fail> {
    assert_rows(&rt, rt.alloc(), FORECASTS)
}

/// Scripts with arrays whose shapes are told by their formulas.
#[rattlefmt::skip]
const SHAPES: &[Row<'static>] = &[
    // integers as they are written
    (b"set A1 =SEQUENCE(2,3)+D1\nflow\nset A1 =SEQUENCE(2,3)+C2\nflow\nset A1 =SEQUENCE((2),3)+D1\nflow\nset A1 =SEQUENCE((2),3)+C2\nflow\nset A1 =SEQUENCE(-1,2)+C1\nflow\nset A1 =SEQUENCE(1+1,3)+D1\nflow\nset A1 =SEQUENCE(0,1)+B1\nflow\nset A1 =SEQUENCE(10000,1)+B1\nflow\nset A1 =SEQUENCE(10001,1)+B1\nflow\nset A1 =SEQUENCE(1,1)+A2\nflow\n", b"ok\nyes 1\nok\ncircle A1\nok\nyes 1\nok\ncircle A1\nok\ncircle A1\nok\ncircle A1\nok\ncircle A1\nok\nyes 1\nok\ncircle A1\nok\nyes 1\n", DONE),
    // side by side, and one under the other
    (b"set A1 =HSTACK(SEQUENCE(2,1)+A3,SEQUENCE(1,2)+D1)\nflow\nset A1 =HSTACK(SEQUENCE(2,1)+C2,SEQUENCE(1,2))\nflow\nset A1 =VSTACK(SEQUENCE(1,2)+C1,SEQUENCE(2,1)+A4)\nflow\nset A1 =VSTACK(SEQUENCE(1,2)+B3,SEQUENCE(2,1))\nflow\nset A1 =HSTACK(1,2+C1)\nflow\nset A1 =VSTACK(1,2+A2)\nflow\n", b"ok\nyes 1\nok\ncircle A1\nok\nyes 1\nok\ncircle A1\nok\nyes 1\nok\ncircle A1\n", DONE),
    // more than an array may have
    (b"set A1 =VSTACK(SEQUENCE(6000,1),SEQUENCE(6000,1))+B1\nflow\nset A1 =VSTACK(SEQUENCE(6000,1),SEQUENCE(6000,1))+A20\nflow\nset A1 =HSTACK(SEQUENCE(1,6000),SEQUENCE(1,6000))+A2\nflow\nset A1 =HSTACK(SEQUENCE(1,6000),SEQUENCE(1,6000))+T1\nflow\nset A1 =TRANSPOSE(HSTACK(SEQUENCE(1,6000),SEQUENCE(1,6000)))+B1\nflow\n", b"ok\nyes 1\nok\ncircle A1\nok\nyes 1\nok\ncircle A1\nok\nyes 1\n", DONE),
    // a name that is not used, one that is, and one that another hides
    (b"set A1 =LET(x,A1,3)\nflow\nset A1 =LET(x,SEQUENCE(3,1),A2)\nflow\nset A1 =LET(x,SEQUENCE(3,1),x+A4)\nflow\nset A1 =LET(x,SEQUENCE(3,1),x+A3)\nflow\nset A1 =LET(x,SEQUENCE(3,1),LET(x,1,x+A3))\nflow\nset A1 =LET(x,SEQUENCE(3,1),LET(y,x,y)+A3)\nflow\n", b"ok\ncircle A1\nok\nyes 0\nok\nyes 1\nok\ncircle A1\nok\nyes 0\nok\ncircle A1\n", DONE),
    // sheets that are this one
    (b"set A1 =THIS()\nflow\nset A1 =IFERROR(THIS(),SEQUENCE(2,1))\nflow\nset A1 =IFERROR(THIS(),A2)\nflow\n", b"ok\nyes 0\nok\nyes 1\nok\nyes 0\n", DONE),
    // what turns arrays, and takes of them
    (b"set A1 =TRANSPOSE(SEQUENCE(2,3))+A4+C1\nflow\nset A1 =TRANSPOSE(SEQUENCE(2,3))+B3\nflow\nset A1 =UNIQUE(SEQUENCE(3,1))+B1\nflow\nset A1 =UNIQUE(SEQUENCE(3,1))+A3\nflow\nset A1 =TAKE(5,1,1)+A2\nflow\nset A1 =TAKE(SEQUENCE(3,1),SEQUENCE(9,9),1)+A4\nflow\nset A1 =DROP(SEQUENCE(3,1),2,0)+A3\nflow\nset A1 =FILTER(SEQUENCE(2,1),SEQUENCE(9,1)>0)+A3\nflow\n", b"ok\nyes 1\nok\ncircle A1\nok\nyes 1\nok\ncircle A1\nok\nyes 1\nok\nyes 1\nok\ncircle A1\nok\nyes 1\n", DONE),
    // what is one cell of arrays
    (b"set A1 =SUM(SEQUENCE(9,9))+A2\nflow\nset A1 =INDEX(SEQUENCE(9,9),1,1)+A2\nflow\nset A1 =LOOKUP(1,SEQUENCE(9,1),SEQUENCE(9,1))+A2\nflow\nset A1 =ROWS(SEQUENCE(9,9))+COLUMNS(SEQUENCE(9,9))+A2\nflow\nset A1 =MIN(SEQUENCE(9,1),MAX(SEQUENCE(9,1)))+COUNT(SEQUENCE(9,1))+A2\nflow\nset A1 =IF(AND(SEQUENCE(9,1)>0),A2,OR(SEQUENCE(9,1)>0))\nflow\nset A1 =ABS(NA())+A2\nflow\nset A1 =LEN(SEQUENCE(9,1))+A2\nflow\nset A1 =-SEQUENCE(1,9)&B1\nflow\nset A1 =SEQUENCE(9,1)=A2\nflow\n", b"ok\nyes 0\nok\nyes 0\nok\nyes 0\nok\nyes 0\nok\nyes 0\nok\nyes 0\nok\nyes 0\nok\ncircle A1\nok\ncircle A1\nok\ncircle A1\n", DONE),
    // ranges
    (b"set A1 =C1:D9\nflow\nset A1 =C1:D9+B1\nflow\nset A1 =C1:C9+B1\nflow\nset A1 =COUNT(A2:B9)\nflow\n", b"ok\nyes 1\nok\ncircle A1\nok\nyes 1\nok\nyes 0\n", DONE),
    // arrays of cells that have none
    (b"set C1 5\nset C3 =SUM(A9:B9)\nset C4 =SEQUENCE(3,1)\nset A1 =C1#\nflow\nset A1 =C2#\nflow\nset A1 =C2#+C2\nflow\nset A1 =C3#\nflow\nset A1 =C4#\nflow\nset A1 =C4#+A3\nflow\nset A1 =C4#+A4\nflow\n", b"ok\nok\nok\nok\nyes 1\nok\nyes 1\nok\nyes 1\nok\nyes 1\nok\nyes 2\nok\ncircle A1\nok\nyes 2\n", DONE),
    // arrays that choose, in version 1
    (b"set A1 =IF(SEQUENCE(2,1)=1,1,2)\nset B1 =A2\nset D1 =IFERROR(1/SEQUENCE(1,2),SEQUENCE(2,1))\nset F1 =E2\nflow\ncalc\nset A1 =IF(TRUE,1,SEQUENCE(2,1)+A2)\nset D1 =IFERROR(1,SEQUENCE(2,1)+D3)\nflow\n", b"ok\nok\nok\nok\nyes 1\nsettled 2\nok\nok\ncircle A1\n", DONE),
    // the same in version 2
    (b"gridlet 2\nset A1 =IF(SEQUENCE(2,1)=1,1,2)\nset B1 =A2\nset D1 =IFERROR(1/SEQUENCE(1,2),SEQUENCE(2,1))\nset F1 =E2\nflow\ncalc\nset A1 =IF(TRUE,1,SEQUENCE(2,1)+A3)\nset D1 =IFERROR(1,SEQUENCE(2,1)+D3)\nflow\n", b"ok\nok\nok\nok\nok\nyes 1\nsettled 2\nok\nok\nyes 1\n", DONE),
    // each area over a blank counts
    (b"set A1 =SEQUENCE(3,3)\nset B2 =SEQUENCE(2,2)\nset E1 =SEQUENCE(1,1)+C3\nflow\ncalc\n", b"ok\nok\nok\nyes 3\nsettled 2\n", DONE),
    // arrays that meet one after another
    (b"set A1 =SEQUENCE(2,2)\nset B2 =SEQUENCE(2,2)\nset C3 =SEQUENCE(2,2)\nflow\ncalc\n", b"ok\nok\nok\nyes 3\nsettled 2\n", DONE),
];

#[test]
fn shapes(rt: HostRuntime) -> Result<(), Fail> {
    assert_rows(&rt, rt.alloc(), SHAPES)
}

/// Scripts of replicas, and of steps that are undone and done again.
#[rattlefmt::skip]
const REPLICAS: &[Row<'static>] = &[
    // a replica takes the edits of others, and exports its registers
    (b"site 2\nset A1 7\nedit 2 1 A1 6\nshow A1\nset B1 =A1\nexport\n", b"ok\nok\nok\n6\nok\nexport 2\nedit 2 1 A1 6\nedit 3 2 B1 =A1\n", DONE),
    // in whatever order they come
    (b"site 3\nedit 3 2 B1 =A1\nedit 1 2 A1 7\nedit 2 1 A1 6\nedit 1 2 A1 7\nshow B1\nedit 2 1 A1 8\nclear A1\nexport\n", b"ok\nok\nok\nok\nok\n6\nerror conflict\nok\nexport 2\nedit 4 3 A1\nedit 3 2 B1 =A1\n", REFUSED),
    // what these two export is taken by another one, forth and back
    (b"site 4\nedit 2 1 A1 6\nedit 3 2 B1 =A1\nshow B1\nexport\n", b"ok\nok\nok\n6\nexport 2\nedit 2 1 A1 6\nedit 3 2 B1 =A1\n", DONE),
    (b"site 4\nedit 3 2 B1 =A1\nedit 2 1 A1 6\nedit 3 2 B1 =A1\nshow B1\nexport\n", b"ok\nok\nok\nok\n6\nexport 2\nedit 2 1 A1 6\nedit 3 2 B1 =A1\n", DONE),
    (b"site 4\nedit 4 3 A1\nedit 3 2 B1 =A1\nget B1\nexport\n", b"ok\nok\nok\n=A1\nexport 2\nedit 4 3 A1\nedit 3 2 B1 =A1\n", DONE),
    (b"site 4\nedit 3 2 B1 =A1\nedit 4 3 A1\nedit 2 1 A1 6\nget B1\nexport\n", b"ok\nok\nok\nok\n=A1\nexport 2\nedit 4 3 A1\nedit 3 2 B1 =A1\n", DONE),
    // all edits of both, in either order
    (b"site 4\nedit 2 1 A1 6\nedit 3 2 B1 =A1\nedit 4 3 A1\nedit 3 2 B1 =A1\nlist\n", b"ok\nok\nok\nok\nok\nlist 1\nset B1 =A1\n", DONE),
    (b"site 4\nedit 3 2 B1 =A1\nedit 4 3 A1\nedit 3 2 B1 =A1\nedit 2 1 A1 6\nlist\n", b"ok\nok\nok\nok\nok\nlist 1\nset B1 =A1\n", DONE),
    // a replica takes no edit of time 0
    (b"site 1\nedit 0 1 A1 5\nlist\n", b"ok\nerror stamp\nlist 0\n", REFUSED),
    // at the last time there is no next stamp
    (b"site 1\nedit 1000000000000 2 A1 5\nset B1 1\nclear Z9\nimport C1 1\n0\nset B1 =(\nedit 1000000000000 1 A1 6\nedit 1000000000000 3 A1 7\nexport\n", b"ok\nok\nerror stamp\nerror stamp\nerror stamp\nerror syntax\nok\nok\nexport 1\nedit 1000000000000 3 A1 7\n", REFUSED),
    // which fault comes first
    (b"edit 1 1 A1 =(\nedit 0 1 A0 5\nedit 0 1 A1 =(\nedit 1 1 A1 5\nedit 1 1 A1 \nedit 1 1 A1  x\nedit 01 1 A1 5\nedit 1 65536 A1 5\nsite 65536\nsite 07\nsite 1 \nexport x\nundo 1\nexport\n", b"error syntax\nerror address\nerror stamp\nerror site\nerror command\nerror site\nerror command\nerror stamp\nerror command\nerror command\nerror command\nerror command\nerror command\nerror site\n", REFUSED),
    // a script becomes a replica while its sheet is empty, and then nothing is undone
    (b"set A1 1\nsite 1\nclear A1\nsite 1\nundo\nredo\nset A1 2\nsite 2\nclear B1:C2\nexport\n", b"ok\nerror site\nok\nok\nerror site\nerror site\nok\nerror site\nok\nexport 1\nedit 1 1 A1 2\n", REFUSED),
    // an import is one edit for each address, all with one stamp
    (b"site 9\nimport B2 7\n5,6\n,7\nset B2 5\nedit 2 9 B2 5\nedit 2 9 B2 6\nedit 2 9 B2\nclear A1:Z9\nedit 3 1 A1 =1+2\nedit 3 1 A1 = 1 + 2\nedit 3 1 A1 =2+1\nexport\n", b"ok\nok\nok\nok\nerror conflict\nerror conflict\nok\nok\nok\nerror conflict\nexport 4\nedit 3 1 A1 =1+2\nedit 3 9 B2\nedit 3 9 C2\nedit 3 9 C3\n", REFUSED),
    // the next stamp is behind the greatest time, and an export has no version line
    (b"gridlet 2\nsite 5\nedit 7 1 A1\nset A1 3\nlist\nexport\n", b"ok\nok\nok\nok\nlist 1\ngridlet 2\nset A1 3\nexport 1\nedit 8 5 A1 3\n", DONE),
    // steps are undone and done again
    (b"set A1 1\nset A1 =B1\nclear A1\nundo\nget A1\nundo\nget A1\nredo\nget A1\nundo\nundo\nundo\n", b"ok\nok\nok\nok\n=B1\nok\n1\nok\n=B1\nok\nok\nerror undo\n", REFUSED),
    // an import is one step
    (b"set A1 =1+1\nimport A1 7\n5,6\n,7\nundo\nlist\nredo\nlist\nset A1 =(\nundo\nundo\nundo\n", b"ok\nok\nok\nlist 1\nset A1 =1+1\nok\nlist 3\nset A1 5\nset B1 6\nset B2 7\nerror syntax\nok\nok\nerror undo\n", REFUSED),
    (b"import A1 14\n-7,\"a\nb\"\n,=A9\nundo\nlist\n", b"ok\nok\nlist 0\n", DONE),
    // a new edit drops what was undone
    (b"set A1 1\nundo\nset B1 2\nredo\nlist\n", b"ok\nok\nok\nerror redo\nlist 1\nset B1 2\n", REFUSED),
];

#[test]
fn replicas_and_undo(rt: HostRuntime) -> Result<(), Fail> {
    assert_rows(&rt, rt.alloc(), REPLICAS)
}

/// Scripts with explanations.
#[rattlefmt::skip]
const EXPLANATIONS: &[Row<'static>] = &[
    // arrays and what is read of them; an address that no key decides
    (b"set A1 =SEQUENCE(2,1)\nset B1 =A2+1\nexplain B1\nexplain Z9\n", b"ok\nok\nexplain 2 0\nA1 2x1\nB1 3\nshown 3\naccepted\nexplain 0 0\nshown .\naccepted\n", DONE),
    // a circle
    (b"set A1 =B1\nset B1 =A1\nset C1 =IFERROR(A1,7)\nexplain C1\n", b"ok\nok\nok\nexplain 0 3\nC1 #CYCLE!\nA1 #CYCLE!\nB1 #CYCLE!\nshown #CYCLE!\naccepted\n", DONE),
    // a copy that settles, and an address under an array
    (b"set A1 3\nset B1 4\nset C1 =A1*A1+B1*B1\nset E1 =G(A1:C1,A1,6)\nexplain E1\nexplain G1\n", b"ok\nok\nok\nok\nexplain 3 0\ncopy C1 52\nsettle A1:C1 0\nE1 1x3\nshown 6\naccepted\nexplain 3 0\ncopy C1 52\nsettle A1:C1 0\nE1 1x3\nshown 52\naccepted\n", DONE),
    // a circle through a copy
    (b"set A1 1\nset B1 =C1+A1\nset C1 =G(A1:B1,A1,5)\nexplain C1\n", b"ok\nok\nok\nexplain 0 3\nC1 #CYCLE!\nsettle A1:B1 #CYCLE!\ncopy B1 #CYCLE!\nshown #CYCLE!\naccepted\n", DONE),
    // constants
    (b"set A1 5\nset B1 \"a\"\nexplain A1\nexplain B1\n", b"ok\nok\nexplain 0 0\nshown 5\naccepted\nexplain 0 0\nshown \"a\"\naccepted\n", DONE),
    // an array that is refused
    (b"set A1 =SEQUENCE(3,1)\nset A2 5\nexplain A1\nexplain A3\n", b"ok\nok\nexplain 1 0\nA1 3x1\nshown #SPILL!\naccepted\nexplain 0 0\nshown .\naccepted\n", DONE),
    // an array of one cell, and a blank
    (b"set A1 =SEQUENCE(1,1)\nexplain A1\nset B1 =C1\nexplain B1\n", b"ok\nexplain 1 0\nA1 1x1\nshown 1\naccepted\nok\nexplain 1 0\nB1 .\nshown .\naccepted\n", DONE),
    // a circle below a cell
    (b"set A1 =B1\nset B1 =C1\nset C1 =B1\nexplain A1\n", b"ok\nok\nok\nexplain 0 3\nA1 #CYCLE!\nB1 #CYCLE!\nC1 #CYCLE!\nshown #CYCLE!\naccepted\n", DONE),
    // a note beside a circle
    (b"set A1 =1+1\nset B1 =A1+C1\nset C1 =B1\nexplain B1\n", b"ok\nok\nok\nexplain 1 2\nA1 2\nB1 #CYCLE!\nC1 #CYCLE!\nshown #CYCLE!\naccepted\n", DONE),
    // a text that a table would cut
    (b"set A1 =\"abcdefghijklmnopqrstuvwxyz\"\nexplain A1\n", b"ok\nexplain 1 0\nA1 \"abcdefghijklmnopqrstuvwxyz\"\nshown \"abcdefghijklmnopqrstuvwxyz\"\naccepted\n", DONE),
    // before an edit, and behind it
    (b"gridlet 2\nset B1 =A1+1\nexplain B1\nset A1 4\nexplain B1\n", b"ok\nok\nexplain 1 0\nB1 1\nshown 1\naccepted\nok\nexplain 1 0\nB1 5\nshown 5\naccepted\n", DONE),
    // a calculation that is spent
    (b"set A1 =IF(C1=0,SEQUENCE(1,3),5)\nexplain A1\nexplain D1\n", b"ok\nspent rounds A1\nspent rounds A1\n", DONE),
    // a key that loops, and the notes that it read before
    (b"set A1 =B1+C1\nset B1 =D1+1\nset C1 =C1\nset D1 =2*3\nexplain A1\n", b"ok\nok\nok\nok\nexplain 2 2\nD1 6\nB1 7\nA1 #CYCLE!\nC1 #CYCLE!\nshown #CYCLE!\naccepted\n", DONE),
    // what is not chosen is not read
    (b"set A1 =IF(TRUE,1,B1)\nset B1 =A1\nexplain A1\nexplain B1\n", b"ok\nok\nexplain 1 0\nA1 1\nshown 1\naccepted\nexplain 2 0\nA1 1\nB1 1\nshown 1\naccepted\n", DONE),
    // an array in a copy, by each of its rounds
    (b"set A1 =SEQUENCE(2,1)*B1\nset D1 =VIEW(UPDATE(SHEET(A1:B3),B1,5),A2)\nexplain D1\n", b"ok\nok\nexplain 4 0\ncopy A1 2x1\ncopy A1 2x1\nsettle A1:B3 1\nD1 10\nshown 10\naccepted\n", DONE),
    // an error, a sheet value, a truth value, and a range row by row
    (b"set A1 =1/0\nset B1 =SHEET(A1:A1)\nset A2 =1=1\nset B2 =\"b\"\nset C1 =COUNT(A1:B2)\nexplain C1\nexplain B1\n", b"ok\nok\nok\nok\nok\nexplain 5 0\nA1 #DIV/0!\nB1 sheet(A1:A1)\nA2 TRUE\nB2 \"b\"\nC1 0\nshown 0\naccepted\nexplain 1 0\nB1 sheet(A1:A1)\nshown sheet(A1:A1)\naccepted\n", DONE),
    // an array past the grid
    (b"set A9999 =SEQUENCE(2,1)\nexplain A9999\n", b"ok\nexplain 1 0\nA9999 2x1\nshown #SPILL!\naccepted\n", DONE),
    // in version 1 an array chooses nothing, and in version 2 both
    (b"set A1 =IF(SEQUENCE(1,2)>0,1,A1)\nexplain A1\n", b"ok\nexplain 1 0\nA1 #VALUE!\nshown #VALUE!\naccepted\n", DONE),
    (b"gridlet 2\nset A1 =IF(SEQUENCE(1,2)>0,1,A1)\nexplain A1\n", b"ok\nok\nexplain 0 1\nA1 #CYCLE!\nshown #CYCLE!\naccepted\n", DONE),
    // no place, more than one, and none of the grid
    (b"explain\nexplain \nexplain A1 B1\nexplain  A1\nEXPLAIN A1\nexplain A0\nexplain A1:A1\nexplain a1\n", b"error command\nerror command\nerror command\nerror command\nerror command\nerror address\nerror address\nerror address\n", REFUSED),
];

#[test]
fn explanations(rt: HostRuntime) -> Result<(), Fail> {
    assert_rows(&rt, rt.alloc(), EXPLANATIONS)
}

/// As many demanded keys as may be known, and one more; and twice as many.
#[rattlefmt::skip]
const WORK: &[Row<'static>] = &[
    (b"set A1 1\nset B1 =IF(A1>=125000,1,VIEW(UPDATE(SHEET(A1:B1),A1,2*A1),B1)+VIEW(UPDATE(SHEET(A1:B1),A1,2*A1+1),B1))\nset C1 =1\nset D1 =1\nset E1 =1\nshow B1\nset F1 =1\nshow B1\n", b"ok\nok\nok\nok\nok\n125000\nok\nspent work\n", DONE),
    (b"set A1 1\nset B1 =IF(A1>=262144,1,VIEW(UPDATE(SHEET(A1:B1),A1,2*A1),B1)+VIEW(UPDATE(SHEET(A1:B1),A1,2*A1+1),B1))\nshow B1\n", b"ok\nok\nspent work\n", DONE),
];

#[test]
fn work_by_the_first(rt: HostRuntime) -> Result<(), Fail> {
    assert_rows_by(&rt, rt.alloc(), WORK, "first")
}

#[test]
fn work_by_the_last(rt: HostRuntime) -> Result<(), Fail> {
    assert_rows_by(&rt, rt.alloc(), WORK, "last")
}

#[test]
fn work_by_turns(rt: HostRuntime) -> Result<(), Fail> {
    assert_rows_by(&rt, rt.alloc(), WORK, "turn")
}
