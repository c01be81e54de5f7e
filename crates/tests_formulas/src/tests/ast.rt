//! The canonical texts of formulas, and equal formulas.
use gl_ast::{Formula, Fun, Level, Op, print, same_formula};
use std::alloc::Global;
use std::rc::RcStr;
use std::test::Fail;
use tests_common::{address, range};

/// A chain of two operands.
fn two(alloc: Global, level: Level, f: Formula, op: Op, g: Formula) -> Result<Formula, Fail> {
    let mut rest = Vec::new(alloc);
    rest.push((op, g))?;
    Ok(Formula::Chain(level, Box::new(alloc, f)?, rest))
}

/// Eight `-` in a row, and one in parentheses.
fn minuses(alloc: Global) -> Result<Formula, Fail> {
    let mut f = Formula::Int(2);
    for _ in 0..8u32 {
        f = Formula::Neg(Box::new(alloc, f)?);
    }
    let product = two(alloc, Level::Prod, f, Op::Mul, Formula::Int(3))?;
    two(alloc, Level::Sum, Formula::Int(1), Op::Sub, product)
}

/// A text with escapes, and the forms that take no memory.
fn atoms(alloc: Global) -> Result<Formula, Fail> {
    let text = RcStr::from_str(alloc, "a\\\"\n\r\t\u{1}\u{7f}\u{20ac}")?;
    let mut all = Vec::new(alloc);
    all.push(Formula::Text(text))?;
    all.push(Formula::Bool(false))?;
    all.push(Formula::At(address("AA10")?))?;
    all.push(Formula::Spill(address("Z1")?))?;
    all.push(Formula::Area(range("AA10:ZZ9999")?))?;
    Ok(Formula::Call(Fun::VStack, all))
}

/// A variable bound to a number, and a comparison.
fn binding(alloc: Global) -> Result<Formula, Fail> {
    let x = RcStr::from_str(alloc, "x")?;
    let joined = two(
        alloc,
        Level::Cat,
        Formula::Var(x.clone()?),
        Op::Join,
        Formula::Int(2),
    )?;
    let less = Formula::Compare(
        Op::Le,
        Box::new(alloc, joined)?,
        Box::new(alloc, Formula::Int(3))?,
    );
    Ok(Formula::Let(x, Box::new(alloc, Formula::Int(5))?, Box::new(alloc, less)?))
}

/// A sum of three numbers, the first two in parentheses.
fn grouped(alloc: Global) -> Result<Formula, Fail> {
    let first = two(alloc, Level::Sum, Formula::Int(1), Op::Add, Formula::Int(2))?;
    two(alloc, Level::Sum, first, Op::Add, Formula::Int(3))
}

/// The formula has this canonical text.
fn is_printed(alloc: Global, f: Formula, want: &str) -> Result<bool, Fail> {
    Ok(print(alloc, &f)?.as_str() == want)
}

/// The formula is the same as eight `-` in a row.
fn is_minuses(alloc: Global, f: Formula) -> Result<bool, Fail> {
    Ok(same_formula(&f, &minuses(alloc)?))
}

#[test]
fn canonical_texts(rt: HostRuntime) -> Result<(), Fail> {
    let alloc = rt.alloc();
    assert!(rt; is_printed(alloc, minuses(alloc)?, "1--------(-2)*3")?);
    let atoms_text = "VSTACK(\"a\\\\\\\"\\n\\r\\t\\x01\\x7F\u{20ac}\",FALSE,AA10,Z1#,AA10:ZZ9999)";
    assert!(rt; is_printed(alloc, atoms(alloc)?, atoms_text)?);
    assert!(rt; is_printed(alloc, grouped(alloc)?, "(1+2)+3")?);
    assert!(rt; is_printed(alloc, binding(alloc)?, "LET(x,5,x&2<=3)")?);
    Ok(())
}

#[test]
fn equal_formulas(rt: HostRuntime) -> Result<(), Fail> {
    let alloc = rt.alloc();
    assert!(rt; is_minuses(alloc, minuses(alloc)?)?);
    assert!(rt; !is_minuses(alloc, binding(alloc)?)?);
    Ok(())
}
