//! Addresses by the rule and by number, an oracle and sizes of one entry.
use gl_plane::{Addr, Permit, Sizes};
use std::alloc::Global;
use std::test::Fail;
use tests_common::{address, one_entry, size};

// The rule for addresses, said apart: one or two letters, then one to four digits that do not begin with 0.
fn is_address(text: &[u8]) -> bool {
    let letters = text.iter().take_while(|b| b.is_ascii_uppercase()).count();
    let digits = text.len() - letters;
    (letters == 1 || letters == 2)
        && 1 <= digits
        && digits <= 4
        && text[letters] != b'0'
        && text[letters..].iter().all(|b| b.is_ascii_digit())
}

/// How many texts of so many of five bytes there are.
const LENGTHS: &[(u32, u32)] = &[(0, 1), (1, 5), (2, 25), (3, 125), (4, 625), (5, 3125)];

/// The text of so many bytes with this number.
fn text_at(alloc: Global, length: u32, number: u32) -> Result<Vec<u8>, Fail> {
    let bytes = *b"AZ09a";
    let mut text = Vec::new(alloc);
    let mut rest = number;
    for _ in 0..length {
        text.push(bytes[(rest % 5) as usize])?;
        rest /= 5;
    }
    Ok(text)
}

/// The text is read exactly where the rule allows it, and written back as it was.
fn is_read_by_the_rule(alloc: Global, text: &[u8]) -> Result<bool, Fail> {
    let Some(a) = Addr::read(text) else {
        return Ok(!is_address(text));
    };
    let mut out = Vec::new(alloc);
    a.text(&mut out)?;
    Ok(is_address(text) && out.as_slice() == text)
}

/// The number of the first of so many texts of this length that is not, if there is one.
fn misread(alloc: Global, length: u32, texts: u32) -> Result<Option<u32>, Fail> {
    for number in 0..texts {
        if !is_read_by_the_rule(alloc, &text_at(alloc, length, number)?)? {
            return Ok(Some(number));
        }
    }
    Ok(None)
}

#[test]
fn addresses_are_read_by_the_rule(rt: HostRuntime) -> Result<(), Fail> {
    for (length, texts) in LENGTHS {
        let found = misread(rt.alloc(), *length, *texts)?;
        assert!(rt; found.is_none(), "{found:?} of {length}");
    }
    Ok(())
}

/// Addresses with the numbers of their columns and rows.
const NUMBERED: &[(&str, u16, u16)] = &[
    ("A1", 1, 1),
    ("Z26", 26, 26),
    ("AA1", 27, 1),
    ("AZ9", 52, 9),
    ("BA10", 53, 10),
    ("ZZ9999", 702, 9999),
];

#[test]
fn addresses_by_number(rt: HostRuntime) -> Result<(), Fail> {
    for (text, col, row) in NUMBERED {
        let a = address(text)?;
        assert!(rt; (a.col(), a.row()) == (*col, *row), "at {text}");
    }
    Ok(())
}

#[test]
fn an_oracle_of_one_entry(rt: HostRuntime) -> Result<(), Fail> {
    let root = address("B2")?;
    let oracle = one_entry(rt.alloc(), "B2", 2, 3, Permit::Permitted)?;
    assert!(rt; (oracle.len(), oracle.status(root)) == (1, Some(Permit::Permitted)));
    assert!(rt; oracle.cover(address("D3")?) == Some((root, 1, 2)));
    Ok(())
}

#[test]
fn sizes_of_one_array(rt: HostRuntime) -> Result<(), Fail> {
    let root = address("B2")?;
    let size = size(2, 3)?;
    let mut sizes = Sizes::new(rt.alloc());
    sizes.push(root, size)?;
    assert!(rt; sizes.at(0) == Some((root, size)));
    Ok(())
}
