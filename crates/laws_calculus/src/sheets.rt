//! The laws of edits.
ghost use Rattle.laws_calculus.specs.Sheets.{SetsOne, SetsThese, ClearsThese};

/// What stands at an address after an edit of a sheet.
pub fn edit_laws()
    ensures one { SetsOne }
    ensures these { SetsThese }
    ensures cleared { ClearsThese }
{}
