//! Texts are read as one formula, and formulas are read back.
ghost use Rattle.laws_language.specs.Formulas.{OneFormula, OneFault, FormulaOrFault, PrintsBack};
ghost use Rattle.laws_language.specs.Formulas.{ReadsWellFormed, LetBinds};
ghost use Rattle.laws_language.specs.WellFormed.{WellFormedHasTokens, WellFormedParses};

/// A text is at most one formula, or has one first fault, and not both.
pub fn one_answer()
    ensures formula { OneFormula }
    ensures fault { OneFault }
    ensures apart { FormulaOrFault }
{}

/// What is read is well formed, and what is well formed is read from its canonical text.
pub fn well_formed()
    ensures reads { ReadsWellFormed }
    ensures tokens { WellFormedHasTokens }
    ensures parses { WellFormedParses }
{}

/// The canonical text of a formula that was read is read as this formula again, and is no longer than the text that it was read from.
pub fn prints_back()
    ensures { PrintsBack }
{}

/// The formula of a word and its arguments: `LET` of a variable and two more binds the variable, and all else is a call.
pub fn let_binds()
    ensures { LetBinds }
{}
