//! What keys, oracles and calculations come to.
ghost use Rattle.laws_calculus.specs.Calculus.{OneOutcome, OutcomesFit, AsksProper, DemandsProper};
ghost use Rattle.laws_calculus.specs.Calculus.{TestsAreExact, OnlyFactsMatter, NotesCoincide};
ghost use Rattle.laws_calculus.specs.Calculus.{KeptStayTrue, GrantGivesPermits, OnlyGrantGives};
ghost use Rattle.laws_calculus.specs.Calculus.{OneAnswer, OneShown, SettlesConsistently};
ghost use Rattle.laws_calculus.specs.Calculus.{SettlesShow};
ghost use Rattle.gl_calculus.specs.Calculation.Telling.{DifferencesTell, MeetsAtAddresses};
ghost use Rattle.laws_calculus.specs.Calculus.{PermitsApart, AllKept};
ghost use Rattle.laws_calculus.specs.Calculus.{NothingAsked};

/// What a key gives.
pub fn outcomes()
    ensures one { OneOutcome }
    ensures fit { OutcomesFit }
{}

/// What keys ask for.
pub fn proper_keys()
    ensures asked { AsksProper }
    ensures demanded { DemandsProper }
{}

/// Equality by structure.
pub fn structural_equality()
    ensures exact { TestsAreExact }
{}

/// What results depend on.
pub fn same_facts()
    ensures matter { OnlyFactsMatter }
    ensures coincide { NotesCoincide }
    ensures kept { KeptStayTrue }
{}

/// What permits are granted.
pub fn permits()
    ensures given { GrantGivesPermits }
    ensures only { OnlyGrantGives }
{}

/// What is kept from one round, or one calculation, for another.
pub fn kept()
    ensures tell { DifferencesTell }
    ensures apart { PermitsApart }
    ensures meet { MeetsAtAddresses }
    ensures all { AllKept }
    ensures nothing { NothingAsked }
{}

/// What a calculation comes to.
pub fn answers()
    ensures one { OneAnswer }
    ensures shown { OneShown }
    ensures consistent { SettlesConsistently }
    ensures shows { SettlesShow }
{}
