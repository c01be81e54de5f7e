//! Over fit contents, sound keys have sound outcomes.
ghost use Rattle.laws_calculus.specs.Sound.{SoundOutcomes, SoundDemands, SoundReads};
ghost use Rattle.laws_calculus.specs.Sound.{WellFormedIsFit};
ghost use Rattle.laws_calculus.specs.Sound.{ProperIsFit};

/// What sound keys come to, and what they ask for.
pub fn sound_keys()
    ensures outcomes { SoundOutcomes }
    ensures demands { SoundDemands }
    ensures reads { SoundReads }
{}

/// Which contents are fit.
pub fn fit_contents()
    ensures formulas { WellFormedIsFit }
    ensures contents { ProperIsFit }
{}
