//! Demand-driven evaluation in any order, with remembered results.
ghost use Rattle.laws_calculus.specs.Query.{OutcomesStay, OneOutcome, NoOutcomeOfLoops, OneLevel};
ghost use Rattle.laws_calculus.specs.Query.{OneWalk, LevelNotes, LevelNeeds, AnyPicks};
ghost use Rattle.laws_calculus.specs.Query.{QuietSaysAll};
ghost use Rattle.laws_calculus.specs.Query.{FullSaysMore, PicksEnd, Coincidence, KeptStayTrue};
ghost use Rattle.laws_calculus.specs.Query.{KeptOrDropped, PickByNote, StepsWithin};
ghost use Rattle.laws_calculus.specs.Query.{StepsWithinFull};
ghost use Rattle.laws_calculus.specs.Query.{QuietHasReads, SameFactsAgree, SameFactsCoincide};
ghost use Rattle.laws_calculus.specs.Query.{WalksCompose, DropsInOrder, SoundAtStart};
ghost use Rattle.laws_calculus.specs.Query.{ReachedDemanded};
ghost use Rattle.laws_calculus.specs.Query.{KeptByGone, KeptStayOrdered, OrderedAreClosed};
ghost use Rattle.laws_calculus.specs.Query.{DroppedAmongMore, KeptAreClosed, DemandedByMembers};
ghost use Rattle.laws_calculus.specs.Query.{ReadAreDemanded};

/// Outcomes by levels of demand.
pub fn outcomes<K, O, A>()
    ensures stay { OutcomesStay K O A }
    ensures one { OneOutcome K O A }
    ensures not_looping { NoOutcomeOfLoops K O A }
    ensures one_level { OneLevel K O A }
    ensures one_walk { OneWalk K O A }
    ensures level_notes { LevelNotes K O A }
    ensures level_needs { LevelNeeds K O A }
{}

/// What every list of picks leaves.
pub fn any_order<K, O, A>()
    ensures right { AnyPicks K O A }
    ensures quiet { QuietSaysAll K O A }
    ensures full { FullSaysMore K O A }
    ensures end { PicksEnd K O A }
{}

/// Which notes stay true.
pub fn remembered<K, O, A>()
    ensures coincide { Coincidence K O A }
    ensures kept { KeptStayTrue K O A }
    ensures dropped { KeptOrDropped K O A }
    ensures by_note { PickByNote K O A }
{}

/// Notes in the order of noting: what one pass drops, how a state begins with what is kept, and
/// that what kept notes reach is demanded.
pub fn in_order<K, O, A>()
    ensures drops { DropsInOrder K O A }
    ensures start { SoundAtStart K O A }
    ensures reached { ReachedDemanded K O A }
    ensures by_gone { KeptByGone K O A }
    ensures order { KeptStayOrdered K O A }
    ensures closed { OrderedAreClosed K O A }
{}

/// Notes in any order: what a search through reads drops among more notes than those that are kept,
/// that what it leaves is closed, and that what is read or a seed is demanded.
pub fn searched<K, O, P, A>()
    ensures dropped { DroppedAmongMore K O P A }
    ensures closed { KeptAreClosed K O A }
    ensures members { DemandedByMembers K O A }
    ensures read { ReadAreDemanded K O A }
{}

/// How many steps picks take.
pub fn bounded<K, O, A>()
    ensures within { StepsWithin K O A }
    ensures within_full { StepsWithinFull K O A }
    ensures reads { QuietHasReads K O A }
{}

/// Evaluations that see the facts of the places that they look at.
pub fn same_facts<K, O, A, F>()
    ensures agree { SameFactsAgree K O A F }
    ensures coincide { SameFactsCoincide K O A F }
{}

/// One evaluation after another.
pub fn composed<K, O, A, F, R, S>()
    ensures { WalksCompose K O A F R S }
{}
