//! What is ahead of an evaluation, and picks by it.
ghost use Rattle.laws_calculus.specs.Ahead.{AheadStays, AheadOnward, AheadComposes, PickByAhead};
ghost use Rattle.laws_calculus.specs.Ahead.{PicksExtend, KeepingIsPicking, SpentWithin, BoundsStay};
ghost use Rattle.laws_calculus.specs.Ahead.{RangeDemands, RoundDemands, FormulaDemands};
ghost use Rattle.laws_calculus.specs.Ahead.{ArgumentsDemand};
ghost use Rattle.laws_calculus.specs.Ahead.{CellDemands};

/// What is ahead of a query.
pub fn ahead<K, O, A, R>()
    ensures stays { AheadStays K O A R }
    ensures onward { AheadOnward K O A R }
{}

/// What is ahead of evaluations.
pub fn ahead_composed<K, O, A, F, R, S>()
    ensures { AheadComposes K O A F R S }
{}

/// Picks by what is ahead, and the steps that they take.
pub fn picks_ahead<K, O, A>()
    ensures pick { PickByAhead K O A }
    ensures extend { PicksExtend K O A }
    ensures keeping { KeepingIsPicking K O A }
    ensures bounds { BoundsStay K O A }
    ensures within { SpentWithin K O A }
{}

/// What references and formulas demand.
pub fn demands()
    ensures range { RangeDemands }
    ensures round { RoundDemands }
    ensures formula { FormulaDemands }
    ensures arguments { ArgumentsDemand }
    ensures cell { CellDemands }
{}
