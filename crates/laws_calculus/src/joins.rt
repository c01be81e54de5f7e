//! What edits come to that replicas take in any order.
ghost use Rattle.laws_calculus.specs.Edits.{OneJoin, SoundJoin, NoneTaken, OneMoreTaken, AllTaken};
ghost use Rattle.laws_calculus.specs.Edits.{TakenAlike};

/// Edits have one join, whatever their order and repeats.
pub fn join_laws()
    ensures one { OneJoin }
    ensures sound { SoundJoin }
{}

/// The registers of a replica are the join of what it has taken, and its clock is the greatest
/// time.
pub fn taking_laws()
    ensures none { NoneTaken }
    ensures more { OneMoreTaken }
    ensures all { AllTaken }
    ensures alike { TakenAlike }
{}
