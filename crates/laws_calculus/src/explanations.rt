//! What certificates say, and what the walk finds.
ghost use Rattle.laws_calculus.specs.Explanation.{AcceptedShows, ClaimsOnce, WalkAccepted, FewKeys};
ghost use Rattle.laws_calculus.specs.Explanation.{SettledCertifies, OneExplanation, SomeExplanation};

/// What an accepted certificate says is what the address shows, and the walk's certificate is
/// accepted. Where the calculation settles the walk makes one, and it makes no other.
/// Each address of a sheet has exactly one explanation.
pub fn explanation_laws()
    ensures shows { AcceptedShows }
    ensures claimed { ClaimsOnce }
    ensures accepted { WalkAccepted }
    ensures few { FewKeys }
    ensures certified { SettledCertifies }
    ensures one { OneExplanation }
    ensures some { SomeExplanation }
{}
