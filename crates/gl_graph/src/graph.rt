//! What is asked of a graph.
ghost use Rattle.std.specs.Prelude.{◌≡◌, ◌∷◌, ◌<◌, ◌≤◌, ℕ, List, [], IfSome, IfNone};
ghost use Rattle.gl_graph.specs.declared.graph.Place.{Place};

/// A place in the list of a node's steps. What its numbers mean is the graph's own.
#[derive(Clone, Copy, PartialEq, Eq)]
pub struct Place {
    pub part: usize,
    pub offset: u32,
}

/// A graph whose nodes are numbers. It need not hold the list of a node's steps: it finds them one
/// after another.
pub trait Graph {
    /// How many nodes there are.
    ghost size: { Self → ℕ };

    /// The nodes to which steps lead from a node, from a place on; all of them from the place of
    /// two zeros.
    ghost left: { Self → ℕ → Place → List ℕ };

    /// What a node weighs.
    ghost weight: { Self → ℕ → ℕ };

    /// How many nodes there are.
    fn size(&self) -> u32
        ensures { result ≡ size self.now };

    /// The next node to which a step leads, and the place behind it.
    fn next(&self, node: u32, place: Place) -> Option<(u32, Place)>
        requires { node < size self.now }
        ensures some { IfSome result (λ r.
            left self.now node place ≡ r.0 ∷ left self.now node r.1) }
        ensures none { IfNone result (left self.now node place ≡ []) }
        ensures inside { IfSome result (λ r. r.0 < size self.now) };

    /// What a node weighs.
    fn weight(&self, node: u32) -> u32
        ensures value { result ≡ weight self.now node }
        ensures small { result ≤ 1 };
}
