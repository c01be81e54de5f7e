//! The laws of equality and of hashes.
ghost use Rattle.gl_demand.specs.Laws.{KeysCompareByTree, KeysHashByTree, OutcomesCompareByTree};
ghost use Rattle.gl_demand.specs.Laws.{OutcomesHashByTree};

/// Keys are equal, and hash alike, where their plain keys are equal.
pub fn keys_compare_by_tree()
    ensures equal { KeysCompareByTree }
    ensures hash { KeysHashByTree }
{}

/// Outcomes are equal, and hash alike, where their plain outcomes are equal.
pub fn outcomes_compare_by_tree()
    ensures equal { OutcomesCompareByTree }
    ensures hash { OutcomesHashByTree }
{}
