//! The laws of equality and of hashes.
ghost use Rattle.gl_value.specs.Laws.{ScalarsCompareByTree, ArraysCompareByTree};
ghost use Rattle.gl_value.specs.Laws.{ValuesCompareByTree, SheetsCompareByTree};
ghost use Rattle.gl_value.specs.Laws.{FramesCompareByTree, ErrorsCompareByTree, ShownCompareByTree};
ghost use Rattle.gl_value.specs.Laws.{MadeCompareByTree, ScalarsHashByTree, ArraysHashByTree};
ghost use Rattle.gl_value.specs.Laws.{ValuesHashByTree, SheetsHashByTree, FramesHashByTree};

/// `==` compares by structure: it is true exactly where the plain values are equal, however their
/// parts are shared.
pub fn structural_equality()
    ensures errors { ErrorsCompareByTree }
    ensures scalars { ScalarsCompareByTree }
    ensures arrays { ArraysCompareByTree }
    ensures values { ValuesCompareByTree }
    ensures sheets { SheetsCompareByTree }
    ensures frames { FramesCompareByTree }
    ensures shown { ShownCompareByTree }
    ensures made { MadeCompareByTree }
{}

/// Equal plain values hash alike.
pub fn structural_hashes()
    ensures scalars { ScalarsHashByTree }
    ensures arrays { ArraysHashByTree }
    ensures values { ValuesHashByTree }
    ensures sheets { SheetsHashByTree }
    ensures frames { FramesHashByTree }
{}
