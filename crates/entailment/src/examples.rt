// The examples. The function's contract is a theorem, and its body is empty, so the must-fail edit for this file is one of
// specs/Examples, a verdict.
ghost use Rattle.entailment.specs.Examples.{ExamplesHold};

// The examples of the halls have the verdicts that the reference gives them, and those on the start sets have theirs.
pub fn examples_hold()
    ensures { ExamplesHold }
{}
