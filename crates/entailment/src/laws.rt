// Laws of the closure. Each function's contract is a theorem, and its body is empty: no edit of code can break one, so
// must-fail/ has none for this file.
ghost use Rattle.entailment.specs.Laws.{ClosureExists, DerivationsAreLeast, ExceedsBySize, Grows};

// There is a closure, and it is finite.
pub fn closure_exists()
    ensures { ClosureExists }
{}

// A triple has a derivation exactly when it lies in every closed set.
pub fn derivations_are_least()
    ensures { DerivationsAreLeast }
{}

// The closure grows with the kept triples, with the terms, and from regime to regime.
pub fn closure_grows()
    ensures { Grows }
{}

// A closure exceeds a number exactly when a set that is the closure has more members.
pub fn exceeds_by_size()
    ensures { ExceedsBySize }
{}
