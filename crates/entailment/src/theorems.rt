// The theorems on the closure and on worlds, and what the definitions say where the reference has a table. Each function's
// contract is a theorem, and its body is empty, so the must-fail edits for this file are edits of definitions.
ghost use Rattle.entailment.specs.Entailment.{Entailment};
ghost use Rattle.entailment.specs.Laws.{StaysWithinTerms};
ghost use Rattle.entailment.specs.Numbers.{Numbered, PositionsAndNames, StartSizes, ThirtyNamed};

// Over a set that is the closure, a goal embeds exactly when it is entailed.
pub fn embedding_is_entailment()
    ensures { Entailment }
{}

// The closure speaks only of terms of the book.
pub fn closure_stays_within_terms()
    ensures { StaysWithinTerms }
{}

// The thirty IRIs are spelled as the reference's table says.
pub fn thirty_are_named()
    ensures { ThirtyNamed }
{}

// Their names in the specifications stand for the table's numbers.
pub fn thirty_are_numbered()
    ensures { Numbered }
{}

// Which terms are container positions, and which are names.
pub fn positions_and_names()
    ensures { PositionsAndNames }
{}

// How many triples the start sets have.
pub fn start_sizes()
    ensures { StartSizes }
{}
