// Laws of the ledger. Each function's contract is a theorem, and its body is empty: no edit of code can break one, so
// must-fail/ has none for this file.
ghost use Rattle.ledger.specs.Laws.{NewBlanks, OneBlank, OnlyAppended, StrikeRestores};

// Terms and triples are only appended, but by strike.
pub fn only_appended()
    ensures { OnlyAppended }
{}

// A strike gives back what stood at open.
pub fn strike_restores()
    ensures { StrikeRestores }
{}

// One document's label is one blank.
pub fn one_blank()
    ensures { OneBlank }
{}

// Two documents' labels are different blanks.
pub fn new_blanks()
    ensures { NewBlanks }
{}
