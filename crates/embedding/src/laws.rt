// Laws of embeddings. Each function's contract is a theorem, and its body is empty: no edit of code can break one, so must-fail/
// has none for this file.
ghost use Rattle.embedding.specs.Laws.{AllowedAreNamed, EmbedsInTerms, FoundInTerms};

// Over a set of triples of terms, a goal embeds by a map to numbers below the side exactly when it embeds by a map to terms.
pub fn embeds_in_terms()
    ensures { EmbedsInTerms }
{}

// Over such a set, the map of a yes is a map to terms.
pub fn found_in_terms()
    ensures { FoundInTerms }
{}

// In a goal that may be, every name is a name of the book.
pub fn allowed_are_named()
    ensures { AllowedAreNamed }
{}
