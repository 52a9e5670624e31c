// What stood when a sheet was opened.

// How many terms, the thirty included, and how many triples.
#[derive(Clone, Copy, PartialEq, Eq, Debug)]
pub struct Mark {
    pub terms: usize,
    pub triples: usize,
}
