// Sheets.

// The token that open gives: terms and triples enter a book only by showing one. It goes back by keep or strike, and can be
// neither dropped nor copied. It carries the number of the book that gave it.
pub struct Sheet {
    pub(crate) book: u8,
}
