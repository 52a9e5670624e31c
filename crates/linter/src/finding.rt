// A line that is refused, and how it is told.
use crate::verdict::Refused;
use std::fmt;

// A line that is refused: its number, counted from 1, and why. The offset is that of the place in the document.
#[derive(Clone, Copy, Debug, PartialEq, Eq)]
pub struct Finding {
    pub line: usize,
    pub refused: Refused,
}

impl fmt::Display for Finding {
    ghost use Rattle.std.specs.Prelude.{Some};
    ghost use Rattle.linter.specs.Sentences.{sentence};

    ghost output = { λ f. Some (sentence f) };

    fn fmt<W: fmt::Write>(&self, f: &mut fmt::Formatter<W>) -> fmt::Result {
        let line = self.line;
        let Refused { refusal, offset } = self.refused;
        let number = refusal.number();
        write!(
            f,
            "line {line}, offset {offset}: refused {number}: {refusal}"
        )
    }
}
