// Why a line cannot be read, and where.
ghost use Rattle.std.specs.Prelude.{◌≡◌, ◌+◌, ◌^◌, ◌<◌};
ghost use Rattle.ntriples.specs.Answers.{number};

// What stands at the first place where a line cannot go on.
#[derive(Clone, Copy, Debug, PartialEq, Eq)]
pub enum FaultKind {
    // a byte above 127
    HighByte = 1,
    // the letter of `\u` or `\U`
    UnicodeEscape = 2,
    // any other byte, or the line's end
    Unexpected = 3,
}

impl FaultKind {
    // The refusal number.
    pub fn number(self) -> u8
        ensures { result ≡ number self }
    {
        self as u8
    }
}

// The kind, and the offset of the place.
#[derive(Clone, Copy, Debug, PartialEq, Eq)]
pub struct Fault {
    pub kind: FaultKind,
    pub offset: usize,
}

impl Fault {
    // The fault of a line that begins at `base`, as one of its document.
    pub(crate) fn at_base(self, base: usize) -> Fault
        requires fits { base + self.offset < 2 ^ 64 }
        ensures { (result.kind ≡ self.kind) × (result.offset ≡ base + self.offset) }
    {
        Fault {
            offset: base + self.offset,
            ..self
        }
    }
}
