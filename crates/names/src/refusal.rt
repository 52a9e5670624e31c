// Why a term is not added.
ghost use Rattle.std.specs.Prelude.{◌≡◌};
ghost use Rattle.names.specs.Calls.{number};

// The bytes are no lawful spelling; there are as many terms as there may be; or the spellings would take too many bytes.
#[derive(Clone, Copy, PartialEq, Eq, Debug)]
pub enum Refusal {
    NotLawful,
    Terms,
    Bytes,
}

impl Refusal {
    // The refusal number.
    pub fn number(self) -> u8
        ensures { result ≡ number self }
    {
        match self {
            Refusal::NotLawful => 11,
            Refusal::Terms => 12,
            Refusal::Bytes => 13,
        }
    }
}
