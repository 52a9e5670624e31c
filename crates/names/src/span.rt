// Where a spelling lies.
ghost use Rattle.std.specs.Prelude.{◌≡◌, ◌+◌, ◌≤◌, length, take};
ghost use Rattle.names.specs.Spans.{spelling_in};

// The bytes of a spelling, from `start` to before `end`.
#[derive(Clone, Copy)]
pub(crate) struct Span {
    pub start: u16,
    pub end: u16,
}

impl Span {
    // Writes a spelling from `start` on, and tells where it lies.
    pub(crate) fn write(bytes: &mut [u8], start: usize, spelling: &[u8]) -> Span
        requires room { start + length spelling.now ≤ length bytes.old }
        requires small { length bytes.old ≤ 65535 }
        ensures starts { result.start ≡ start }
        ensures ends { result.end ≡ start + length spelling.now }
        ensures kept { take start bytes.new ≡ take start bytes.old }
        ensures written { spelling_in bytes.new result ≡ spelling.now }
    {
        let end = start + spelling.len();
        bytes[start..end].copy_from_slice(spelling);
        Span {
            start: start as u16,
            end: end as u16,
        }
    }

    // The bytes in the span.
    pub(crate) fn of(self, bytes: &[u8]) -> &[u8]
        requires { (self.start ≤ self.end) × (self.end ≤ length bytes.now) }
        ensures { result.now ≡ spelling_in bytes.now self }
    {
        &bytes[usize::from(self.start)..usize::from(self.end)]
    }
}
