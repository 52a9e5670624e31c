// Where the bit of a triple lies in the words.
ghost use Rattle.std.specs.Prelude.{◌≡◌, ℕ, ◌<◌, Decides, slice_index};
ghost use Rattle.triples.specs.Codes.{Inside};
ghost use Rattle.cube_store.specs.Bits.{side, row_of, bit_at, bits};

use triples::triple::{TermNumber, Triple};

// The numbers in a triple are below the side. A word has as many bits, one for each object.
pub const SIDE: usize = 64;

// A word for each subject and predicate.
pub const WORDS: usize = SIDE * SIDE;

// A bit for each triple.
pub const CAPACITY: usize = WORDS * SIDE;

// Whether every number of the triple is below the side.
pub fn inside(triple: Triple) -> bool
    ensures { Decides result (Inside side triple) }
{
    usize::from(triple.subject) < SIDE
        && usize::from(triple.predicate) < SIDE
        && usize::from(triple.object) < SIDE
}

// The place of the word that has the triple's bit.
pub fn row_of(triple: Triple) -> usize
    ensures { result ≡ row_of triple.subject triple.predicate }
{
    SIDE * usize::from(triple.subject) + usize::from(triple.predicate)
}

// The word that has the triple's bit. A word past the end counts as 0.
pub fn word_at(words: &[u64], triple: Triple) -> u64
    ensures { result ≡ slice_index words.now (row_of triple.subject triple.predicate) }
{
    words.get(row_of(triple)).copied().unwrap_or(0)
}

// Whether the object's bit of the word is set.
#[tactic(auto, unfolding(crate::specs::Bits::bit_at))]
fn has_bit(word: u64, object: TermNumber) -> bool
    requires { object < side }
    ensures { result ≡ bit_at word object }
{
    (word >> object) % 2 == 1
}

// Whether the triple's bit is set.
pub fn is_marked(words: &[u64], triple: Triple) -> bool
    ensures { result ≡ bits words.now triple }
{
    inside(triple) && has_bit(word_at(words, triple), triple.object)
}

// Sets every word to 0.
pub fn wipe(words: &mut [u64])
    ensures { (k : ℕ) → slice_index words.new k ≡ 0 }
{
    words.fill(0);
}
