// The store over words that it borrows, with the count of set bits kept beside them.
ghost use Rattle.std.specs.Prelude.{◌≡◌, ◌+◌, ◌^◌, ◌<◌, ◌≤◌, false, length, bit_or};
ghost use Rattle.triples.specs.Codes.{Inside};
ghost use Rattle.triples.specs.Sets.{adding, empty, size};
ghost use Rattle.cube_store.specs.Bits.{side, rows, bits, marking, room_in};
ghost use Rattle.cube_store.specs.Laws.{cube_lawful};

use crate::layout::{CAPACITY, SIDE, WORDS, inside, is_marked, row_of, wipe};
use crate::search::seek;
use triples::question::Question;
use triples::store::{Added, Refusal, TripleStore};
use triples::triple::{TermNumber, Triple};

// The word with the object's bit set.
fn with_bit(word: u64, object: TermNumber) -> u64
    requires { object < side }
    ensures { result ≡ bit_or word (2 ^ object) }
{
    word | (1u64 << object)
}

// Sets the triple's bit.
fn mark(words: &mut [u64], triple: Triple)
    requires inside { Inside side triple }
    requires room { rows ≤ length words.old }
    ensures { words.new ≡ marking words.old triple }
{
    let row = row_of(triple);
    words[row] = with_bit(words[row], triple.object);
}

// The words that were lent to the store, since there is no heap.
#[derive(Drop)]
pub struct Words<'a> {
    words: &'a mut [u64],
}

// The words, and how many of their bits are set.
#[derive(Drop)]
pub struct CubeStore<'a> {
    marks: Words<'a>,
    count: usize,
    ghost room: { count ≤ room_in (length marks.words.now) },
    ghost counted: { size (bits marks.words.now) ≡ count },
}

// These pass on to functions of a slice: a store can lend its words whole only out of a field that has no ghost field beside it.
impl<'a> Words<'a> {
    // Every word to 0.
    fn wipe(&mut self)
        ensures kept { length self.new.words.now ≡ length self.old.words.now }
        ensures wiped { bits self.new.words.now ≡ empty }
        ensures counted { size (bits self.new.words.now) ≡ 0 }
    {
        wipe(self.words);
    }

    // Sets the bit of a triple, which is not set.
    fn mark(&mut self, triple: Triple)
        requires inside { Inside side triple }
        requires room { rows ≤ length self.old.words.now }
        requires unset { bits self.old.words.now triple ≡ false }
        ensures kept { length self.new.words.now ≡ length self.old.words.now }
        ensures marked { bits self.new.words.now ≡ adding (bits self.old.words.now) triple }
        ensures counted { size (bits self.new.words.now) ≡ size (bits self.old.words.now) + 1 }
    {
        mark(self.words, triple);
    }
}

impl<'a> CubeStore<'a> {
    // An empty store, whatever the words held.
    pub fn new(words: &'a mut [u64]) -> CubeStore<'a>
        ensures room { room_in (length result.marks.words.now) ≡ room_in (length words.old) }
        ensures empty { bits result.marks.words.now ≡ empty }
    {
        let mut marks = Words { words };
        marks.wipe();
        CubeStore { marks, count: 0 }
    }

    // Puts a triple in, which is not in the store.
    fn put(&mut self, triple: Triple)
        requires inside { Inside side triple }
        requires room { self.old.count < room_in (length self.old.marks.words.now) }
        requires unset { bits self.old.marks.words.now triple ≡ false }
        ensures kept { length self.new.marks.words.now ≡ length self.old.marks.words.now }
        ensures adds { bits self.new.marks.words.now ≡ adding (bits self.old.marks.words.now) triple }
    {
        self.marks.mark(triple);
        self.count += 1;
    }
}

impl<'a> TripleStore for CubeStore<'a> {
    ghost side_of = { λ s. side };

    ghost capacity_of = { λ s. room_in (length s.marks.words.now) };

    ghost held = { λ s. bits s.marks.words.now };

    ghost lawful = { λ s. cube_lawful s.marks.words.now s.count s.room s.counted };

    fn side(&self) -> usize {
        SIDE
    }

    fn capacity(&self) -> usize {
        if self.marks.words.len() < WORDS {
            0
        } else {
            CAPACITY
        }
    }

    fn count(&self) -> usize {
        self.count
    }

    fn has(&self, triple: Triple) -> bool {
        is_marked(self.marks.words, triple)
    }

    fn next(&self, question: Question) -> Option<Triple> {
        seek(self.marks.words, question)
    }

    // `self.has` would be the lent store's. Why the steps of the list store's add stand here again is said there.
    fn add(&mut self, triple: Triple) -> Result<Added, Refusal> {
        if !inside(triple) {
            return Err(Refusal::Outside);
        }
        if (*self).has(triple) {
            return Ok(Added::Had);
        }
        if (*self).count() >= (*self).capacity() {
            return Err(Refusal::Full);
        }
        self.put(triple);
        Ok(Added::New)
    }

    fn clear(&mut self) {
        self.marks.wipe();
        self.count = 0;
    }
}
