// The store of records in a slice.
ghost use Rattle.std.specs.Prelude.{◌≡◌, ◌<◌, ◌≤◌, min, true, false, length, take};
ghost use Rattle.triples.specs.declared.triple.Triple.{Triple as Of};
ghost use Rattle.triples.specs.Codes.{width, Inside};
ghost use Rattle.triples.specs.Sets.{size, adding, empty};
ghost use Rattle.list_store.specs.Records.{most, stored, records_lawful};

use crate::records::{least, position};
use triples::question::Question;
use triples::store::{Added, Refusal, TripleStore};
use triples::triple::{Triple, WIDTH};

// The most records that a store keeps.
pub const MOST: usize = 65_536;

// The first `len` records are the triples in the store, each once. There is no heap, so the slice is lent.
#[derive(Drop)]
pub struct ListStore<'a> {
    records: &'a mut [Triple],
    len: usize,
    ghost room: { (length records.now ≤ most) × (len ≤ length records.now) },
    ghost counted: { size (stored len records.now) ≡ len },
    ghost within: { ((t : Of) → stored len records.now t ≡ true → Inside width t) },
}

impl<'a> ListStore<'a> {
    // A store that begins empty, whatever the slice holds. What is past the first `MOST` records is not used.
    pub fn new(records: &'a mut [Triple]) -> ListStore<'a>
        ensures capacity { length result.records.now ≡ min (length records.old) most }
        ensures begins { stored result.len result.records.now ≡ empty }
    {
        let room = records.len().min(MOST);
        ListStore {
            records: &mut records[..room],
            len: 0,
        }
    }

    // The records of the triples in the store.
    fn stored(&self) -> &[Triple]
        ensures { result.now ≡ take self.now.len self.now.records.now }
    {
        &self.records[..self.len]
    }

    // Appends a triple that is not in the store, which is not full.
    fn push(&mut self, triple: Triple)
        requires { (stored self.old.len self.old.records.now triple ≡ false) × (self.old.len < length self.old.records.now) }
        ensures room { length self.new.records.now ≡ length self.old.records.now }
        ensures more { stored self.new.len self.new.records.now ≡ adding (stored self.old.len self.old.records.now) triple }
    {
        self.records[self.len] = triple;
        self.len += 1;
    }

    // Keeps the first `n` records, or all where there are fewer.
    fn truncate(&mut self, n: usize)
        ensures room { length self.new.records.now ≡ length self.old.records.now }
        ensures kept { stored self.new.len self.new.records.now ≡ stored (min n self.old.len) self.old.records.now }
    {
        self.len = self.len.min(n);
    }
}

impl<'a> TripleStore for ListStore<'a> {
    ghost side_of = { λ s. width };

    ghost capacity_of = { λ s. length s.records.now };

    ghost held = { λ s. stored s.len s.records.now };

    ghost lawful = { λ s. records_lawful s.len s.records.now s.room s.counted s.within };

    // A cast of a constant: `TryFrom` would have an error that never comes.
    fn side(&self) -> usize {
        WIDTH as usize
    }

    fn capacity(&self) -> usize {
        self.records.len()
    }

    fn count(&self) -> usize {
        self.stored().len()
    }

    fn has(&self, triple: Triple) -> bool {
        position(self.stored(), triple).is_some()
    }

    fn next(&self, question: Question) -> Option<Triple> {
        least(self.stored(), question)
    }

    // A triple is always inside: a term number is below the width. `self.has` would be the lent store's. The cube's add has
    // the same steps: to share them, `push` would have to be a call of the trait that asks for room.
    fn add(&mut self, triple: Triple) -> Result<Added, Refusal> {
        if (*self).has(triple) {
            return Ok(Added::Had);
        }
        if (*self).count() >= (*self).capacity() {
            return Err(Refusal::Full);
        }
        self.push(triple);
        Ok(Added::New)
    }

    fn clear(&mut self) {
        self.truncate(0);
    }
}
