// The kinds of the terms of a table.
ghost use Rattle.std.specs.Prelude.{◌≡◌, ◌+◌, ◌-◌, ◌≤◌, length, map, take, drop};
ghost use Rattle.names.specs.Terms.{all_terms};
ghost use Rattle.embedding.specs.Kinds.{kinds_of};
ghost use Rattle.closing.specs.Kinds.{kind as kind_for_closing};

use crate::kind::KindOfTerm;
use closing::kinds::TermKind;
use embedding::kind::Kind;
use names::Names;
use std::marker::Model;
use triples::triple::TermNumber;

// How many terms every book begins with.
const BEGINNING: usize = 30;

// The most terms of a book.
const MOST_TERMS: usize = 256;

// Puts the kinds of the terms from number `first` on at the start of a slice that has room for them.
fn fill<K: KindOfTerm>(names: &Names, first: usize, kinds: &mut [K])
    requires { length (all_terms names.now) ≤ first + length kinds.old }
    ensures { take (length (all_terms names.now) - first) kinds.new ≡ map K.kind (drop first (all_terms names.now)) }
{
    for number in first..names.len() {
        let Some(view) = names.get(number as TermNumber) else {
            return; // every number below has a term
        };
        kinds[number - first] = K::of(view);
    }
}

// The kinds of all terms, that of number n at index n, as deciding asks for them. No heap here: an array with room for the most
// terms.
#[derive(Drop)]
pub struct AllKinds {
    kinds: [Kind; MOST_TERMS],
    len: usize,
}

impl Model for AllKinds {
    ghost use Rattle.std.specs.Prelude.{List, take, ◌≤◌};
    ghost use Rattle.embedding.specs.declared.kind.Kind.{Kind};

    ghost Value = { List Kind };

    ghost view = { λ k. take k.len k.kinds };

    ghost invariant = { λ k. k.len ≤ 256 };
}

impl AllKinds {
    // Those of the terms of a table.
    pub fn of(names: &Names) -> AllKinds
        ensures { result ≡ kinds_of (all_terms names.now) }
    {
        let len = names.len();
        let mut kinds = [Kind::Blank; MOST_TERMS];
        fill(names, 0, &mut kinds);
        AllKinds { kinds, len }
    }

    pub fn as_slice(&self) -> &[Kind]
        ensures { result.now ≡ self.now }
    {
        &self.kinds[..self.len]
    }
}

// The kinds of the terms after the thirty, in the order of their numbers, as closing asks for them.
#[derive(Drop)]
pub struct KindsAfterThirty {
    kinds: [TermKind; MOST_TERMS - BEGINNING],
    len: usize,
}

impl Model for KindsAfterThirty {
    ghost use Rattle.std.specs.Prelude.{List, take, ◌≤◌};
    ghost use Rattle.closing.specs.declared.kinds.TermKind.{TermKind};

    ghost Value = { List TermKind };

    ghost view = { λ k. take k.len k.kinds };

    ghost invariant = { λ k. k.len ≤ 226 };
}

impl KindsAfterThirty {
    // Those of the terms of a table.
    #[tactic(auto, using(names::proofs::Beginning::length_all_terms, crate::proofs::Filling::after_thirty))]
    pub fn of(names: &Names) -> KindsAfterThirty
        ensures { result ≡ map kind_for_closing names.now }
    {
        let len = names.len() - BEGINNING;
        let mut kinds = [TermKind::Blank; MOST_TERMS - BEGINNING];
        fill(names, BEGINNING, &mut kinds);
        KindsAfterThirty { kinds, len }
    }

    pub fn as_slice(&self) -> &[TermKind]
        ensures { result.now ≡ self.now }
    {
        &self.kinds[..self.len]
    }
}
