// The seed: the kept triples and the start set, from the kinds of the terms and the vocabulary's numbers.
ghost use Rattle.std.specs.Prelude.{◌≡◌, ℕ, ◌+◌, ◌<◌, ◌≤◌, length, true, T};
ghost use Rattle.std.specs.List.{AllByRecursion};
ghost use Rattle.std.proofs.Common.{get_or};
ghost use Rattle.triples.specs.Codes.{Inside};
ghost use Rattle.entailment.specs.Rows.{triple};
ghost use Rattle.entailment.specs.Starts.{rdf_fixed, rdfs_fixed};
ghost use Rattle.closing.specs.Passes.{Outcome, HoldsAll};
ghost use Rattle.closing.specs.Seeds.{all_kinds, picks, HoldsEach, HoldsRdf, HoldsRdfs, HoldsStart, HoldsSeed};
ghost use Rattle.closing.specs.declared.kinds.TermKind.TheVariants.{Blank as BlankKind};

use crate::kinds::TermKind;
use crate::passes::{NoRoom, put};
use crate::vocabulary::{
    ALT, BAG, CLASS, CMP, COMMENT, CONTAINER, DATATYPE, DOMAIN, FIRST, IS_DEFINED_BY, LABEL, LIST,
    LITERAL, MEMBER, NIL, OBJECT, POSITION_1, PREDICATE, PROPERTY, RANGE, RESOURCE, REST, SEE_ALSO,
    SEQ, STATEMENT, SUB_CLASS_OF, SUB_PROPERTY_OF, SUBJECT, THIRTY, TYPE, VALUE,
};
use entailment::regime::Regime;
use triples::store::TripleStore;
use triples::triple::{TermNumber, Triple};

// Rows of a predicate, an object and the subjects that have them, as triples.
macro_rules! table {
    ($($predicate:ident $object:ident: $($subject:ident)*;)*) => {
        [$($(Triple { subject: $subject, predicate: $predicate, object: $object },)*)*]
    };
}

// What the RDF start set has over every book.
const RDF_FIXED: [Triple; 8] = table! {
    TYPE LIST: NIL;
    TYPE PROPERTY: TYPE SUBJECT PREDICATE OBJECT FIRST REST VALUE;
};

// What the RDFS start set adds over every book.
const RDFS_FIXED: [Triple; 38] = table! {
    DOMAIN RESOURCE: MEMBER SEE_ALSO IS_DEFINED_BY VALUE TYPE COMMENT LABEL;
    DOMAIN STATEMENT: SUBJECT PREDICATE OBJECT;
    DOMAIN PROPERTY: DOMAIN RANGE SUB_PROPERTY_OF;
    DOMAIN CLASS: SUB_CLASS_OF;
    DOMAIN LIST: FIRST REST;
    RANGE RESOURCE: MEMBER SEE_ALSO IS_DEFINED_BY VALUE SUBJECT PREDICATE OBJECT FIRST;
    RANGE CLASS: TYPE DOMAIN RANGE SUB_CLASS_OF;
    RANGE PROPERTY: SUB_PROPERTY_OF;
    RANGE LIST: REST;
    RANGE LITERAL: COMMENT LABEL;
    SUB_CLASS_OF CONTAINER: ALT BAG SEQ;
    SUB_CLASS_OF PROPERTY: CMP;
    SUB_CLASS_OF CLASS: DATATYPE;
    SUB_PROPERTY_OF SEE_ALSO: IS_DEFINED_BY;
};

fn rdf_fixed() -> &'static [Triple]
    ensures { result.now ≡ rdf_fixed }
{
    &RDF_FIXED
}

fn rdfs_fixed() -> &'static [Triple]
    ensures { result.now ≡ rdfs_fixed }
{
    &RDFS_FIXED
}

// Which terms a part of a start set speaks of.
#[derive(Clone, Copy)]
enum Which {
    Names,
    Positions,
}

impl Which {
    fn picks(self, kind: TermKind) -> bool
        ensures { result ≡ picks self kind }
    {
        match self {
            Which::Names => !matches!(kind, TermKind::Blank),
            Which::Positions => matches!(kind, TermKind::Position),
        }
    }
}

// The kind of a term, where those of the terms after the thirty are known.
fn kind_of(more: &[TermKind], number: usize) -> TermKind
    requires { number < 30 + length more.now }
    ensures { result ≡ get_or (all_kinds more.now) number BlankKind }
{
    if number >= THIRTY {
        more[number - THIRTY]
    } else if number == usize::from(POSITION_1) {
        TermKind::Position
    } else {
        TermKind::Name
    }
}

// Puts in the triples of a list.
fn put_all<S: TripleStore>(store: &mut S, list: &[Triple]) -> Result<(), NoRoom>
    requires { AllByRecursion (Inside (S.TripleStore.side_of store.old)) list.now }
    ensures side { S.TripleStore.side_of store.new ≡ S.TripleStore.side_of store.old }
    ensures capacity { S.TripleStore.capacity_of store.new ≡ S.TripleStore.capacity_of store.old }
    ensures puts { Outcome (HoldsAll list.now) (HoldsAll list.now (S.TripleStore.held store.new)) (S.TripleStore.capacity_of store.new) (S.TripleStore.held store.old) (S.TripleStore.held store.new) result }
{
    for triple in list {
        put(store, *triple)?;
    }
    Ok(())
}

// Puts in what the RDF start set has over every book.
fn put_rdf_fixed<S: TripleStore>(store: &mut S) -> Result<(), NoRoom>
    ensures side { S.TripleStore.side_of store.new ≡ S.TripleStore.side_of store.old }
    ensures capacity { S.TripleStore.capacity_of store.new ≡ S.TripleStore.capacity_of store.old }
    ensures puts { Outcome (HoldsAll rdf_fixed) (HoldsAll rdf_fixed (S.TripleStore.held store.new)) (S.TripleStore.capacity_of store.new) (S.TripleStore.held store.old) (S.TripleStore.held store.new) result }
{
    put_all(store, rdf_fixed())
}

// Puts in what the RDFS start set adds over every book.
fn put_rdfs_fixed<S: TripleStore>(store: &mut S) -> Result<(), NoRoom>
    ensures side { S.TripleStore.side_of store.new ≡ S.TripleStore.side_of store.old }
    ensures capacity { S.TripleStore.capacity_of store.new ≡ S.TripleStore.capacity_of store.old }
    ensures puts { Outcome (HoldsAll rdfs_fixed) (HoldsAll rdfs_fixed (S.TripleStore.held store.new)) (S.TripleStore.capacity_of store.new) (S.TripleStore.held store.old) (S.TripleStore.held store.new) result }
{
    put_all(store, rdfs_fixed())
}

// Puts a triple in where it is wanted.
fn put_if<S: TripleStore>(store: &mut S, wanted: bool, triple: Triple) -> Result<(), NoRoom>
    requires { Inside (S.TripleStore.side_of store.old) triple }
    ensures side { S.TripleStore.side_of store.new ≡ S.TripleStore.side_of store.old }
    ensures capacity { S.TripleStore.capacity_of store.new ≡ S.TripleStore.capacity_of store.old }
    ensures puts { Outcome (λ f. wanted ≡ true → f triple ≡ true) (wanted ≡ true → S.TripleStore.held store.new triple ≡ true) (S.TripleStore.capacity_of store.new) (S.TripleStore.held store.old) (S.TripleStore.held store.new) result }
{
    if wanted { put(store, triple) } else { Ok(()) }
}

// Puts in each such term as a subject, with one predicate and one object.
fn put_each<S: TripleStore>(
    store: &mut S,
    more: &[TermKind],
    which: Which,
    predicate: TermNumber,
    object: TermNumber,
) -> Result<(), NoRoom>
    requires few { 30 + length more.now ≤ S.TripleStore.side_of store.old }
    requires predicate { predicate < 30 }
    requires object { object < 30 }
    ensures side { S.TripleStore.side_of store.new ≡ S.TripleStore.side_of store.old }
    ensures capacity { S.TripleStore.capacity_of store.new ≡ S.TripleStore.capacity_of store.old }
    ensures puts { Outcome (HoldsEach which predicate object more.now) (HoldsEach which predicate object more.now (S.TripleStore.held store.new)) (S.TripleStore.capacity_of store.new) (S.TripleStore.held store.old) (S.TripleStore.held store.new) result }
{
    for number in 0..THIRTY + more.len() {
        let triple = Triple {
            subject: number as TermNumber,
            predicate,
            object,
        };
        put_if(store, which.picks(kind_of(more, number)), triple)?;
    }
    Ok(())
}

// Puts in the RDF start set.
fn put_rdf<S: TripleStore>(store: &mut S, more: &[TermKind]) -> Result<(), NoRoom>
    requires { 30 + length more.now ≤ S.TripleStore.side_of store.old }
    ensures side { S.TripleStore.side_of store.new ≡ S.TripleStore.side_of store.old }
    ensures capacity { S.TripleStore.capacity_of store.new ≡ S.TripleStore.capacity_of store.old }
    ensures puts { Outcome (HoldsRdf more.now) (HoldsRdf more.now (S.TripleStore.held store.new)) (S.TripleStore.capacity_of store.new) (S.TripleStore.held store.old) (S.TripleStore.held store.new) result }
{
    put_rdf_fixed(store)?;
    put_each(store, more, Which::Positions, TYPE, PROPERTY)
}

// Puts in what the RDFS start set adds.
fn put_rdfs<S: TripleStore>(store: &mut S, more: &[TermKind]) -> Result<(), NoRoom>
    requires { 30 + length more.now ≤ S.TripleStore.side_of store.old }
    ensures side { S.TripleStore.side_of store.new ≡ S.TripleStore.side_of store.old }
    ensures capacity { S.TripleStore.capacity_of store.new ≡ S.TripleStore.capacity_of store.old }
    ensures puts { Outcome (HoldsRdfs more.now) (HoldsRdfs more.now (S.TripleStore.held store.new)) (S.TripleStore.capacity_of store.new) (S.TripleStore.held store.old) (S.TripleStore.held store.new) result }
{
    put_rdfs_fixed(store)?;
    put_each(store, more, Which::Names, TYPE, RESOURCE)?;
    put_each(store, more, Which::Positions, TYPE, CMP)?;
    put_each(store, more, Which::Positions, DOMAIN, RESOURCE)?;
    put_each(store, more, Which::Positions, RANGE, RESOURCE)
}

// Puts in the start set of a regime.
fn put_start<S: TripleStore>(store: &mut S, regime: Regime, more: &[TermKind]) -> Result<(), NoRoom>
    requires { 30 + length more.now ≤ S.TripleStore.side_of store.old }
    ensures side { S.TripleStore.side_of store.new ≡ S.TripleStore.side_of store.old }
    ensures capacity { S.TripleStore.capacity_of store.new ≡ S.TripleStore.capacity_of store.old }
    ensures puts { Outcome (HoldsStart regime more.now) (HoldsStart regime more.now (S.TripleStore.held store.new)) (S.TripleStore.capacity_of store.new) (S.TripleStore.held store.old) (S.TripleStore.held store.new) result }
{
    match regime {
        Regime::Simple => Ok(()),
        Regime::Rdf => put_rdf(store, more),
        Regime::Rdfs => {
            put_rdf(store, more)?;
            put_rdfs(store, more)
        }
    }
}

// Puts in the kept triples, then the start set.
pub fn seed<S: TripleStore>(
    store: &mut S,
    regime: Regime,
    more: &[TermKind],
    kept: &[Triple],
) -> Result<(), NoRoom>
    requires few { 30 + length more.now ≤ S.TripleStore.side_of store.old }
    requires inside { AllByRecursion (Inside (S.TripleStore.side_of store.old)) kept.now }
    ensures side { S.TripleStore.side_of store.new ≡ S.TripleStore.side_of store.old }
    ensures capacity { S.TripleStore.capacity_of store.new ≡ S.TripleStore.capacity_of store.old }
    ensures seeds { Outcome (HoldsSeed regime more.now kept.now) (HoldsSeed regime more.now kept.now (S.TripleStore.held store.new)) (S.TripleStore.capacity_of store.new) (S.TripleStore.held store.old) (S.TripleStore.held store.new) result }
{
    put_all(store, kept)?;
    put_start(store, regime, more)
}
