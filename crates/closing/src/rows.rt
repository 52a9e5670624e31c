// The rows as the passes take them: what is asked of a row's premises, and its conclusion. A row of one premise asks for no
// second, and is given its premise twice.
ghost use Rattle.std.specs.Prelude.{◌≡◌, ◌&&◌, ◌==◌};
ghost use Rattle.closing.specs.Steps.{rows_of, first_of, second_of, conclusion_of, by_predicate, by_type, by_part, part_of, repeats, last_alike};

use crate::vocabulary::{
    CLASS, CMP, DATATYPE, DOMAIN, LITERAL, MEMBER, PROPERTY, RANGE, RESOURCE, SUB_CLASS_OF,
    SUB_PROPERTY_OF, TYPE,
};
use entailment::regime::{ROWS, Regime, Row};
use triples::question::Pattern;
use triples::triple::{TermNumber, Triple};

// The rows of a regime.
pub fn rows_of(regime: Regime) -> &'static [Row]
    ensures { result.now ≡ rows_of regime }
{
    match regime {
        Regime::Simple => &[],
        Regime::Rdf => &[Row::RdfD2],
        Regime::Rdfs => &ROWS,
    }
}

// Asks for a predicate.
fn by_predicate(predicate: TermNumber) -> Pattern
    ensures { result ≡ by_predicate predicate }
{
    Pattern {
        subject: None,
        predicate: Some(predicate),
        object: None,
    }
}

// Asks for a type.
fn by_type(object: TermNumber) -> Pattern
    ensures { result ≡ by_type object }
{
    Pattern {
        subject: None,
        predicate: Some(TYPE),
        object: Some(object),
    }
}

// What is asked of a row's first premise.
pub fn first_pattern(row: Row) -> Pattern
    ensures { result ≡ first_of row }
{
    match row {
        Row::RdfD2 | Row::Rdfs4a | Row::Rdfs4b => Pattern::FREE,
        Row::Rdfs2 => by_predicate(DOMAIN),
        Row::Rdfs3 => by_predicate(RANGE),
        Row::Rdfs5 | Row::Rdfs7 => by_predicate(SUB_PROPERTY_OF),
        Row::Rdfs6 => by_type(PROPERTY),
        Row::Rdfs8 | Row::Rdfs10 => by_type(CLASS),
        Row::Rdfs9 | Row::Rdfs11 => by_predicate(SUB_CLASS_OF),
        Row::Rdfs12 => by_type(CMP),
        Row::Rdfs13 => by_type(DATATYPE),
    }
}

// What is asked of its second premise, where the first is known.
pub fn second_pattern(row: Row, first: Triple) -> Option<Pattern>
    ensures { result ≡ second_of row first }
{
    match row {
        Row::Rdfs2 | Row::Rdfs3 | Row::Rdfs7 => Some(by_predicate(first.subject)),
        Row::Rdfs5 | Row::Rdfs11 => Some(Pattern {
            subject: Some(first.object),
            predicate: Some(first.predicate),
            object: None,
        }),
        Row::Rdfs9 => Some(by_type(first.subject)),
        _ => None,
    }
}

// Its conclusion from its premises, in the row's order.
pub fn conclude(row: Row, first: Triple, second: Triple) -> Triple
    ensures { result ≡ conclusion_of row first second }
{
    let (subject, predicate, object) = match row {
        Row::RdfD2 => (first.predicate, TYPE, PROPERTY),
        Row::Rdfs2 => (second.subject, TYPE, first.object),
        Row::Rdfs3 => (second.object, TYPE, first.object),
        Row::Rdfs4a => (first.subject, TYPE, RESOURCE),
        Row::Rdfs4b => (first.object, TYPE, RESOURCE),
        Row::Rdfs5 => (first.subject, SUB_PROPERTY_OF, second.object),
        Row::Rdfs6 => (first.subject, SUB_PROPERTY_OF, first.subject),
        Row::Rdfs7 => (second.subject, first.object, second.object),
        Row::Rdfs8 => (first.subject, SUB_CLASS_OF, RESOURCE),
        Row::Rdfs9 => (second.subject, TYPE, first.object),
        Row::Rdfs10 => (first.subject, SUB_CLASS_OF, first.subject),
        Row::Rdfs11 => (first.subject, SUB_CLASS_OF, second.object),
        Row::Rdfs12 => (first.subject, SUB_PROPERTY_OF, MEMBER),
        Row::Rdfs13 => (first.subject, SUB_CLASS_OF, LITERAL),
    };
    Triple {
        subject,
        predicate,
        object,
    }
}

// Whether the row's conclusion is its second premise, where the first premise has one term at both ends.
fn repeats(row: Row) -> bool
    ensures { result ≡ repeats row }
{
    matches!(row, Row::Rdfs5 | Row::Rdfs7 | Row::Rdfs9 | Row::Rdfs11)
}

// Whether nothing new follows by the row from this first premise.
pub fn is_idle(row: Row, first: Triple) -> bool
    ensures { result ≡ (repeats row && (first.subject == first.object)) }
{
    repeats(row) && first.subject == first.object
}

// The last triple up to which each second premise with the same predicate gives the same conclusion as this one: where the
// conclusion does not speak of its object, the last with the same subject.
pub fn last_alike(row: Row, second: Triple) -> Triple
    ensures { result ≡ last_alike row second }
{
    match row {
        Row::Rdfs2 => Triple {
            subject: second.subject,
            predicate: second.predicate,
            object: TermNumber::MAX,
        },
        _ => second,
    }
}

// A part of a triple.
#[derive(Clone, Copy)]
pub enum Part {
    Subject,
    Predicate,
    Object,
}

// The one part of the premise that the conclusion speaks of, of a row that takes every triple as its premise.
pub fn part_of(row: Row) -> Option<Part>
    ensures { result ≡ part_of row }
{
    match row {
        Row::RdfD2 => Some(Part::Predicate),
        Row::Rdfs4a => Some(Part::Subject),
        Row::Rdfs4b => Some(Part::Object),
        _ => None,
    }
}

// Asks for a term at a part.
pub fn by_part(part: Part, term: TermNumber) -> Pattern
    ensures { result ≡ by_part part term }
{
    match part {
        Part::Subject => Pattern {
            subject: Some(term),
            predicate: None,
            object: None,
        },
        Part::Predicate => by_predicate(term),
        Part::Object => Pattern {
            subject: None,
            predicate: None,
            object: Some(term),
        },
    }
}
