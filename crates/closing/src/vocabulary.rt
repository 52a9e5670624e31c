// The numbers of the thirty IRIs that the rows and the start sets speak of. Each contract that such a number enters says it in
// the words of entailment's `Vocabulary`, so none can differ from it.
use triples::triple::TermNumber;

// How many terms every book begins with.
pub const THIRTY: usize = 30;

pub const TYPE: TermNumber = 0;

pub const PROPERTY: TermNumber = 1;

pub const LIST: TermNumber = 2;

pub const STATEMENT: TermNumber = 3;

pub const SUBJECT: TermNumber = 4;

pub const PREDICATE: TermNumber = 5;

pub const OBJECT: TermNumber = 6;

pub const FIRST: TermNumber = 7;

pub const REST: TermNumber = 8;

pub const VALUE: TermNumber = 9;

pub const NIL: TermNumber = 10;

pub const SEQ: TermNumber = 11;

pub const BAG: TermNumber = 12;

pub const ALT: TermNumber = 13;

pub const POSITION_1: TermNumber = 14;

pub const RESOURCE: TermNumber = 15;

pub const CLASS: TermNumber = 16;

pub const LITERAL: TermNumber = 17;

pub const DATATYPE: TermNumber = 18;

pub const CONTAINER: TermNumber = 19;

pub const CMP: TermNumber = 20;

pub const DOMAIN: TermNumber = 21;

pub const RANGE: TermNumber = 22;

pub const SUB_CLASS_OF: TermNumber = 23;

pub const SUB_PROPERTY_OF: TermNumber = 24;

pub const MEMBER: TermNumber = 25;

pub const SEE_ALSO: TermNumber = 26;

pub const IS_DEFINED_BY: TermNumber = 27;

pub const COMMENT: TermNumber = 28;

pub const LABEL: TermNumber = 29;
