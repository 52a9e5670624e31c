// The names that every book begins with.
ghost use Rattle.std.specs.Prelude.{◌≡◌, ◌<◌, length, map, slice_get, Some};
ghost use Rattle.entailment.specs.Terms.{thirty};
ghost use Rattle.names.specs.Terms.{term_spelled};

// Their spellings, by number.
const THIRTY: [&[u8]; 30] = [
    b"<http://www.w3.org/1999/02/22-rdf-syntax-ns#type>",
    b"<http://www.w3.org/1999/02/22-rdf-syntax-ns#Property>",
    b"<http://www.w3.org/1999/02/22-rdf-syntax-ns#List>",
    b"<http://www.w3.org/1999/02/22-rdf-syntax-ns#Statement>",
    b"<http://www.w3.org/1999/02/22-rdf-syntax-ns#subject>",
    b"<http://www.w3.org/1999/02/22-rdf-syntax-ns#predicate>",
    b"<http://www.w3.org/1999/02/22-rdf-syntax-ns#object>",
    b"<http://www.w3.org/1999/02/22-rdf-syntax-ns#first>",
    b"<http://www.w3.org/1999/02/22-rdf-syntax-ns#rest>",
    b"<http://www.w3.org/1999/02/22-rdf-syntax-ns#value>",
    b"<http://www.w3.org/1999/02/22-rdf-syntax-ns#nil>",
    b"<http://www.w3.org/1999/02/22-rdf-syntax-ns#Seq>",
    b"<http://www.w3.org/1999/02/22-rdf-syntax-ns#Bag>",
    b"<http://www.w3.org/1999/02/22-rdf-syntax-ns#Alt>",
    b"<http://www.w3.org/1999/02/22-rdf-syntax-ns#_1>",
    b"<http://www.w3.org/2000/01/rdf-schema#Resource>",
    b"<http://www.w3.org/2000/01/rdf-schema#Class>",
    b"<http://www.w3.org/2000/01/rdf-schema#Literal>",
    b"<http://www.w3.org/2000/01/rdf-schema#Datatype>",
    b"<http://www.w3.org/2000/01/rdf-schema#Container>",
    b"<http://www.w3.org/2000/01/rdf-schema#ContainerMembershipProperty>",
    b"<http://www.w3.org/2000/01/rdf-schema#domain>",
    b"<http://www.w3.org/2000/01/rdf-schema#range>",
    b"<http://www.w3.org/2000/01/rdf-schema#subClassOf>",
    b"<http://www.w3.org/2000/01/rdf-schema#subPropertyOf>",
    b"<http://www.w3.org/2000/01/rdf-schema#member>",
    b"<http://www.w3.org/2000/01/rdf-schema#seeAlso>",
    b"<http://www.w3.org/2000/01/rdf-schema#isDefinedBy>",
    b"<http://www.w3.org/2000/01/rdf-schema#comment>",
    b"<http://www.w3.org/2000/01/rdf-schema#label>",
];

// What stands at a place of a table of spellings.
fn at<'a>(spellings: &[&'a [u8]], number: usize) -> &'a [u8]
    requires { number < length spellings.now }
    ensures { slice_get (map (λ s. term_spelled s.now) spellings.now) number ≡ Some (term_spelled result.now) }
{
    spellings[number]
}

// The spelling of one of the thirty, by its number. The table and the thirty are compared by computing.
#[tactic(auto, unfolding(entailment::specs::Terms::thirty, entailment::specs::Terms::rdf, entailment::specs::Terms::rdfs))]
pub(crate) fn spelling(number: usize) -> &'static [u8]
    requires { number < 30 }
    ensures { slice_get thirty number ≡ Some (term_spelled result.now) }
{
    at(&THIRTY, number)
}
