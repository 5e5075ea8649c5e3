//! The value that each leaf of a table wants of an event.
ghost use Rattle.std.specs.Prelude.{◌≡◌, IfOk, map};
ghost use Rattle.std.specs.Option.{option_copied};
ghost use Rattle.up_marks.specs.Finding as finding;

use crate::ruling::{is_literal, leaf_at};
use std::alloc::{AllocError, Global};
use up_expr::{Leaf, Test};
use up_image::{JobFile, Place};
use up_text::Text;

/// A leaf, and the value that a variable of an event must have for the leaf to match it. A leaf that wants none has an empty one.
#[derive(Debug, Drop)]
pub struct Wanted {
    pub value: Text,
    pub place: Place,
}

fn literal_of(value: &Text) -> Option<&Text>
    ensures { option_copied result ≡ finding.literal_of value.now }
{
    if is_literal(value.as_str().as_bytes()) {
        Some(value)
    } else {
        None
    }
}

fn literal_in(test: &Test) -> Option<&Text>
    ensures { option_copied result ≡ finding.literal_in test.now }
{
    match test {
        Test::Place(value) => literal_of(value),
        Test::Same(_, value) => literal_of(value),
        Test::Differs(_, _) => None,
    }
}

fn wanted_in(tests: &[Test]) -> &str
    ensures { result.now ≡ finding.wanted_in tests.now }
{
    for test in tests {
        match literal_in(test) {
            Some(value) => return value.as_str(),
            None => {}
        }
    }
    ""
}

fn wanted_by(leaf: Option<&Leaf>) -> &str
    ensures { result.now ≡ finding.wanted_by (option_copied leaf.entry) }
{
    match leaf {
        Some(leaf) => wanted_in(leaf.values.as_slice()),
        None => "",
    }
}

fn wanting(alloc: Global, jobs: &[JobFile], place: &Place) -> Result<Wanted, AllocError>
    ensures { IfOk result (λ leaf. leaf ≡ finding.wanting jobs.now place.now) }
{
    let value = Text::from_str(alloc, wanted_by(leaf_at(jobs, place)))?;
    let event = place.event.copy()?;
    let place = Place {
        event,
        job: place.job,
        start: place.start,
        node: place.node,
    };
    Ok(Wanted { value, place })
}

/// The leaves at these places of a table, each with the value that it wants.
pub(crate) fn wanting_each(
    alloc: Global,
    jobs: &[JobFile],
    places: &[Place],
) -> Result<Vec<Wanted>, AllocError>
    ensures { IfOk result (λ leaves. leaves.items ≡ map (finding.wanting jobs.now) places.now) }
{
    let mut leaves = Vec::new(alloc);
    for place in places {
        leaves.push(wanting(alloc, jobs, place)?)?;
    }
    Ok(leaves)
}
