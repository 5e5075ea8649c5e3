//! Which leaves an event is new to: those that keep none yet and match it.
ghost use Rattle.std.specs.Prelude.{◌≡◌, IfOk, length, map, is_some, if◌then◌else◌, false, filter};
ghost use Rattle.up_expr.specs.Flat.{size};
ghost use Rattle.up_expr.specs.Matching.{matches};
ghost use Rattle.up_marks.specs.Marking.{Kept, newly_matches, marks_of};

use crate::mark::Mark;
use crate::ruling::leaf_in;
use std::alloc::{AllocError, Global};
use up_expr::{Condition, Leaf, leaf_matches};
use up_image::Place;
use up_model::Event;
use up_text::Env;

// Whether a leaf with this mark keeps no event yet and matches this one.
fn leaf_newly_matches(
    alloc: Global,
    leaf: &Leaf,
    mark: Mark,
    event: &Event,
    env: &Env,
) -> Result<bool, AllocError>
    ensures { IfOk result (λ matched. matched ≡ (if is_some mark.kept then false
        else matches leaf.now event.now.name event.now.vars env.now)) }
{
    if mark.kept.is_some() {
        return Ok(false);
    }
    match leaf_matches(alloc, leaf, &event.name, &event.vars, env) {
        Ok(matches) => Ok(matches),
        Err(_) => Err(AllocError),
    }
}

/// Whether the node at a place is a leaf that keeps no event yet and matches this one.
pub(crate) fn newly_matches(
    alloc: Global,
    condition: &Condition,
    marks: &[Mark],
    node: usize,
    event: &Event,
    env: &Env,
) -> Result<bool, AllocError>
    requires { length marks.now ≡ size condition.now }
    ensures { IfOk result (λ matched. (kept : Kept) → marks.now ≡ marks_of 0 condition.now kept
        → matched ≡ newly_matches 0 condition.now kept event.now.name event.now.vars env.now node) }
{
    match leaf_in(Some(condition), node) {
        Some(leaf) => {
            let matched = leaf_newly_matches(alloc, leaf, marks[node], event, env)?;
            Ok(matched)
        }
        None => Ok(false),
    }
}

/// The places of the leaves among these that keep no event yet and match this one.
pub(crate) fn newly_matching(
    alloc: Global,
    condition: &Condition,
    marks: &[Mark],
    places: &[Place],
    event: &Event,
    env: &Env,
) -> Result<Vec<u16>, AllocError>
    requires { length marks.now ≡ size condition.now }
    ensures { IfOk result (λ matched. (kept : Kept) → marks.now ≡ marks_of 0 condition.now kept
        → matched.items
        ≡ filter (newly_matches 0 condition.now kept event.now.name event.now.vars env.now)
        (map (λ place. place.node) places.now)) }
{
    let mut matched = Vec::new(alloc);
    for place in places {
        if newly_matches(alloc, condition, marks, usize::from(place.node), event, env)? {
            matched.push(place.node)?;
        }
    }
    Ok(matched)
}
