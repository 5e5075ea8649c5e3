//! How the leaves at some places come to keep an event that is new to them.
ghost use Rattle.std.specs.Prelude.{◌≡◌, [], ◌∷◌, IfOk, OnErr, OnOk, filter, length, map};
ghost use Rattle.up_expr.specs.Flat.{size};
ghost use Rattle.up_marks.specs.Marking.{Kept, all_kept, marks_of, newly_matches};

use crate::keeping::{keep, keep_all};
use crate::mark::Mark;
use crate::matching::{newly_matches, newly_matching};
use std::alloc::{AllocError, Global};
use up_expr::Condition;
use up_image::Place;
use up_model::{Event, EventId};
use up_text::Env;

// Makes the leaf at a place keep an event, if that is new to it. Returns the number of leaves that do.
fn offer_to_one(
    alloc: Global,
    condition: &Condition,
    hints: &[u16],
    marks: &mut [Mark],
    node: u16,
    id: EventId,
    event: &Event,
    env: &Env,
) -> Result<usize, AllocError>
    requires { length marks.old ≡ size condition.now }
    ensures marks { OnOk result ((kept : Kept) → marks.old ≡ marks_of 0 condition.now kept
        → marks.new ≡ marks_of 0 condition.now (all_kept
        (filter (newly_matches 0 condition.now kept event.now.name event.now.vars env.now) (node ∷ []))
        id kept)) }
    ensures count { IfOk result (λ count. (kept : Kept) → marks.old ≡ marks_of 0 condition.now kept
        → count ≡ length
        (filter (newly_matches 0 condition.now kept event.now.name event.now.vars env.now) (node ∷ []))) }
    ensures unchanged { OnErr result (marks.new ≡ marks.old) }
{
    let place = usize::from(node);
    if newly_matches(alloc, condition, marks, place, event, env)? {
        keep(condition, hints, marks, place, id);
        Ok(1)
    } else {
        Ok(0)
    }
}

// The same for several places. Finds all that match before it sets a mark, as memory may run out.
fn offer_to_all(
    alloc: Global,
    condition: &Condition,
    hints: &[u16],
    marks: &mut [Mark],
    places: &[Place],
    id: EventId,
    event: &Event,
    env: &Env,
) -> Result<usize, AllocError>
    requires { length marks.old ≡ size condition.now }
    ensures marks { OnOk result ((kept : Kept) → marks.old ≡ marks_of 0 condition.now kept
        → marks.new ≡ marks_of 0 condition.now (all_kept
        (filter (newly_matches 0 condition.now kept event.now.name event.now.vars env.now)
        (map (λ place. place.node) places.now))
        id kept)) }
    ensures count { IfOk result (λ count. (kept : Kept) → marks.old ≡ marks_of 0 condition.now kept
        → count ≡ length
        (filter (newly_matches 0 condition.now kept event.now.name event.now.vars env.now)
        (map (λ place. place.node) places.now))) }
    ensures unchanged { OnErr result (marks.new ≡ marks.old) }
{
    let matched = newly_matching(alloc, condition, marks, places, event, env)?;
    keep_all(condition, hints, marks, matched.as_slice(), id);
    Ok(matched.len())
}

/// Makes the leaves at these places keep an event, if that is new to them. Returns the number of leaves that do.
pub(crate) fn offer_to(
    alloc: Global,
    condition: &Condition,
    hints: &[u16],
    marks: &mut [Mark],
    places: &[Place],
    id: EventId,
    event: &Event,
    env: &Env,
) -> Result<usize, AllocError>
    requires { length marks.old ≡ size condition.now }
    ensures marks { OnOk result ((kept : Kept) → marks.old ≡ marks_of 0 condition.now kept
        → marks.new ≡ marks_of 0 condition.now (all_kept
        (filter (newly_matches 0 condition.now kept event.now.name event.now.vars env.now)
        (map (λ place. place.node) places.now))
        id kept)) }
    ensures count { IfOk result (λ count. (kept : Kept) → marks.old ≡ marks_of 0 condition.now kept
        → count ≡ length
        (filter (newly_matches 0 condition.now kept event.now.name event.now.vars env.now)
        (map (λ place. place.node) places.now))) }
    ensures unchanged { OnErr result (marks.new ≡ marks.old) }
{
    match places {
        [place] => offer_to_one(alloc, condition, hints, marks, place.node, id, event, env),
        _ => offer_to_all(alloc, condition, hints, marks, places, id, event, env),
    }
}

/// The same for a vector of marks.
#[tactic(auto, using(crate::proofs::Markings::written))]
pub(crate) fn offer_in(
    alloc: Global,
    condition: &Condition,
    hints: &[u16],
    marks: &mut Vec<Mark>,
    places: &[Place],
    id: EventId,
    event: &Event,
    env: &Env,
) -> Result<usize, AllocError>
    requires { length marks.old.items ≡ size condition.now }
    ensures marks { OnOk result ((kept : Kept) → marks.old.items ≡ marks_of 0 condition.now kept
        → marks.new.items ≡ marks_of 0 condition.now (all_kept
        (filter (newly_matches 0 condition.now kept event.now.name event.now.vars env.now)
        (map (λ place. place.node) places.now))
        id kept)) }
    ensures count { IfOk result (λ count. (kept : Kept) → marks.old.items ≡ marks_of 0 condition.now kept
        → count ≡ length
        (filter (newly_matches 0 condition.now kept event.now.name event.now.vars env.now)
        (map (λ place. place.node) places.now))) }
    ensures unchanged { OnErr result (marks.new.items ≡ marks.old.items) }
{
    offer_to(
        alloc,
        condition,
        hints,
        marks.as_mut_slice(),
        places,
        id,
        event,
        env,
    )
}
