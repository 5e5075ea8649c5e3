//! What an expression in force remembers, if the job file has it.
ghost use Rattle.std.specs.Prelude.{◌≡◌, ℕ, ◌+◌, ◌==◌, if◌then◌else◌, ◌++◌, ◌∷◌, [], IfOk, OnOk, OnErr, List, Option, Some, map};
ghost use Rattle.up_expr.specs.Trees.{Tree};
ghost use Rattle.up_expr.specs.Truth.{Sight};
ghost use Rattle.up_expr.specs.Truth as truth;
ghost use Rattle.up_model.specs.declared.event_id.EventId.{EventId as EventIdValue};
ghost use Rattle.up_model.specs.Seen as seen;
ghost use Rattle.up_marks.specs.Agreeing.{Agrees, OfEachId, OnOffer, newly};
ghost use Rattle.up_marks.specs.Marking.{kept_in, uses};
ghost use Rattle.up_marks.specs.Triggers.{OfEachIdIn, OnOfferIn, Remembers, kept_by, newly_in, uses_by};

use crate::marks::{Marks, Offer};
use std::alloc::{AllocError, Global};
use std::marker::Model;
use up_expr::Condition;
use up_image::Place;
use up_model::{Event, EventId};
use up_text::{Env, Items};

/// What an expression in force remembers of the events that it was offered: nothing, if the job file doesn't
/// have it.
#[derive(Debug, Drop)]
pub struct Trigger {
    marks: Option<Marks>,
}

impl Model for Trigger {
    ghost use Rattle.std.specs.Prelude.{List, Option};
    ghost use Rattle.up_marks.specs.declared.mark.Mark.{Mark};

    ghost Value = { Option (List Mark) };

    ghost view = { λ trigger. trigger.marks };
}

/// What an expression gives up when it fires.
#[derive(Debug, Drop)]
pub struct Firing {
    /// The events by which it was true, from left to right.
    pub taken: Items<EventId>,
    /// The events that its leaves kept, from left to right: one for each leaf that kept one.
    pub kept: Items<EventId>,
}

// Offers an event to the leaves at these places, if the marks fit the expression.
fn offer_fitting(
    marks: &mut Marks,
    alloc: Global,
    condition: &Condition,
    places: &[Place],
    id: EventId,
    event: &Event,
    env: &Env,
) -> Result<Offer, AllocError>
    ensures agrees { OnOk result (OnOffer marks.old condition.now places.now id event.now env.now
        (λ event_of sights sight. Agrees event_of marks.new condition.now (sights ++ sight ∷ []))) }
    ensures kept { IfOk result (λ offer. OnOffer marks.old condition.now places.now id event.now env.now
        (λ event_of sights sight. offer.kept ≡ newly condition.now sights sight)) }
    ensures holds { IfOk result (λ offer. OnOffer marks.old condition.now places.now id event.now env.now
        (λ event_of sights sight. offer.holds ≡ truth.holds condition.now (sights ++ sight ∷ []))) }
    ensures uses { IfOk result (λ offer. OfEachId marks.old condition.now places.now event.now
        (λ other. uses other marks.new ≡ uses other marks.old + (if id.key == other.key then offer.kept else 0))) }
    ensures unchanged { OnErr result (marks.new ≡ marks.old) }
{
    if marks.fits(condition) {
        marks.offer(alloc, condition, places, id, event, env)
    } else {
        Ok(Offer {
            kept: 0,
            holds: false,
        })
    }
}

// The events by which marks are true, if they fit the expression.
fn taken_fitting(
    marks: &Marks,
    alloc: Global,
    condition: &Condition,
) -> Result<Items<EventId>, AllocError>
    ensures { IfOk result (λ taken. (event_of : EventIdValue → Option ℕ) (sights : List Sight)
        → Agrees event_of marks.now condition.now sights
        → map event_of taken ≡ map Some (truth.taken condition.now sights)) }
{
    if marks.fits(condition) {
        marks.taken(alloc, condition)
    } else {
        Ok(Items::new(Vec::new(alloc)))
    }
}

// What marks give up, if they fit the expression.
fn fire_fitting(
    marks: &mut Marks,
    alloc: Global,
    condition: &Condition,
) -> Result<Firing, AllocError>
    ensures taken { IfOk result (λ firing. (event_of : EventIdValue → Option ℕ) (sights : List Sight)
        → Agrees event_of marks.old condition.now sights
        → map event_of firing.taken ≡ map Some (truth.taken condition.now sights)) }
    ensures kept { IfOk result (λ firing. firing.kept ≡ kept_in marks.old) }
    ensures none { OnOk result (kept_in marks.new ≡ []) }
    ensures agrees { OnOk result ((event_of event_of' : EventIdValue → Option ℕ) (sights : List Sight)
        → Agrees event_of marks.old condition.now sights → Agrees event_of' marks.new condition.now []) }
    ensures unchanged { OnErr result (marks.new ≡ marks.old) }
{
    let taken = taken_fitting(marks, alloc, condition)?;
    let kept = marks.clear(alloc)?;
    Ok(Firing { taken, kept })
}

impl Trigger {
    /// What an expression remembers that has seen nothing. Allocates all room that its leaves ever need.
    pub fn new(alloc: Global, condition: &Option<Condition>) -> Result<Self, AllocError>
        ensures { IfOk result (λ trigger. (event_of : EventIdValue → Option ℕ)
            → Remembers event_of trigger condition.now []) }
    {
        match condition {
            Some(condition) => {
                let marks = Marks::new(alloc, condition)?;
                Ok(Trigger { marks: Some(marks) })
            }
            None => Ok(Trigger { marks: None }),
        }
    }

    pub fn holds(&self) -> bool
        ensures { (event_of : EventIdValue → Option ℕ) (condition : Option Tree) (sights : List Sight)
            → Remembers event_of self.now condition sights → result ≡ seen.holds condition sights }
    {
        match &self.marks {
            Some(marks) => marks.holds(),
            None => false,
        }
    }

    /// The events that its leaves keep, from left to right: one for each leaf that keeps one.
    pub fn kept(&self, alloc: Global) -> Result<Items<EventId>, AllocError>
        ensures { IfOk result (λ kept. kept ≡ kept_by self.now) }
    {
        match &self.marks {
            Some(marks) => {
                let kept = marks.kept(alloc)?;
                Ok(kept)
            }
            None => Ok(Items::new(Vec::new(alloc))),
        }
    }

    /// Offers an event to the leaves at these places, which are those that name it. When out of memory, nothing changes.
    pub fn offer(
        &mut self,
        alloc: Global,
        condition: &Option<Condition>,
        places: &[Place],
        id: EventId,
        event: &Event,
        env: &Env,
    ) -> Result<Offer, AllocError>
        ensures remembers { OnOk result (OnOfferIn self.old condition.now places.now id event.now env.now
            (λ event_of sights sight. Remembers event_of self.new condition.now (sights ++ sight ∷ []))) }
        ensures kept { IfOk result (λ offer. OnOfferIn self.old condition.now places.now id event.now env.now
            (λ event_of sights sight. offer.kept ≡ newly_in condition.now sights sight)) }
        ensures holds { IfOk result (λ offer. OnOfferIn self.old condition.now places.now id event.now env.now
            (λ event_of sights sight. offer.holds ≡ seen.holds condition.now (sights ++ sight ∷ []))) }
        ensures uses { IfOk result (λ offer. OfEachIdIn self.old condition.now places.now event.now
            (λ other. uses_by other self.new ≡ uses_by other self.old + (if id.key == other.key then offer.kept else 0))) }
        ensures unchanged { OnErr result (self.new ≡ self.old) }
    {
        match condition {
            Some(condition) => match &mut self.marks {
                Some(marks) => offer_fitting(marks, alloc, condition, places, id, event, env),
                None => Ok(Offer {
                    kept: 0,
                    holds: false,
                }),
            },
            None => Ok(Offer {
                kept: 0,
                holds: false,
            }),
        }
    }

    /// The expression fires: it forgets all events. When out of memory, nothing changes.
    pub fn fire(
        &mut self,
        alloc: Global,
        condition: &Option<Condition>,
    ) -> Result<Firing, AllocError>
        ensures taken { IfOk result (λ firing. (event_of : EventIdValue → Option ℕ) (sights : List Sight)
            → Remembers event_of self.old condition.now sights
            → map event_of firing.taken ≡ map Some (seen.taken condition.now sights)) }
        ensures kept { IfOk result (λ firing. (event_of : EventIdValue → Option ℕ) (sights : List Sight)
            → Remembers event_of self.old condition.now sights → firing.kept ≡ kept_by self.old) }
        ensures remembers { OnOk result ((event_of event_of' : EventIdValue → Option ℕ) (sights : List Sight)
            → Remembers event_of self.old condition.now sights
            → Remembers event_of' self.new condition.now []) }
        ensures unchanged { OnErr result (self.new ≡ self.old) }
    {
        match condition {
            Some(condition) => match &mut self.marks {
                Some(marks) => fire_fitting(marks, alloc, condition),
                None => Ok(Firing {
                    taken: Items::new(Vec::new(alloc)),
                    kept: Items::new(Vec::new(alloc)),
                }),
            },
            None => Ok(Firing {
                taken: Items::new(Vec::new(alloc)),
                kept: Items::new(Vec::new(alloc)),
            }),
        }
    }
}
