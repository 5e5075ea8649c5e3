//! What an expression remembers.
ghost use Rattle.std.specs.Prelude.{◌≡◌, ℕ, ◌+◌, if◌then◌else◌, ◌==◌, ◌++◌, ◌∷◌, [], IfOk, OnOk, OnErr, List, Option, Some, length, map};
ghost use Rattle.up_expr.specs.Flat.{size};
ghost use Rattle.up_expr.specs.Trees.{Tree};
ghost use Rattle.up_expr.specs.Truth.{Sight};
ghost use Rattle.up_expr.specs.Truth as truth;
ghost use Rattle.up_model.specs.declared.event_id.EventId.{EventId as EventIdValue};
ghost use Rattle.up_marks.specs.Agreeing.{Agrees, OfEachId, OnOffer, newly};
ghost use Rattle.up_marks.specs.Marking.{kept_in, uses};

use crate::joining::hints_of;
use crate::keeping::root_holds;
use crate::mark::Mark;
use crate::offers::offer_in;
use crate::reset::{reset_all, unset_marks};
use crate::taking::{add_all_kept, add_taken};
use std::alloc::{AllocError, Global};
use std::marker::Model;
use up_expr::Condition;
use up_image::Place;
use up_model::{Event, EventId};
use up_text::{Env, Items};

/// What an expression remembers of the events that it was offered: for each leaf the first that it matches,
/// and which nodes are true by that. Contracts see the marks of its nodes in post-order.
#[derive(Debug, Drop)]
pub struct Marks {
    marks: Vec<Mark>,
    // where the node above each is
    hints: Vec<u16>,
}

impl Model for Marks {
    ghost use Rattle.std.specs.Prelude.{List};
    ghost use Rattle.up_marks.specs.declared.mark.Mark.{Mark};

    ghost Value = { List Mark };

    ghost view = { λ m. m.marks.items };
}

/// What an offer changed.
#[derive(Clone, Copy, Debug)]
pub struct Offer {
    /// How many leaves newly keep the event.
    pub kept: usize,
    /// Whether the expression is true now.
    pub holds: bool,
}

impl Marks {
    /// The marks of an expression that has seen nothing. Allocates all room that its leaves ever need.
    pub fn new(alloc: Global, condition: &Condition) -> Result<Self, AllocError>
        ensures { IfOk result (λ marks. (event_of : EventIdValue → Option ℕ)
            → Agrees event_of marks condition.now []) }
    {
        let hints = hints_of(alloc, condition.nodes().as_slice())?;
        let marks = unset_marks(alloc, condition.nodes().len())?;
        Ok(Marks { marks, hints })
    }

    fn as_slice(&self) -> &[Mark]
        ensures { result.now ≡ self.now }
    {
        self.marks.as_slice()
    }

    /// Whether there are as many as an expression has nodes.
    pub fn fits(&self, condition: &Condition) -> bool
        ensures { result ≡ (length self.now == size condition.now) }
    {
        self.as_slice().len() == condition.nodes().len()
    }

    pub fn holds(&self) -> bool
        ensures { (event_of : EventIdValue → Option ℕ) (tree : Tree) (sights : List Sight)
            → Agrees event_of self.now tree sights → result ≡ truth.holds tree sights }
    {
        let marks = self.as_slice();
        if marks.is_empty() {
            return false;
        }
        root_holds(marks)
    }

    /// Offers an event to the leaves at these places, which are those that name it. When out of memory, nothing changes.
    pub fn offer(
        &mut self,
        alloc: Global,
        condition: &Condition,
        places: &[Place],
        id: EventId,
        event: &Event,
        env: &Env,
    ) -> Result<Offer, AllocError>
        requires { length self.old ≡ size condition.now }
        ensures agrees { OnOk result (OnOffer self.old condition.now places.now id event.now env.now
            (λ event_of sights sight. Agrees event_of self.new condition.now (sights ++ sight ∷ []))) }
        ensures kept { IfOk result (λ offer. OnOffer self.old condition.now places.now id event.now env.now
            (λ event_of sights sight. offer.kept ≡ newly condition.now sights sight)) }
        ensures holds { IfOk result (λ offer. OnOffer self.old condition.now places.now id event.now env.now
            (λ event_of sights sight. offer.holds ≡ truth.holds condition.now (sights ++ sight ∷ []))) }
        ensures uses { IfOk result (λ offer. OfEachId self.old condition.now places.now event.now
            (λ other. uses other self.new ≡ uses other self.old + (if id.key == other.key then offer.kept else 0))) }
        ensures unchanged { OnErr result (self.new ≡ self.old) }
    {
        let hints = self.hints.as_slice();
        let kept = offer_in(
            alloc,
            condition,
            hints,
            &mut self.marks,
            places,
            id,
            event,
            env,
        )?;
        let holds = self.holds();
        Ok(Offer { kept, holds })
    }

    /// The events by which the expression is true, from left to right.
    pub fn taken(&self, alloc: Global, condition: &Condition) -> Result<Items<EventId>, AllocError>
        requires { length self.now ≡ size condition.now }
        ensures { IfOk result (λ taken. (event_of : EventIdValue → Option ℕ) (sights : List Sight)
            → Agrees event_of self.now condition.now sights
            → map event_of taken ≡ map Some (truth.taken condition.now sights)) }
    {
        let mut taken = Vec::new(alloc);
        add_taken(&condition.root(), self.as_slice(), &mut taken)?;
        Ok(Items::new(taken))
    }

    /// The events that the leaves keep, from left to right: one for each leaf that keeps one.
    pub fn kept(&self, alloc: Global) -> Result<Items<EventId>, AllocError>
        ensures ids { IfOk result (λ kept. kept ≡ kept_in self.now) }
        ensures events { IfOk result (λ kept. (event_of : EventIdValue → Option ℕ) (tree : Tree)
            (sights : List Sight)
            → Agrees event_of self.now tree sights
            → map event_of kept ≡ map Some (truth.kept tree sights)) }
    {
        let mut kept = Vec::new(alloc);
        add_all_kept(self.as_slice(), &mut kept)?;
        Ok(Items::new(kept))
    }

    /// Forgets all events. Takes no memory.
    pub fn forget(&mut self)
        ensures none { kept_in self.new ≡ [] }
        ensures agrees { (event_of event_of' : EventIdValue → Option ℕ) (tree : Tree) (sights : List Sight)
            → Agrees event_of self.old tree sights → Agrees event_of' self.new tree [] }
    {
        reset_all(&mut self.marks);
    }

    /// Forgets all events and returns them, one for each leaf that kept one, from left to right. When out of memory, nothing changes.
    pub fn clear(&mut self, alloc: Global) -> Result<Items<EventId>, AllocError>
        ensures ids { IfOk result (λ kept. kept ≡ kept_in self.old) }
        ensures none { OnOk result (kept_in self.new ≡ []) }
        ensures kept { IfOk result (λ kept. (event_of : EventIdValue → Option ℕ) (tree : Tree)
            (sights : List Sight) → Agrees event_of self.old tree sights
            → map event_of kept ≡ map Some (truth.kept tree sights)) }
        ensures agrees { OnOk result ((event_of event_of' : EventIdValue → Option ℕ) (tree : Tree)
            (sights : List Sight) → Agrees event_of self.old tree sights
            → Agrees event_of' self.new tree []) }
        ensures unchanged { OnErr result (self.new ≡ self.old) }
    {
        let kept = self.kept(alloc)?;
        self.forget();
        Ok(kept)
    }
}
