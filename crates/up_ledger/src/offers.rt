//! Offers of events to expressions, and the firing of expressions.
ghost use Rattle.std.specs.Prelude.{◌≡◌, ◌∷◌, ℕ, map, Some, IfOk, OnOk};
ghost use Rattle.up_ledger.specs.Eventing.{SamePlaces};
ghost use Rattle.up_ledger.specs.Hearing.{Fires, Hears, start_leaves, trigger_at, trigger_in};
ghost use Rattle.up_ledger.specs.Histories.{OfPastStartFiring, OfPastStartOffer, OfPastStopFiring, OfPastStopOffer};
ghost use Rattle.up_book.specs.Histories.{start_events, stop_events};
ghost use Rattle.up_event.specs.LiveEvents.{named as named_event};
ghost use Rattle.up_event.specs.declared.live.LiveEvent.{LiveEvent as LiveEventValue};
ghost use Rattle.up_job.specs.JobLists.{changed_at};
ghost use Rattle.up_job.specs.Lending.{with_stop_on};
ghost use Rattle.up_job.specs.Lists.{with_at};
ghost use Rattle.up_marks.specs.Naming.{naming_in};
ghost use Rattle.up_model.specs.Chronicle.{Chronicle};
ghost use Rattle.up_model.specs.Chronicle as entry;
ghost use Rattle.up_model.specs.Configuration.{Configuration};
ghost use Rattle.up_model.specs.Readings as read;
ghost use Rattle.up_model.specs.Seen as seen;

use crate::hearing::{fire_start, fire_stop, offer_to_start, offer_to_stop};
use crate::holding::{free_ids, hold_times};
use crate::past::Past;
use std::alloc::{AllocError, Global};
use up_conf::JobDef;
use up_image::JobFile;
use up_job::InstanceKey;
use up_marks::{Firing, Index, Offer, stop_leaves};
use up_model::EventId;
use up_text::{Env, Items};

impl Past {
    ghost use Rattle.up_ledger.specs.Standing.{Forgets, event_place, instance_place};

    fn env_copy(&self, alloc: Global, key: InstanceKey) -> Result<Env, AllocError>
        ensures { IfOk result (λ env. (config : Configuration) (c : Chronicle) (i : ℕ) → Forgets self.now config c
            → instance_place self.now c key ≡ Some i → env ≡ read.env i c) }
    {
        match self.env(key) {
            Some(env) => {
                let env = env.copy()?;
                Ok(env)
            }
            None => Ok(Env::new(alloc)),
        }
    }

    fn offer_to_stop(
        &mut self,
        alloc: Global,
        key: InstanceKey,
        file: &JobFile,
        id: EventId,
        env: &Env,
    ) -> Result<Offer, AllocError>
        ensures only { OnOk result (self.new ≡ record self.old {
          instances = changed_at key (with_stop_on (trigger_at key self.new.instances)) self.old.instances;
        }) }
        ensures hears { IfOk result (λ offer. (live : LiveEventValue) → named_event id self.old.events ≡ Some live
            → Hears (trigger_at key self.old.instances) (trigger_at key self.new.instances) file.now.stop_on
            (naming_in file.now.stop_on live.event.name) id live.event env.now offer) }
    {
        match self.events.find(id) {
            Some(live) => {
                let leaves = stop_leaves(file, &live.event.name);
                let offer = offer_to_stop(
                    &mut self.instances,
                    key,
                    alloc,
                    &file.job().stop_on,
                    leaves,
                    id,
                    &live.event,
                    env,
                )?;
                Ok(offer)
            }
            None => Err(AllocError),
        }
    }

    /// Offers an event to the `stop on` of an instance; returns whether that is then true.
    pub(crate) fn offer_stop(
        &mut self,
        alloc: Global,
        key: InstanceKey,
        file: &JobFile,
        id: EventId,
    ) -> Result<bool, AllocError>
        ensures after { OnOk result (OfPastStopOffer self.old key file.now id (λ config c i e.
            Forgets self.new config (entry.Offered (entry.StopOn i) e ∷ c))) }
        ensures holds { IfOk result (λ holds. OfPastStopOffer self.old key file.now id (λ config c i e.
            holds ≡ seen.holds file.now.stop_on
            (seen.seen config (entry.StopOn i) (entry.Offered (entry.StopOn i) e ∷ c)))) }
        ensures places { OnOk result (SamePlaces self.new.events self.old.events) }
    {
        let env = self.env_copy(alloc, key)?;
        let offer = self.offer_to_stop(alloc, key, file, id, &env)?;
        hold_times(&mut self.events, id, offer.kept)?;
        Ok(offer.holds)
    }

    fn offer_to_start(
        &mut self,
        alloc: Global,
        index: &Index,
        place: usize,
        job: &JobDef,
        id: EventId,
        env: &Env,
    ) -> Result<Offer, AllocError>
        ensures instances { OnOk result (self.new.instances ≡ self.old.instances) }
        ensures starts { OnOk result (self.new.starts.items
            ≡ with_at place (λ old. trigger_in place self.new.starts.items) self.old.starts.items) }
        ensures events { OnOk result (self.new.events ≡ self.old.events) }
        ensures reading { OnOk result (self.new.reading ≡ self.old.reading) }
        ensures hears { IfOk result (λ offer. (live : LiveEventValue) → named_event id self.old.events ≡ Some live
            → Hears (trigger_in place self.old.starts.items) (trigger_in place self.new.starts.items) job.now.start_on
            (start_leaves index.now place live.event.name) id live.event env.now offer) }
    {
        match self.events.find(id) {
            Some(live) => {
                let leaves = index.leaves(&live.event.name, place, true);
                let offer = offer_to_start(
                    &mut self.starts,
                    place,
                    alloc,
                    &job.start_on,
                    leaves,
                    id,
                    &live.event,
                    env,
                )?;
                Ok(offer)
            }
            None => Err(AllocError),
        }
    }

    /// Offers an event to the `start on` of the job at a place of the table, whose environment this is; returns whether that is then
    /// true.
    pub(crate) fn offer_start(
        &mut self,
        alloc: Global,
        index: &Index,
        place: usize,
        job: &JobDef,
        env: &Env,
        id: EventId,
    ) -> Result<bool, AllocError>
        ensures after { OnOk result (OfPastStartOffer self.old index.now place job.now env.now id (λ config c e.
            Forgets self.new config (entry.Offered (entry.StartOn job.now.name) e ∷ c))) }
        ensures holds { IfOk result (λ holds. OfPastStartOffer self.old index.now place job.now env.now id (λ config c e.
            holds ≡ seen.holds job.now.start_on
            (seen.seen config (entry.StartOn job.now.name) (entry.Offered (entry.StartOn job.now.name) e ∷ c)))) }
        ensures places { OnOk result (SamePlaces self.new.events self.old.events) }
    {
        let offer = self.offer_to_start(alloc, index, place, job, id, env)?;
        hold_times(&mut self.events, id, offer.kept)?;
        Ok(offer.holds)
    }

    fn fire_stop_of(
        &mut self,
        alloc: Global,
        key: InstanceKey,
        job: &JobDef,
    ) -> Result<Firing, AllocError>
        ensures only { OnOk result (self.new ≡ record self.old {
          instances = changed_at key (with_stop_on (trigger_at key self.new.instances)) self.old.instances;
        }) }
        ensures fires { IfOk result (λ firing. Fires (trigger_at key self.old.instances)
            (trigger_at key self.new.instances) job.now.stop_on firing) }
    {
        let firing = fire_stop(&mut self.instances, key, alloc, &job.stop_on)?;
        Ok(firing)
    }

    /// The `stop on` of an instance fires; returns the events that it takes, from left to right.
    pub(crate) fn fire_stop(
        &mut self,
        alloc: Global,
        key: InstanceKey,
        job: &JobDef,
    ) -> Result<Items<EventId>, AllocError>
        ensures after { OnOk result (OfPastStopFiring self.old key job.now (λ config c i ts.
            Forgets self.new config (entry.Fired (entry.StopOn i) ts ∷ c))) }
        ensures taken { IfOk result (λ taken. OfPastStopFiring self.old key job.now (λ config c i ts.
            map (event_place self.new (entry.Fired (entry.StopOn i) ts ∷ c)) taken
            ≡ map Some (stop_events config job.now i c))) }
        ensures places { OnOk result (SamePlaces self.new.events self.old.events) }
    {
        let Firing { taken, kept } = self.fire_stop_of(alloc, key, job)?;
        free_ids(&mut self.events, kept.as_slice());
        Ok(taken)
    }

    fn fire_start_of(
        &mut self,
        alloc: Global,
        place: usize,
        job: &JobDef,
    ) -> Result<Firing, AllocError>
        ensures instances { OnOk result (self.new.instances ≡ self.old.instances) }
        ensures starts { OnOk result (self.new.starts.items
            ≡ with_at place (λ old. trigger_in place self.new.starts.items) self.old.starts.items) }
        ensures events { OnOk result (self.new.events ≡ self.old.events) }
        ensures reading { OnOk result (self.new.reading ≡ self.old.reading) }
        ensures fires { IfOk result (λ firing. Fires (trigger_in place self.old.starts.items)
            (trigger_in place self.new.starts.items) job.now.start_on firing) }
    {
        let firing = fire_start(&mut self.starts, place, alloc, &job.start_on)?;
        Ok(firing)
    }

    /// The `start on` of the job at a place of the table fires; returns the events that it takes, from left to right.
    pub(crate) fn fire_start(
        &mut self,
        alloc: Global,
        place: usize,
        job: &JobDef,
    ) -> Result<Items<EventId>, AllocError>
        ensures after { OnOk result (OfPastStartFiring self.old place job.now (λ config c ts.
            Forgets self.new config (entry.Fired (entry.StartOn job.now.name) ts ∷ c))) }
        ensures taken { IfOk result (λ taken. OfPastStartFiring self.old place job.now (λ config c ts.
            map (event_place self.new (entry.Fired (entry.StartOn job.now.name) ts ∷ c)) taken
            ≡ map Some (start_events config job.now c))) }
        ensures places { OnOk result (SamePlaces self.new.events self.old.events) }
    {
        let Firing { taken, kept } = self.fire_start_of(alloc, place, job)?;
        free_ids(&mut self.events, kept.as_slice());
        Ok(taken)
    }
}
