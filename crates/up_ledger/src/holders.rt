//! The holders of an instance, as they are kept.
ghost use Rattle.std.specs.Prelude.{◌≡◌, ◌∷◌, [], IfOk};
ghost use Rattle.up_ledger.specs.Asking.{client_of};
ghost use Rattle.up_ledger.specs.Holding.{as_holders, holders_by};

use crate::step::Asked;
use std::alloc::{AllocError, Global};
use up_book::Holders;
use up_job::Holder;
use up_model::EventId;
use up_text::Items;

fn of_event(id: EventId) -> Holder
    ensures { as_holders (id ∷ []) ≡ result ∷ [] }
{
    Holder::Event(id)
}

fn of_events(alloc: Global, ids: &[EventId]) -> Result<Items<Holder>, AllocError>
    ensures { IfOk result (λ its. its ≡ as_holders ids.now) }
{
    let mut its = Vec::with_capacity(alloc, ids.len())?;
    for id in ids {
        its.push(of_event(*id))?;
    }
    Ok(Items::new(its))
}

fn of_client(alloc: Global, asked: Option<Asked>) -> Result<Items<Holder>, AllocError>
    ensures { IfOk result (λ its. its ≡ client_of asked) }
{
    let mut its = Vec::new(alloc);
    if let Some(asked) = asked {
        its.push(Holder::Client {
            id: asked.id,
            command: asked.command,
        })?;
    }
    Ok(Items::new(its))
}

/// The holders of an instance in a step with this request.
pub(crate) fn holders_by(
    alloc: Global,
    holders: Holders,
    asked: Option<Asked>,
) -> Result<Items<Holder>, AllocError>
    ensures { IfOk result (λ its. its ≡ holders_by holders asked) }
{
    match holders {
        Holders::Taken(ids) => of_events(alloc, ids.as_slice()),
        Holders::Client => of_client(alloc, asked),
        Holders::Nobody => Ok(Items::new(Vec::new(alloc))),
    }
}
