//! A step: the effect of an input, and then what is due until nothing is.
ghost use Rattle.std.specs.Prelude.{◌≡◌, ◌++◌, false, IsOk, OnOk};
ghost use Rattle.up_book.specs.Keys.{Resting, Stepping};
ghost use Rattle.up_cascade.specs.Settling as settling;
ghost use Rattle.up_cascade.specs.Unfired.{IsAtRest};
ghost use Rattle.up_engine.specs.Free.{IsFree};
ghost use Rattle.up_model.specs.Chronicle.{Chronicle};
ghost use Rattle.up_model.specs.Due.{effect};
ghost use Rattle.up_model.specs.Loads.{is_load};

use crate::due::{Concern, apply_effect};
use std::alloc::{AllocError, Global};
use up_book::Book;
use up_cascade::{Setup, hear_all, settle_alone, settle_jobs};
use up_model::Input;

/// Takes an input other than a load, and then does what is due until nothing is. Nothing was due before.
#[tactic(auto, unfolding(up_cascade::specs::Settling::after_in))]
pub(crate) fn run_step<B: Book>(
    alloc: Global,
    setup: &Setup,
    book: &mut B,
    input: Input,
) -> Result<(), AllocError>
    requires { is_load input ≡ false }
    ensures after { OnOk result ((c : Chronicle) → B.stands book.old Resting setup.now c → IsAtRest setup.now c
        → B.stands book.new Stepping setup.now (settling.after_in setup.now c input)) }
    ensures free { (c : Chronicle) → B.stands book.old Resting setup.now c → IsFree setup.now c input
        → IsOk result × B.stands book.new Stepping setup.now (effect setup.now input c ++ c) }
{
    setup.names_differ();
    match apply_effect(alloc, setup, book, input)? {
        Concern::Nobody => {}
        Concern::Client => {
            book.reply_last()?;
        }
        Concern::Instance(key) => settle_alone(alloc, setup, book, key)?,
        Concern::Event(event) => hear_all(alloc, setup, book, event)?,
        Concern::Anybody => settle_jobs(alloc, setup, book)?,
    }
    Ok(())
}
