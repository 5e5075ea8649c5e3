//! The effect of a load (initctl(8), `reload-configuration`).
ghost use Rattle.std.specs.Prelude.{◌≡◌, ◌∷◌, ◌++◌, length, true, OnOk};
ghost use Rattle.up_book.specs.Keys.{Stepping};
ghost use Rattle.up_model.specs.Chronicle.{Chronicle};
ghost use Rattle.up_model.specs.Chronicle as entry;
ghost use Rattle.up_model.specs.Configuration.{Configuration};
ghost use Rattle.up_model.specs.Due.{effect};
ghost use Rattle.up_model.specs.Loads.{in_force, is_load, loading, not_loaded, with_jobs};
ghost use Rattle.up_model.specs.declared.input.Input.{Input as InputValue};
ghost use Rattle.up_model.specs.declared.loaded.Loaded.TheVariants as loaded_as;

use crate::texts::{configuration_not_read, configuration_refused};
use std::alloc::{AllocError, Global};
use up_book::Book;
use up_cascade::Setup;
use up_image::Table;
use up_model::{Answer, Input, Loaded};
use up_text::Text;

// Puts the jobs that were read in force, and answers the client.
fn load_files<B: Book>(
    alloc: Global,
    setup: &mut Setup,
    book: &mut B,
    table: Table,
) -> Result<(), AllocError>
    ensures setup { OnOk result ((c : Chronicle) (given : InputValue) → B.stands book.old Stepping setup.old (entry.Given given ∷ c)
        → setup.new ≡ with_jobs table setup.old (entry.Given given ∷ c)) }
    ensures book { OnOk result ((c : Chronicle) (given : InputValue) → B.stands book.old Stepping setup.old (entry.Given given ∷ c)
        → B.stands book.new Stepping setup.new (loading (length c) (loaded_as.Files table) ++ entry.Given given ∷ c)) }
{
    let next = setup.load(alloc, book, table)?;
    next.is_ordered();
    book.load(next.jobs())?;
    *setup = next;
    let text = Text::empty();
    book.reply(Answer { ok: true, text })?;
    Ok(())
}

// Answers the client that nothing was loaded.
fn refuse_load<B: Book>(book: &mut B, text: Text) -> Result<(), AllocError>
    ensures { OnOk result ((config : Configuration) (c : Chronicle) (given : InputValue)
        → B.stands book.old Stepping config (entry.Given given ∷ c)
        → B.stands book.new Stepping config (not_loaded (length c) text ++ entry.Given given ∷ c)) }
{
    book.reply(Answer { ok: false, text })?;
    Ok(())
}

fn load_or_refuse<B: Book>(
    alloc: Global,
    setup: &mut Setup,
    book: &mut B,
    loaded: Loaded,
) -> Result<(), AllocError>
    ensures setup { OnOk result ((start : Configuration) (c : Chronicle) (given : InputValue) → setup.old ≡ in_force start c
        → B.stands book.old Stepping setup.old (entry.Given given ∷ c)
        → setup.new ≡ in_force start (loading (length c) loaded ++ entry.Given given ∷ c)) }
    ensures book { OnOk result ((c : Chronicle) (given : InputValue) → B.stands book.old Stepping setup.old (entry.Given given ∷ c)
        → B.stands book.new Stepping setup.new (loading (length c) loaded ++ entry.Given given ∷ c)) }
{
    match loaded {
        Loaded::Files(table) => load_files(alloc, setup, book, table)?,
        Loaded::Refused(number) => {
            let text = configuration_refused(alloc, number)?;
            refuse_load(book, text)?;
        }
        Loaded::Unread => {
            let text = configuration_not_read(alloc)?;
            refuse_load(book, text)?;
        }
    }
    Ok(())
}

pub(crate) fn is_load(given: &Input) -> bool
    ensures { result ≡ is_load given.now }
{
    matches!(given, Input::Load { .. })
}

/// Carries out a load that the book has taken in.
#[tactic(auto, unfolding(up_model::specs::Due::effect), using(up_cascade::proofs::Entries::one_last))]
pub(crate) fn load<B: Book>(
    alloc: Global,
    setup: &mut Setup,
    book: &mut B,
    given: Input,
) -> Result<(), AllocError>
    requires { is_load given ≡ true }
    ensures setup { OnOk result ((start : Configuration) (c : Chronicle) → setup.old ≡ in_force start c
        → B.stands book.old Stepping setup.old (entry.Given given ∷ c)
        → setup.new ≡ in_force start (effect setup.old given c ++ c)) }
    ensures book { OnOk result ((c : Chronicle) → B.stands book.old Stepping setup.old (entry.Given given ∷ c)
        → B.stands book.new Stepping setup.new (effect setup.old given c ++ c)) }
{
    match given {
        Input::Load { loaded, .. } => load_or_refuse(alloc, setup, book, loaded)?,
        Input::Emit(_)
        | Input::Request { .. }
        | Input::Spawned { .. }
        | Input::Refused { .. }
        | Input::Ended { .. }
        | Input::Clock(_)
        | Input::Turn => unreachable!(),
    }
    Ok(())
}
