//! The contract of a source's calls.
ghost use Rattle.std.specs.Prelude.{◌≡◌, Some, IfOk};
ghost use Rattle.up_edge.specs.Calls.{Calls, Reports, emptied, with_failure};
ghost use Rattle.up_edge.specs.Journals.{calls_of};
ghost use Rattle.up_model.specs.declared.loaded.Loaded.{Loaded};

use crate::journal::Journal;
use crate::source_fault::SourceFault;
use std::alloc::Global;
use up_model::Loaded;

/// Reads the configuration again, when a client asks for it (initctl(8), `reload-configuration`).
///
/// A call that succeeds adds one entry to the record, and one that fails adds one to the count of faults.
pub trait Source {
    /// The record, and how many calls succeeded and failed.
    ghost calls: { Self → Calls Loaded };

    /// The jobs that are there now, or why they are refused.
    fn load(&mut self) -> Result<Loaded, SourceFault>
        ensures { Reports (λ loaded. loaded) (calls self.old) result (calls self.new) };

    fn faults(&self) -> u64
        ensures { result ≡ (calls self.now).faults };

    /// The record, oldest first.
    fn happened(&self) -> &[Loaded]
        ensures { result.now ≡ (calls self.now).entries };

    fn clear_record(&mut self)
        ensures { calls self.new ≡ emptied (calls self.old) };
}

fn fail_load(journal: &mut Journal<Loaded>) -> SourceFault
    ensures { calls_of journal.new ≡ with_failure (calls_of journal.old) }
{
    journal.count_fault();
    SourceFault
}

/// Records a load that found this. If it found nothing, or is out of memory for the entry, the load failed.
pub fn report_load(
    journal: &mut Journal<Loaded>,
    alloc: Global,
    found: Option<Loaded>,
) -> Result<Loaded, SourceFault>
    ensures reports { Reports (λ loaded. loaded) (calls_of journal.old) result (calls_of journal.new) }
    ensures found { IfOk result (λ loaded. found ≡ Some loaded) }
{
    match found {
        Some(loaded) => match loaded.copy(alloc) {
            Ok(told) => {
                if journal.make_room() {
                    journal.add(told);
                    Ok(loaded)
                } else {
                    drop(told);
                    drop(loaded);
                    Err(fail_load(journal))
                }
            }
            Err(_) => {
                drop(loaded);
                Err(fail_load(journal))
            }
        },
        None => Err(fail_load(journal)),
    }
}
