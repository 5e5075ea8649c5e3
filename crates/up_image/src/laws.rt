//! Laws: what holds of every image, and of what a folder is compiled to.
ghost use Rattle.std.specs.Prelude.{◌≡◌, ◌==◌, ◌+◌, ◌↔◌, ◌⊎◌, List, false, length, map, nat_le, true, ℕ, Result, Ok, Err};
ghost use Rattle.std.specs.List.{list_all};
ghost use Rattle.up_conf.specs.declared.folder.File.{File};
ghost use Rattle.up_conf.specs.declared.job.JobDef.{JobDef};
ghost use Rattle.up_conf.specs.declared.report.Fault.{Fault};
ghost use Rattle.up_conf.specs.Folders.{jobs_of};
ghost use Rattle.up_image.specs.Compiling.{Compiles, has_twice, read_paths};
ghost use Rattle.up_image.specs.Definable.{are_ascending, are_definable};
ghost use Rattle.up_image.specs.Image.{IsImage, IsVersion, body_of, fits, has_image};
ghost use Rattle.up_image.specs.declared.version.Version.{Version};
ghost use Rattle.up_image.specs.declared.version.Version.TheVariants.{One, Two};
ghost use Rattle.up_stanza.specs.Signals.{hup};
ghost use Rattle.up_image.specs.Index.{all_places, entries_of, event_of, is_entry, named, places_of};
ghost use Rattle.up_image.specs.Reading.{ReadsImage, head_error};
ghost use Rattle.up_image.specs.declared.image_error.ImageError.{ImageError};
ghost use Rattle.up_image.specs.declared.image_error.ImageError.TheVariants.{Memory};

/// A table has at most one image in each version.
pub fn one_image()
    ensures { (version : Version) (bytes other : List ℕ) (jobs : List JobDef) → IsVersion version bytes jobs
        → IsVersion version other jobs → bytes ≡ other }
{}

/// An image belongs to at most one table, whatever its version.
pub fn one_table()
    ensures { (version second : Version) (bytes : List ℕ) (jobs others : List JobDef)
        → IsVersion version bytes jobs → IsVersion second bytes others → jobs ≡ others }
{}

/// Only jobs that have HUP as their reload signal have an image of version 1.
pub fn old_ones_have_hup()
    ensures { (bytes : List ℕ) (jobs : List JobDef) → IsVersion One bytes jobs
        → list_all (λ job. job.reload_signal == hup) jobs ≡ true }
{}

/// Jobs have an image of the version that is written exactly if they are few, fit and are small.
pub fn some_image()
    ensures { (jobs : List JobDef) → (has_image jobs ≡ true) ↔ ((bytes : List ℕ) × IsImage bytes jobs) }
{}

/// Files can define what a folder is compiled to.
pub fn compiled_is_given()
    ensures { (files : List File) (jobs : List JobDef) (faults : List Fault) → Compiles files jobs faults
        → are_definable jobs ≡ true }
{}

/// The image of what a folder is compiled to can be read, except out of memory: it is never refused as `BadTable`.
pub fn compiled_is_read()
    ensures { (files : List File) (jobs : List JobDef) (faults : List Fault) (bytes : List ℕ)
        (result : Result (List JobDef) ImageError) → Compiles files jobs faults → IsImage bytes jobs
        → ReadsImage bytes (head_error bytes) result → (result ≡ Ok jobs) ⊎ (result ≡ Err Memory) }
{}

/// The jobs of a folder have numbers and lists that fit into an image.
pub fn files_fit()
    ensures { (files : List File) → has_twice (read_paths files) ≡ false → list_all (fits Two) (jobs_of files) ≡ true }
{}

/// So a folder of at most 1,024 jobs has no image exactly if that would have more than 16 MiB.
pub fn only_large_ones_have_none()
    ensures { (files : List File) → has_twice (read_paths files) ≡ false
        → nat_le (length (jobs_of files)) 1024 ≡ true
        → has_image (jobs_of files) ≡ nat_le (12 + length (body_of Two (jobs_of files))) 16777216 }
{}

/// The index of an image is whole: its events strictly ascend; each entry has places of one event alone; and the places of an event are
/// exactly the leaves that name it, each once and in order.
pub fn index_is_whole()
    ensures ascending { (jobs : List JobDef) → are_ascending (map event_of (entries_of jobs)) ≡ true }
    ensures apart { (jobs : List JobDef) → list_all is_entry (entries_of jobs) ≡ true }
    ensures leaves { (jobs : List JobDef) (name : List ℕ)
        → named name (all_places (entries_of jobs)) ≡ named name (places_of 0 jobs) }
{}
