//! Laws about all bytes, however they are cut into pieces.
ghost use Rattle.std.specs.Prelude.{◌≡◌, ◌++◌, ◌&&◌, ◌||◌, [], Bool, true, false, List, Some, is_some};
ghost use Rattle.std.specs.List.{list_all};
ghost use Rattle.up_text.specs.Names.{is_name};
ghost use Rattle.up_model.specs.Requests.{RequestValue, is_alone, may_wait};
ghost use Rattle.up_model.specs.declared.request.Command.{Command};
ghost use Rattle.up_wire.specs.declared.fault.FrameFault.{FrameFault};
ghost use Rattle.up_model.specs.Values.{Bytes};
ghost use Rattle.up_wire.specs.Frames.{Frames, Breaks};
ghost use Rattle.up_wire.specs.Words.{is_binding, request_with};

/// Feeding two pieces is feeding their sum: the requests of both, in order, and the rest of the second.
pub fn pieces()
    ensures { (bytes more middle rest : Bytes) (first second : List RequestValue) → Frames bytes first middle
        → Frames (middle ++ more) second rest → Frames (bytes ++ more) (first ++ second) rest }
{}

/// Bytes are the frames of one list of requests and one rest, so it doesn't matter how they were cut.
pub fn one_reading()
    ensures { (bytes rest left : Bytes) (requests others : List RequestValue) → Frames bytes requests rest
        → Frames bytes others left → (requests ≡ others) × (rest ≡ left) }
{}

/// Bytes that are frames and a rest have no faulty frame.
pub fn no_fault()
    ensures { (fault : FrameFault) (bytes rest : Bytes) (requests : List RequestValue)
        → Frames bytes requests rest → Breaks fault bytes → ⊥ }
{}

/// A command about a job or an event has a request exactly if its name is valid and each word is `KEY=VALUE`.
pub fn sound_words()
    ensures { (its : Command) (wait : Bool) (name : Bytes) (words : List Bytes) → is_alone its ≡ false
        → (wait || may_wait its) ≡ true
        → is_some (request_with its wait name words) ≡ (is_name name && list_all is_binding words) }
{}

/// A command without a name has a request without words.
pub fn no_words()
    ensures { (its : Command) → is_alone its ≡ true
        → request_with its true [] [] ≡ Some (record { command = its; wait = true; name = []; vars = [] }) }
{}
