//! Laws: what holds of the names of commands, and of every run, whatever the jobs and the inputs are.
ghost use Rattle.std.specs.Prelude.{ℕ, ◌≡◌, ◌≤◌, ◌+◌, true, length, List, [], Some};
ghost use Rattle.up_conf.specs.declared.job.JobDef.{JobDef};
ghost use Rattle.up_model.specs.Answers.{after, after_all};
ghost use Rattle.up_model.specs.Blocks.{ActsUnblocked, HasOneMain};
ghost use Rattle.up_model.specs.Chronicle.{Chronicle};
ghost use Rattle.up_model.specs.Configuration.{AreDistinct, Configuration};
ghost use Rattle.up_model.specs.Due.{due};
ghost use Rattle.up_model.specs.Laws.{AreByAge, finished_times, handled_times, IsOrderly};
ghost use Rattle.up_model.specs.Left.{is_calm, Spends};
ghost use Rattle.up_model.specs.Instances.{all_instances};
ghost use Rattle.up_model.specs.Loads.{in_force, with_jobs};
ghost use Rattle.up_model.specs.Queue.{queue};
ghost use Rattle.up_model.specs.Requests.{command_name, command_named};
ghost use Rattle.up_model.specs.declared.input.Input.{Input};
ghost use Rattle.up_model.specs.declared.request.Command.{Command};

/// A command is found by its name, and by no other word.
pub fn named_once()
    ensures found { (command : Command) → command_named (command_name command) ≡ Some command }
    ensures own { (name : List ℕ) (command : Command) → command_named name ≡ Some command
        → name ≡ command_name command }
{}

/// After a load there are as many jobs as it brought, and at most one more for each instance that exists: a job that it removed goes on
/// while it has one.
pub fn few_jobs()
    ensures { (new : List JobDef) (config : Configuration) (c : Chronicle) → AreDistinct config.jobs
        → length (with_jobs new config c).jobs ≤ length new + length (all_instances c) }
{}

/// What is due always runs out: after an input nothing is due.
pub fn rest()
    ensures { (config : Configuration) (c : Chronicle) (given : Input)
        → due (in_force config (after config c given)) (after config c given) ≡ [] }
{}

/// The queue is in order of age: each of its events was queued before those after it, and before now.
pub fn ages()
    ensures { (c : Chronicle) → AreByAge (queue c) (length c) }
{}

/// At most one turn takes an event up.
pub fn handled_once()
    ensures { (config : Configuration) (inputs : List Input) (event : ℕ)
        → handled_times event (after_all config [] inputs) ≤ 1 }
{}

/// Each event finishes at most once, and only after a turn had taken it up.
pub fn finished_once()
    ensures once { (config : Configuration) (inputs : List Input) (event : ℕ)
        → finished_times event (after_all config [] inputs) ≤ 1 }
    ensures taken_up { (config : Configuration) (inputs : List Input) (event : ℕ)
        → finished_times event (after_all config [] inputs) ≤ handled_times event
        (after_all config [] inputs) }
{}

/// At each moment of a run an event that is taken up was neither taken up nor finished before, and one that finishes had been taken up
/// once and is not held.
pub fn orderly()
    ensures { (config : Configuration) (inputs : List Input) → IsOrderly config (after_all config [] inputs) }
{}

/// An instance orders no process, and none of its processes gets a signal, between its `starting` or `stopping` event and that event's
/// finish.
pub fn blocks()
    ensures { (config : Configuration) (inputs : List Input) → ActsUnblocked (after_all config [] inputs) }
{}

/// An instance doesn't order its main process while that process lives.
pub fn one_main()
    ensures { (config : Configuration) (inputs : List Input) → HasOneMain (after_all config [] inputs) }
{}

/// The processes that the instances may still order before they wait for an event become fewer by at least those that a step orders, for
/// any input except a turn and a request.
pub fn left_falls()
    ensures { (config : Configuration) (c : Chronicle) (given : Input) → is_calm given ≡ true
        → Spends config c given }
{}
