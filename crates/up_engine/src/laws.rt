//! Laws: properties of every run of a compiled folder.
ghost use Rattle.std.specs.Prelude.{◌≡◌, ℕ, [], false, List, None, Ok, replicate};
ghost use Rattle.up_conf.specs.declared.folder.File.{File};
ghost use Rattle.up_conf.specs.declared.job.JobDef.{JobDef};
ghost use Rattle.up_conf.specs.declared.report.Fault.{Fault};
ghost use Rattle.up_engine.specs.Alike.{OfAlikeRuns};
ghost use Rattle.up_engine.specs.declared.engine.Engine.{Engine};
ghost use Rattle.up_engine.specs.declared.run.Run.{Run};
ghost use Rattle.up_engine.specs.Stands.{RunMeans, Stands, left_of};
ghost use Rattle.up_image.specs.Compiling.{Compiles};
ghost use Rattle.up_image.specs.Definable.{IsTable};
ghost use Rattle.up_isolation.specs.Runs.{deeds_of};
ghost use Rattle.up_isolation.specs.Steps.{AreStepsOf, deeds_by_step, joined, orders_of, outputs_in};
ghost use Rattle.up_model.specs.declared.input.Input.{Input};
ghost use Rattle.up_model.specs.declared.input.Input.TheVariants.{Turn};
ghost use Rattle.up_model.specs.declared.step.Step.TheVariants.{Gave};
ghost use Rattle.up_model.specs.Answers.{after_all, answers};
ghost use Rattle.up_model.specs.Blocks.{HasOneMain};
ghost use Rattle.up_model.specs.Chronicle.{Chronicle};
ghost use Rattle.up_model.specs.Configuration.{Configuration, started_with};
ghost use Rattle.up_model.specs.Loads.{in_force};
ghost use Rattle.up_model.specs.Due.{turn_event};
ghost use Rattle.up_model.specs.Left.{left};
ghost use Rattle.up_model.specs.Queue.{queue};
ghost use Rattle.up_model.specs.Values.{Bindings, Bytes};

/// An instance doesn't order its main process while that lives, whatever the compiled folder and the inputs.
pub fn one_main()
    ensures { (files : List File) (table : List JobDef) (report : List Fault) (base : Bindings)
        (inputs : List Input)
        → Compiles files table report → HasOneMain (after_all (started_with base table) [] inputs) }
{}

/// The same for every table, whether it was compiled or read from an image.
pub fn one_main_of_tables()
    ensures { (jobs : List JobDef) (base : Bindings) (inputs : List Input)
        → IsTable jobs → HasOneMain (after_all (started_with base jobs) [] inputs) }
{}

/// What the instances of an engine may still order agrees with the chronicle that the engine represents.
pub fn left_as_told()
    ensures { (engine : Engine) (config : Configuration) (c : Chronicle) → Stands engine config c
        → left_of engine ≡ left c }
{}

/// Turns that find no event cause nothing, and an engine represents any number of them: it needs to take none.
pub fn idle_turns()
    ensures { (engine : Engine) (config : Configuration) (c : Chronicle) (count : ℕ) → Stands engine config c
        → turn_event (in_force config c) (queue c) c ≡ None
        → Stands engine config (after_all config c (replicate count Turn))
        × (answers config c (replicate count Turn) ≡ replicate count (Gave [])) }
{}

/// In two runs of compiled folders in which the same comes to a job's notice, the job does the same: if the bases are equal and the
/// folders define the job alike, or neither has it.
pub fn isolation()
    ensures { OfAlikeRuns (λ job first second inputs given. deeds_of job first inputs ≡ deeds_of job second given) }
{}

/// The same for the steps of engines, none of which ran out of memory: what a job does in each step is among the outputs of that step, in
/// their order, and all that it does is the same in two such runs. So are the starts and signals among the outputs that name the job.
pub fn isolated_runs()
    ensures steps { (job : Bytes) (config : Configuration) (inputs : List Input) (engine : Engine) (run : Run)
        → RunMeans (Ok run) engine config [] inputs → run.down ≡ false
        → AreStepsOf (deeds_by_step job config [] inputs) run.steps }
    ensures deeds { OfAlikeRuns (λ job first second inputs given.
        joined (deeds_by_step job first [] inputs) ≡ joined (deeds_by_step job second [] given)) }
    ensures orders { OfAlikeRuns (λ job first second inputs given. (engine other : Engine) (run peer : Run)
        → RunMeans (Ok run) engine first [] inputs → run.down ≡ false
        → RunMeans (Ok peer) other second [] given → peer.down ≡ false
        → orders_of job (outputs_in run.steps) ≡ orders_of job (outputs_in peer.steps)) }
{}
