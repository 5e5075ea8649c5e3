//! Laws: what a job does depends only on what comes to its notice.
ghost use Rattle.std.specs.Prelude.{ℕ, ◌≡◌, List, [], ◌++◌};
ghost use Rattle.up_isolation.specs.Isolation.{GrowsByAtMostOne, IsUnique};
ghost use Rattle.up_isolation.specs.Runs.{Brings, OfTwoRuns, deeds_of, part_of, part_with, view_of, view_with};
ghost use Rattle.up_isolation.specs.Steps.{AreStepsOf, deeds_by_step, joined, orders_of, outputs_in};
ghost use Rattle.up_isolation.specs.Views.{AreAmong, deeds, deeds_in, Notice};
ghost use Rattle.up_model.specs.Answers.{after, answers};
ghost use Rattle.up_model.specs.Chronicle.{Chronicle};
ghost use Rattle.up_model.specs.Configuration.{Configuration};
ghost use Rattle.up_model.specs.Outputs.{outputs_of};
ghost use Rattle.up_model.specs.declared.input.Input.{Input};

/// Each step adds at most one notice to a job's view. One that adds none leaves the job's part as it was. From equal parts,
/// steps that add the same notice lead to equal parts.
pub fn part()
    ensures one { (job : List ℕ) (config : Configuration) (inputs : List Input) (given : Input) → IsUnique job config
        → GrowsByAtMostOne (view_of job config inputs) (view_with job config inputs given) }
    ensures still { (job : List ℕ) (config : Configuration) (inputs : List Input) (given : Input) → IsUnique job config
        → view_with job config inputs given ≡ view_of job config inputs
        → part_with job config inputs given ≡ part_of job config inputs }
    ensures same { OfTwoRuns (λ job first second inputs others. (given other : Input) (notice : Notice)
        → part_of job first inputs ≡ part_of job second others
        → Brings job first inputs given notice → Brings job second others other notice
        → part_with job first inputs given ≡ part_with job second others other) }
{}

/// In two runs in which the same comes to a job's notice, the job does the same: if the bases are the same and the job's file means the
/// same, or neither folder has it.
pub fn isolation()
    ensures { OfTwoRuns (λ job first second inputs others. view_of job first inputs ≡ view_of job second others
        → deeds_of job first inputs ≡ deeds_of job second others) }
{}

/// What a job does after an input is what it did before and what it does in the last step, and that is among the step's
/// outputs, in their order.
pub fn deeds_are_outputs()
    ensures added { (job : List ℕ) (config : Configuration) (c : Chronicle) (given : Input)
        → deeds job (after config c given) ≡ deeds job c ++ deeds_in job (after config c given) }
    ensures among { (job : List ℕ) (c : Chronicle) → AreAmong (deeds_in job c) (outputs_of c) }
{}

/// What a job does in each step of a run is among the outputs of that step's answer, in their order, and is together all that
/// the job does. The starts and signals in it are all those of the answers that name the job.
pub fn deeds_are_answers()
    ensures whole { (job : List ℕ) (config : Configuration) (inputs : List Input)
        → joined (deeds_by_step job config [] inputs) ≡ deeds_of job config inputs }
    ensures among { (job : List ℕ) (config : Configuration) (c : Chronicle) (inputs : List Input)
        → AreStepsOf (deeds_by_step job config c inputs) (answers config c inputs) }
    ensures orders { (job : List ℕ) (config : Configuration) (c : Chronicle) (inputs : List Input)
        → orders_of job (outputs_in (answers config c inputs))
        ≡ orders_of job (joined (deeds_by_step job config c inputs)) }
{}
