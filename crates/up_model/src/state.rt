//! Where an instance of a job is, and where it is heading.
ghost use Rattle.std.specs.Prelude.{◌≡◌};
ghost use Rattle.up_model.specs.Commands.{is_running};
ghost use Rattle.up_model.specs.Predicates.{is_start, is_waiting};
ghost use Rattle.up_model.specs.Status.{goal_name, state_name};

/// Where an instance is heading: to run, or to be at rest (initctl(8)).
#[derive(Clone, Copy, Debug, PartialEq, Eq, Hash)]
pub enum Goal {
    Start,
    Stop,
}

impl Goal {
    pub fn is_start(self) -> bool
        ensures { result ≡ is_start self }
    {
        matches!(self, Goal::Start)
    }

    /// The goal in a status text.
    pub fn name(self) -> &'static str
        ensures { result.now ≡ goal_name self }
    {
        match self {
            Goal::Start => "start",
            Goal::Stop => "stop",
        }
    }
}

/// The ten states of an instance, in the order of a whole life (the Upstart Cookbook's table of states).
#[derive(Clone, Copy, Debug, PartialEq, Eq, Hash)]
pub enum State {
    Waiting,
    Starting,
    PreStart,
    Spawned,
    PostStart,
    Running,
    PreStop,
    Stopping,
    Killed,
    PostStop,
}

impl State {
    pub fn is_waiting(self) -> bool
        ensures { result ≡ is_waiting self }
    {
        matches!(self, State::Waiting)
    }

    pub fn is_running(self) -> bool
        ensures { result ≡ is_running self }
    {
        matches!(self, State::Running)
    }

    /// The state in a status text.
    pub fn name(self) -> &'static str
        ensures { result.now ≡ state_name self }
    {
        match self {
            State::Waiting => "waiting",
            State::Starting => "starting",
            State::PreStart => "pre-start",
            State::Spawned => "spawned",
            State::PostStart => "post-start",
            State::Running => "running",
            State::PreStop => "pre-stop",
            State::Stopping => "stopping",
            State::Killed => "killed",
            State::PostStop => "post-stop",
        }
    }
}
