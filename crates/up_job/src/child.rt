//! The processes of an instance.
ghost use Rattle.std.specs.Prelude.{◌≡◌};
ghost use Rattle.up_job.specs.Changes.{with_child, child_of, ordered, answered, lost};
ghost use Rattle.up_job.specs.InstanceLists.{idle};

use up_model::Process;

/// A process: whether it was ordered and not answered since, and its number while it lives.
#[derive(Clone, Copy)]
pub struct Child {
    pub awaited: bool,
    pub pid: Option<u32>,
}

/// The five processes of an instance.
#[derive(Clone, Copy)]
pub struct Children {
    pub main: Child,
    pub pre_start: Child,
    pub post_start: Child,
    pub pre_stop: Child,
    pub post_stop: Child,
}

const IDLE: Child = Child {
    awaited: false,
    pid: None,
};

/// The processes of an instance that has started none.
pub(crate) fn idle() -> Children
    ensures { result ≡ idle }
{
    Children {
        main: IDLE,
        pre_start: IDLE,
        post_start: IDLE,
        pre_stop: IDLE,
        post_stop: IDLE,
    }
}

pub fn child_of(children: &Children, process: Process) -> Child
    ensures { result ≡ child_of process children.now }
{
    match process {
        Process::Main => children.main,
        Process::PreStart => children.pre_start,
        Process::PostStart => children.post_start,
        Process::PreStop => children.pre_stop,
        Process::PostStop => children.post_stop,
    }
}

fn set_child(children: &mut Children, process: Process, child: Child)
    ensures { children.new ≡ with_child process child children.old }
{
    match process {
        Process::Main => children.main = child,
        Process::PreStart => children.pre_start = child,
        Process::PostStart => children.post_start = child,
        Process::PreStop => children.pre_stop = child,
        Process::PostStop => children.post_stop = child,
    }
}

pub(crate) fn order(children: &mut Children, process: Process)
    ensures { children.new ≡ ordered process children.old }
{
    let Child { pid, .. } = child_of(children, process);
    set_child(children, process, Child { awaited: true, pid });
}

/// An order was answered: the process has this number, or it was refused.
pub(crate) fn answer(children: &mut Children, process: Process, spawned: Option<u32>)
    ensures { children.new ≡ answered process spawned children.old }
{
    let Child { pid, .. } = child_of(children, process);
    let pid = match spawned {
        Some(number) => Some(number),
        None => pid,
    };
    set_child(
        children,
        process,
        Child {
            awaited: false,
            pid,
        },
    );
}

pub(crate) fn lose(children: &mut Children, process: Process)
    ensures { children.new ≡ lost process children.old }
{
    let Child { awaited, .. } = child_of(children, process);
    set_child(children, process, Child { awaited, pid: None });
}
