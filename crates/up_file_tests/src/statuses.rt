//! How programs end.
use std::alloc::AllocError;
use std::io;
use std::io::ErrorKind;
use std::test::Fail;
use up_model::ExitStatus;

// The statuses and their numbers (initd(8), EXIT STATUS).
const STATUSES: &'static [(ExitStatus, u8)] = &[
    (ExitStatus::Done, 0),
    (ExitStatus::Failed, 1),
    (ExitStatus::Usage, 2),
    (ExitStatus::Unusable, 3),
    (ExitStatus::Memory, 4),
];

fn check(statuses: &[(ExitStatus, u8)]) -> Result<(), Fail> {
    for case in statuses {
        if case.0.number() != case.1 {
            return Err(Fail::from(case.1));
        }
    }
    Ok(())
}

#[test]
fn statuses_have_numbers() -> Result<(), Fail> {
    check(STATUSES)
}

#[test]
fn errors_have_statuses(rt: HostRuntime) -> Result<(), Fail> {
    let memory = io::Error::new(ErrorKind::OutOfMemory, "no memory");
    let absent = io::Error::new(ErrorKind::NotFound, "no file");
    assert!(rt;
        ExitStatus::of_error(&memory, ExitStatus::Usage) == ExitStatus::Memory
            && ExitStatus::of_error(&absent, ExitStatus::Usage) == ExitStatus::Usage
            && ExitStatus::of_error(&absent, ExitStatus::Unusable) == ExitStatus::Unusable
            && ExitStatus::from(AllocError) == ExitStatus::Memory
    );
    Ok(())
}
