// What no program does and no clause says: that reads are copied while there is memory.
use sr_args::Call;
use sr_args::commands::Ping;
use sr_waiters::Waiters;
use std::alloc::{AllocError, Global};
use std::hash::RandomState;
use std::test::Fail;

/// Has a session wait, if it doesn't.
fn wait(waiters: &mut Waiters, session: u64) -> Result<(), AllocError> {
    waiters.reserve(1)?;
    if !waiters.has(session) {
        waiters.join(session, Call::Ping(Ping { message: None }), None);
    }
    Ok(())
}

/// Has two sessions wait, and counts the reads that a copy has.
fn count_copied(waiters: &mut Waiters, alloc: Global) -> Result<usize, AllocError> {
    wait(waiters, 9)?;
    wait(waiters, 5)?;
    let copy = waiters.copy(alloc)?;
    Ok(copy.len())
}

#[test]
fn reads_are_copied(rt: HostRuntime) -> Result<(), Fail> {
    let mut waiters = Waiters::new(rt.alloc(), RandomState::new(&rt)?);
    let count = count_copied(&mut waiters, rt.alloc())?;
    assert!(rt; count == 2);
    Ok(())
}
