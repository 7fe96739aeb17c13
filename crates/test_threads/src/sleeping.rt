//! Threads that sleep while there is nothing to do.

use engine_turns::Sleepers;
use std::test::Fail;

// Nobody wakes it: it would sleep forever if it did not look by itself.
#[test]
fn a_sleeper_that_watches_looks_by_itself(rt: HostRuntime) -> Result<(), Fail> {
    let sleepers = Sleepers::new();
    for number in 0..4 {
        sleepers.lie_down(number);
        assert!(rt; sleepers.begin_watch());
        assert!(rt; !sleepers.begin_watch());
        assert!(rt; !sleepers.nap(&rt, number));
        sleepers.end_watch();
        assert!(rt; !sleepers.is_watched());
    }
    Ok(())
}

// Who wakes it may come before it naps.
#[test]
fn a_sleeper_that_watches_is_woken(rt: HostRuntime) -> Result<(), Fail> {
    let sleepers = Sleepers::new();
    for number in 0..4 {
        sleepers.lie_down(number);
        sleepers.wake(1);
        assert!(rt; sleepers.nap(&rt, number));
    }
    Ok(())
}

// It is woken after it announced that it will sleep, and before it does.
#[test]
fn no_wake_up_is_lost(rt: HostRuntime) -> Result<(), Fail> {
    let sleepers = Sleepers::new();
    for number in 0..4 {
        sleepers.lie_down(number);
    }
    sleepers.wake(3);
    sleepers.wake(9);
    for number in 0..4 {
        sleepers.sleep(&rt, number);
    }
    Ok(())
}

// A sleeping thread is woken to look, if none looks by itself. Otherwise it would sleep forever.
#[test]
fn one_is_called_to_look(rt: HostRuntime) -> Result<(), Fail> {
    let sleepers = Sleepers::new();
    for number in 0..4 {
        sleepers.lie_down(number);
        sleepers.call_watch();
        sleepers.sleep(&rt, number);
    }
    Ok(())
}
