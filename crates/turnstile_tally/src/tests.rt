use super::*;
use std::test::*;
use turnstile::{Entrance, Turnstile};

/// Each thread goes on only when the history shows a call of the other, within a million turns. Two
/// that ran one after the other would not meet.
#[test]
fn two_threads_meet(rt: HostRuntime) -> Result<(), Fail> {
    let meeting = meet_both(&rt, rt.alloc(), 1_000_000).map_err(|_| "memory")?;
    assert!(rt; meeting.left_met && meeting.right_met);
    assert!(rt; meeting.tally.left > 0 && meeting.tally.right > 0);
    Ok(())
}

/// Each of the four makes 500 calls.
#[test]
fn four_threads_count(rt: HostRuntime) -> Result<(), Fail> {
    let Entrance { stile, seat } = Turnstile::new(rt.alloc(), Tally::new()).map_err(|_| "memory")?;
    let seat = count_all(&rt, &stile, seat, 4, 500).map_err(|_| "memory")?;
    let tally = stile.close(&rt, seat);
    assert!(rt; tally.left == 2000 && tally.right == 0);
    Ok(())
}

#[test]
fn a_visitor_calls_twice(rt: HostRuntime) -> Result<(), Fail> {
    let Entrance { stile, mut seat } = Turnstile::new(rt.alloc(), Tally::new()).map_err(
        |_| "memory",
    )?;
    let (one, two) = visit(&rt, &stile, &mut seat, Side::Left, Side::Right);
    assert!(rt; one.left == 1 && one.right == 0);
    assert!(rt; two.left == 1 && two.right == 1);
    Ok(())
}

#[test]
fn what_was_seen_stays(rt: HostRuntime) -> Result<(), Fail> {
    let Entrance { stile, seat } = Turnstile::new(rt.alloc(), Tally::new()).map_err(|_| "memory")?;
    let (seen, end) = call_and_close(&rt, &stile, seat, Side::Right);
    assert!(rt; seen.right == 1 && end.right == 1 && end.left == 0);
    Ok(())
}

#[test]
fn two_threads_call_any_machine(rt: HostRuntime) -> Result<(), Fail> {
    let Entrance { stile, mut seat } = Turnstile::new(rt.alloc(), Tally::new()).map_err(
        |_| "memory",
    )?;
    let other = stile.split(&mut seat).map_err(|_| "memory")?;
    let (seat, one, two) = both(&rt, &stile, seat, other, Side::Left, Side::Right);
    assert!(rt; one.left == 1 && two.right == 1);
    let tally = stile.close(&rt, seat);
    assert!(rt; tally.left == 1 && tally.right == 1);
    Ok(())
}
