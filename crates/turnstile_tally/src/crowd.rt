ghost use Rattle.std.specs.Prelude.{◌≡◌, ◌+◌, ◌-◌, ◌*◌, ◌<◌, ◌≤◌, false, IfOk, length};
ghost use mathlib.Core.List.{IsPrefix};
ghost use denote.Param.Send.{IsSync};
ghost use Rattle.turnstile.specs.Places.{IsEachOnce};
ghost use Rattle.turnstile.specs.Seats.{Ends};
ghost use Rattle.acra_base.specs.Histories.{Leads};
ghost use Rattle.turnstile_tally.specs.Counting.{Counts, count};

use crate::machine::{Side, Tally};
use acra_base::{Machine, NoMemory};
use std::sync::Wait;
use std::thread::{Threads, join};
use turnstile::{Seat, Turnstile};

/// One call by hand: what `act` does.
pub fn call<R: Wait>(rt: &R, stile: &Turnstile<Tally>, seat: &mut Seat<Tally>, side: Side) -> Tally
    requires mine { seat.old.stile ≡ stile.now.id }
    requires between { seat.old.in_turn ≡ false }
    ensures seat { Ends seat.old side result seat.new }
    ensures state { Leads Counts stile.now.opening seat.new.known result }
{
    let mut turn = stile.enter(rt, seat);
    let seen = turn.machine.step(&side);
    stile.leave(seat, turn, &side, &seen);
    seen
}

/// Makes so many calls.
fn calls<R: Wait>(
    rt: &R,
    stile: &Turnstile<Tally>,
    mut seat: Seat<Tally>,
    times: u32,
) -> Seat<Tally>
    requires mine { seat.stile ≡ stile.now.id }
    requires between { seat.in_turn ≡ false }
    ensures seat { (result.stile ≡ stile.now.id) × (result.in_turn ≡ false) }
    ensures known { IsPrefix seat.known result.known }
    ensures places { length result.places ≡ length seat.places + times }
{
    for _ in 0..times {
        call(rt, stile, &mut seat, Side::Left);
    }
    seat
}

/// So many threads, each of which makes so many calls. Each call has a place of its own in the one
/// history.
pub fn count_all<R: Threads + Wait + Sync>(
    rt: &R,
    stile: &Turnstile<Tally>,
    mut seat: Seat<Tally>,
    threads: u32,
    each: u32,
) -> Result<Seat<Tally>, NoMemory>
    requires mine { seat.stile ≡ stile.now.id }
    requires between { seat.in_turn ≡ false }
    requires once { IsEachOnce seat.places }
    ensures seat { IfOk result (λ s. (s.stile ≡ stile.now.id) × (s.in_turn ≡ false)) }
    ensures known { IfOk result (λ s. IsPrefix seat.known s.known) }
    ensures places { IfOk result (λ s. (length s.places ≡ length seat.places + threads * each) × IsEachOnce s.places) }
{
    if threads == 0 {
        return Ok(seat);
    }
    let other = stile.split(&mut seat)?;
    let (one, rest) = join(
        rt,
        || -> Seat<Tally>
            requires { (seat.stile ≡ stile.now.id) × (seat.in_turn ≡ false) }
            ensures { (result.stile ≡ stile.entry.now.id) × (result.in_turn ≡ false) × IsPrefix seat.known result.known × (length result.places ≡ length seat.places + each) }
        { calls(rt, stile, seat, each) },
        || -> Result<Seat<Tally>, NoMemory>
            requires { IsSync R.row × (other.stile ≡ stile.now.id) × (other.in_turn ≡ false) × IsEachOnce other.places × (0 < threads) }
            ensures { IfOk result (λ s. (s.stile ≡ stile.entry.now.id) × (s.in_turn ≡ false) × (length s.places ≡ length other.places + (threads - 1) * each)) }
        { count_all(rt, stile, other, threads - 1, each) },
    );
    let mut seat = one;
    stile.join(&mut seat, rest?);
    Ok(seat)
}

/// One call, and the end. What was seen in the turn still holds at the end, whoever called in
/// between.
pub fn call_and_close<R: Wait>(
    rt: &R,
    stile: &Turnstile<Tally>,
    mut seat: Seat<Tally>,
    side: Side,
) -> (Tally, Tally)
    requires mine { seat.stile ≡ stile.now.id }
    requires between { seat.in_turn ≡ false }
    ensures called { 0 < count result.0 side }
    ensures left { result.0.left ≤ result.1.left }
    ensures right { result.0.right ≤ result.1.right }
{
    let seen = call(rt, stile, &mut seat, side);
    let end = stile.close(rt, seat);
    (seen, end)
}
