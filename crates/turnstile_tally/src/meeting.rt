ghost use Rattle.std.specs.Prelude.{◌≡◌, ◌+◌, ◌<◌, ◌≤◌, true, false, List, IfOk, length};
ghost use mathlib.Core.List.{IsPrefix};
ghost use Rattle.acra_base.specs.Histories.{Leads};
ghost use Rattle.turnstile_tally.specs.Counting.{Counts, calls, other};
ghost use Rattle.turnstile_tally.specs.declared.machine.Side.{Side};
ghost use Rattle.turnstile_tally.specs.declared.machine.Side.TheVariants.{Left, Right};
ghost use Rattle.turnstile_tally.specs.declared.machine.Tally.{Tally};

use crate::machine::{Side, Tally};
use acra_base::NoMemory;
use std::alloc::Global;
use std::sync::Wait;
use std::thread::{Threads, join, yield_now};
use turnstile::{Entrance, Seat, Turnstile};

/// Calls until the history shows a call of the other side, at most `turns` times, and says whether it
/// does. It gives up after all of its turns, and no sooner.
pub fn meet<R: Wait>(
    rt: &R,
    stile: &Turnstile<Tally>,
    seat: &mut Seat<Tally>,
    side: Side,
    turns: u32,
) -> bool
    requires mine { seat.old.stile ≡ stile.now.id }
    requires between { seat.old.in_turn ≡ false }
    requires nothing { stile.now.opening ≡ record { left = 0; right = 0 } }
    ensures seat { (seat.new.stile ≡ stile.now.id) × (seat.new.in_turn ≡ false) }
    ensures known { IsPrefix seat.old.known seat.new.known }
    ensures met { result ≡ true → 0 < calls (other side) seat.new.known }
    ensures called { 0 < turns → 0 < calls side seat.new.known }
    ensures most { length seat.new.places ≤ length seat.old.places + turns }
    ensures all { result ≡ false → length seat.new.places ≡ length seat.old.places + turns }
{
    for _ in 0..turns {
        let seen = stile.act(rt, seat, side);
        if 0 < seen.count(side.other()) {
            return true;
        }
        yield_now();
    }
    false
}

/// The same, with the seat by value.
fn meet_as<R: Wait>(
    rt: &R,
    stile: &Turnstile<Tally>,
    mut seat: Seat<Tally>,
    side: Side,
    turns: u32,
) -> (bool, Seat<Tally>)
    requires mine { seat.stile ≡ stile.now.id }
    requires between { seat.in_turn ≡ false }
    requires nothing { stile.now.opening ≡ record { left = 0; right = 0 } }
    ensures seat { (result.1.stile ≡ stile.now.id) × (result.1.in_turn ≡ false) }
    ensures known { IsPrefix seat.known result.1.known }
    ensures met { result.0 ≡ true → 0 < calls (other side) result.1.known }
    ensures called { 0 < turns → 0 < calls side result.1.known }
    ensures all { result.0 ≡ false → length result.1.places ≡ length seat.places + turns }
{
    let met = meet(rt, stile, &mut seat, side, turns);
    (met, seat)
}

/// What two threads counted, and whether each met the other.
#[derive(Clone, Copy)]
pub struct Meeting {
    pub tally: Tally,
    pub left_met: bool,
    pub right_met: bool,
}

/// Two threads call at one turnstile, each until it has met the other, at most `turns` times.
pub fn meet_both<R: Threads + Wait + Sync>(
    rt: &R,
    alloc: Global,
    turns: u32,
) -> Result<Meeting, NoMemory>
    ensures { IfOk result (λ m. (history : List (Side × Tally)) × Leads Counts (record { left = 0; right = 0 }) history m.tally × (m.left_met ≡ true → 0 < calls Right history) × (m.right_met ≡ true → 0 < calls Left history) × (0 < turns → (0 < calls Left history) × (0 < calls Right history))) }
{
    let Entrance { stile, mut seat } = Turnstile::new(alloc, Tally::new())?;
    let other = stile.split(&mut seat)?;
    let (left, right) = join(
        rt,
        || -> (bool, Seat<Tally>)
            requires { (seat.stile ≡ stile.id) × (seat.in_turn ≡ false) × (stile.opening ≡ record { left = 0; right = 0 }) }
            ensures { (result.1.stile ≡ stile.id) × (result.1.in_turn ≡ false) × (result.0 ≡ true → 0 < calls Right result.1.known) × (0 < turns → 0 < calls Left result.1.known) }
        { meet_as(rt, &stile, seat, Side::Left, turns) },
        || -> (bool, Seat<Tally>)
            requires { (other.stile ≡ stile.id) × (other.in_turn ≡ false) × (stile.opening ≡ record { left = 0; right = 0 }) }
            ensures { (result.1.stile ≡ stile.id) × (result.1.in_turn ≡ false) × (result.0 ≡ true → 0 < calls Left result.1.known) × (0 < turns → 0 < calls Right result.1.known) }
        { meet_as(rt, &stile, other, Side::Right, turns) },
    );
    let (left_met, mut seat) = left;
    let (right_met, other) = right;
    stile.join(&mut seat, other);
    let tally = stile.close(rt, seat);
    Ok(Meeting {
        tally,
        left_met,
        right_met,
    })
}
