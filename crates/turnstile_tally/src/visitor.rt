ghost use Rattle.std.specs.Prelude.{◌≡◌, false};
ghost use mathlib.Core.List.{IsPrefix};
ghost use Rattle.acra_base.specs.Histories.{IsLegal};
ghost use Rattle.turnstile.specs.Seats.{Ends};
ghost use Rattle.turnstile_tally.specs.Visits.{StandInOrder, StandBoth};

use acra_base::Machine;
use std::sync::Wait;
use std::thread::{Threads, join};
use turnstile::{Seat, Turnstile};

/// A turnstile with one of its seats. By its type the seat is between turns.
#[derive(Drop)]
pub struct Visitor<'s, R: Wait, M: Machine> {
    rt: &'s R,
    pub stile: &'s Turnstile<M>,
    pub seat: &'s mut Seat<M>,
    ghost mine: { seat.now.stile ≡ stile.now.id },
    ghost between: { seat.now.in_turn ≡ false },
}

impl<'s, R: Wait, M: Machine> Visitor<'s, R, M> {
    /// A visitor with this seat.
    pub fn new(rt: &'s R, stile: &'s Turnstile<M>, seat: &'s mut Seat<M>) -> Visitor<'s, R, M>
        requires mine { seat.old.stile ≡ stile.now.id }
        requires between { seat.old.in_turn ≡ false }
        ensures same_reference { result.seat.ghost_name ≡ seat.entry.ghost_name }
        ensures stile { result.stile.now ≡ stile.now }
        ensures seat { result.seat.now ≡ seat.old }
    {
        Visitor { rt, stile, seat }
    }

    /// One call, which stands in the one history.
    pub fn call(&mut self, call: M::Call) -> M::Reply
    where
        M::Call: Drop,
        ensures same_reference { self.new.seat.ghost_name ≡ self.old.seat.ghost_name }
        ensures stile { self.new.stile.now ≡ self.old.stile.now }
        ensures call { Ends self.old.seat.now call result self.new.seat.now }
        ensures legal { IsLegal M.steps self.old.stile.now.opening self.new.seat.now.known }
    {
        self.stile.act(self.rt, self.seat, call)
    }
}

/// Two calls of one seat, through a visitor. Both stand in the history, in this order.
pub fn visit<R: Wait, M: Machine>(
    rt: &R,
    stile: &Turnstile<M>,
    seat: &mut Seat<M>,
    first: M::Call,
    second: M::Call,
) -> (M::Reply, M::Reply)
where
    M::Call: Drop,
    requires mine { seat.old.stile ≡ stile.now.id }
    requires between { seat.old.in_turn ≡ false }
    ensures between { seat.new.in_turn ≡ false }
    ensures known { IsPrefix seat.old.known seat.new.known }
    ensures stand { StandInOrder seat.old first result.0 second result.1 seat.new }
{
    let mut visitor = Visitor::new(rt, stile, seat);
    let one = visitor.call(first);
    let two = visitor.call(second);
    (one, two)
}

/// Two threads around any machine, each with one call. Both calls stand in one legal history.
pub fn both<R: Threads + Wait + Sync, M: Machine + Send>(
    rt: &R,
    stile: &Turnstile<M>,
    seat: Seat<M>,
    other: Seat<M>,
    first: M::Call,
    second: M::Call,
) -> (Seat<M>, M::Reply, M::Reply)
where
    M::Call: Drop + Send,
    M::Reply: Send,
    requires mine { (seat.stile ≡ stile.now.id) × (other.stile ≡ stile.now.id) }
    requires between { (seat.in_turn ≡ false) × (other.in_turn ≡ false) }
    ensures between { result.0.in_turn ≡ false }
    ensures mine { result.0.stile ≡ stile.now.id }
    ensures known { IsPrefix seat.known result.0.known × IsPrefix other.known result.0.known }
    ensures legal { IsLegal M.steps stile.now.opening result.0.known }
    ensures stand { StandBoth seat first result.1 other second result.2 result.0 }
{
    let (one, two) = join(
        rt,
        || -> (Seat<M>, M::Reply)
            requires { (seat.stile ≡ stile.now.id) × (seat.in_turn ≡ false) }
            ensures { Ends seat first result.1 result.0 }
        { act_as(rt, stile, seat, first) },
        || -> (Seat<M>, M::Reply)
            requires { (other.stile ≡ stile.now.id) × (other.in_turn ≡ false) }
            ensures { Ends other second result.1 result.0 }
        { act_as(rt, stile, other, second) },
    );
    let (mut seat, one) = one;
    let (other, two) = two;
    stile.join(&mut seat, other);
    (seat, one, two)
}

fn act_as<R: Wait, M: Machine>(
    rt: &R,
    stile: &Turnstile<M>,
    mut seat: Seat<M>,
    call: M::Call,
) -> (Seat<M>, M::Reply)
where
    M::Call: Drop,
    requires mine { seat.stile ≡ stile.now.id }
    requires between { seat.in_turn ≡ false }
    ensures { Ends seat call result.1 result.0 }
{
    let reply = stile.act(rt, &mut seat, call);
    (seat, reply)
}
