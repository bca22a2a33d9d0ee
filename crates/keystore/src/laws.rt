ghost use Rattle.std.specs.Prelude.{◌≡◌, ◌<◌, ◌↔◌, ℕ, List, Some, true};
ghost use Rattle.std.specs.List.{AllByRecursion};
ghost use Rattle.keystore.specs.declared.tickets.Ticket.{Ticket};
ghost use Rattle.keystore.specs.Rings.{RingState, phase_in, least_below};
ghost use Rattle.keystore.specs.Answers.{with_lease};
ghost use Rattle.keystore.specs.Kept.{IsKept};
ghost use Rattle.keystore.specs.Moves.{Move, after, IsLeastBelow, Keeps, IsUsed, is_live};

/// A ticket is given once: whatever happens after a lease, the next ticket is above the lease's.
pub fn given_once()
    ensures later { (r : RingState) (moves : List Move) → r.next_ticket < (after (with_lease r) moves).next_ticket }
{}

/// The ticket that `Ring::drained` and `Ring::retire` tell is the least one out, and there is one exactly where
/// a ticket below the bound is out.
pub fn least_is_told()
    ensures least { (n m : ℕ) (out : List Ticket) → (least_below n out ≡ Some m) ↔ IsLeastBelow n m out }
{}

/// A key that isn't swept when a lease is given stays in the ring until the lease's ticket is released or
/// settled, whatever else is called: rotations, marks and removals of any keys, other leases. So by a lease's
/// keys cells can be opened while its ticket is out.
pub fn leased_keys_stay()
    ensures stay { (r : RingState) (who : List ℕ) (id : ℕ) (moves : List Move) → IsKept r → IsUsed (phase_in r who id)
        → AllByRecursion (Keeps r.next_ticket) moves → is_live (after (with_lease r) moves) who id ≡ true }
{}
