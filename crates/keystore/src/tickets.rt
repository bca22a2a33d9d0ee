ghost use Rattle.std.specs.Prelude.{◌≡◌};
ghost use Rattle.keystore.specs.Lists.{AscendsBy};
ghost use Rattle.keystore.specs.Kept.{IsEarlier};
ghost use Rattle.keystore.specs.Places.{IsPlace};
ghost use Rattle.keystore.specs.Rings.{is_ticket, released, abandoned, settled, is_abandoned, least_below};

/// A ticket that is out.
#[derive(Clone, Copy)]
pub(crate) struct Ticket {
    pub(crate) number: u64,
    pub(crate) abandoned: bool,
}

/// Where the ticket stands.
fn place_of(out: &[Ticket], number: u64) -> Option<usize>
    ensures { IsPlace (is_ticket number) out.now result }
{
    'tickets: for (place, ticket) in out.iter().enumerate() {
        if ticket.number == number {
            return Some(place);
        }
    }
    None
}

/// The ticket is out no more, unless it is abandoned.
pub(crate) fn release(out: &mut Vec<Ticket>, number: u64)
    ensures { out.new.items ≡ released number out.old.items }
{
    if let Some(place) = place_of(out, number) {
        if out[place].abandoned {
            return;
        }
        out.remove(place);
    }
}

/// The ticket stays out, and is abandoned.
pub(crate) fn abandon(out: &mut Vec<Ticket>, number: u64)
    ensures { out.new.items ≡ abandoned number out.old.items }
{
    if let Some(place) = place_of(out, number) {
        out[place].abandoned = true;
    }
}

/// Takes an abandoned ticket away, and tells whether it was one.
pub(crate) fn settle(out: &mut Vec<Ticket>, number: u64) -> bool
    ensures told { result ≡ is_abandoned number out.old.items }
    ensures tickets { out.new.items ≡ settled number out.old.items }
{
    let Some(place) = place_of(out, number) else {
        return false;
    };
    if !out[place].abandoned {
        return false;
    }
    out.remove(place);
    true
}

/// The least ticket out below this number.
pub(crate) fn least_below(out: &[Ticket], number: u64) -> Option<u64>
    requires { AscendsBy IsEarlier out.now }
    ensures { result ≡ least_below number out.now }
{
    let Some(ticket) = out.first() else {
        return None;
    };
    if ticket.number < number {
        Some(ticket.number)
    } else {
        None
    }
}
