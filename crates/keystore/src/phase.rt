ghost use Rattle.std.specs.Prelude.{◌≡◌, ◌∷◌, [], option_map};
ghost use Rattle.keystore.specs.Lists.{first, edited, AscendsBy};
ghost use Rattle.keystore.specs.Kept.{IsOlder, has_old};
ghost use Rattle.keystore.specs.Places.{IsPlace};
ghost use Rattle.keystore.specs.Rings.{is_key, phase_of_old, old_phase_of, swept_phase, swept_key, number_of};

/// What a client's key is.
#[derive(Clone, Copy)]
pub(crate) enum Phase {
    /// Values are sealed under it.
    Current,
    /// It isn't current since the next ticket was this one: only leases with a ticket below have it as current.
    Draining(u64),
    /// No cell has its id since the next ticket was this one.
    Swept(u64),
}

/// What a key is that was current, since this ticket was the next one.
#[derive(Clone, Copy)]
pub enum OldPhase {
    /// Only leases with a ticket below have it as current.
    Draining(u64),
    /// No cell has its id.
    Swept(u64),
}

impl OldPhase {
    /// The same among all phases.
    pub(crate) fn phase(self) -> Phase
        ensures { result ≡ phase_of_old self }
    {
        match self {
            OldPhase::Draining(ticket) => Phase::Draining(ticket),
            OldPhase::Swept(ticket) => Phase::Swept(ticket),
        }
    }

    /// After a sweep, with this next ticket.
    fn swept(self, ticket: u64) -> OldPhase
        ensures { result ≡ swept_phase ticket self }
    {
        match self {
            OldPhase::Draining(_) => OldPhase::Swept(ticket),
            OldPhase::Swept(since) => OldPhase::Swept(since),
        }
    }

    /// Its number in a list of keys: 1 where it drains, 2 where it is swept.
    pub fn number(self) -> u8
        ensures { result ≡ number_of self }
    {
        match self {
            OldPhase::Draining(_) => 1,
            OldPhase::Swept(_) => 2,
        }
    }
}

/// A key that was current.
#[derive(Clone, Copy)]
pub struct OldKey {
    /// Its id.
    pub id: u64,
    /// The key.
    pub key: [u8; 32],
    /// What it is now.
    pub phase: OldPhase,
}

/// Where the key of this id stands.
fn place_of(past: &[OldKey], id: u64) -> Option<usize>
    ensures { IsPlace (is_key id) past.now result }
{
    'keys: for (place, key) in past.iter().enumerate() {
        if key.id == id {
            return Some(place);
        }
    }
    None
}

/// Whether there is a key of this id.
pub(crate) fn has_key(past: &[OldKey], id: u64) -> bool
    requires { AscendsBy IsOlder past.now }
    ensures { result ≡ has_old id past.now }
{
    past.binary_search_by(|key| key.id.cmp(&id)).is_ok()
}

/// The phase of the key of this id.
pub(crate) fn phase_in(past: &[OldKey], id: u64) -> Option<OldPhase>
    ensures { result ≡ old_phase_of (first (is_key id) past.now) }
{
    match place_of(past, id) {
        Some(place) => Some(past[place].phase),
        None => None,
    }
}

/// Makes the key swept, where it drains.
pub(crate) fn mark(past: &mut Vec<OldKey>, id: u64, ticket: u64)
    ensures { past.new.items ≡ edited (is_key id) (λ k. swept_key ticket k ∷ []) past.old.items }
{
    if let Some(place) = place_of(past, id) {
        let key = &mut past[place];
        key.phase = key.phase.swept(ticket);
    }
}

/// Takes the key away.
pub(crate) fn remove(past: &mut Vec<OldKey>, id: u64)
    ensures { past.new.items ≡ edited (is_key id) (λ _. []) past.old.items }
{
    if let Some(place) = place_of(past, id) {
        past.remove(place);
    }
}
