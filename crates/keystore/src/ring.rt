ghost use Rattle.std.specs.Prelude.{◌≡◌, ◌≤◌, ◌<◌, ◌-◌, ◌^◌, ◌++◌, ◌↔◌, List, [], Option, option_map, if◌then◌else◌, is_ok, is_some, IsTrue, IfOk, IfSome, OnOk, OnErr, None, length, slice_get};
ghost use Rattle.std.specs.List.{AllByRecursion};
ghost use Rattle.keystore.specs.declared.refusals.AddRefusal.TheVariants as no_add;
ghost use Rattle.keystore.specs.declared.refusals.LeaseRefusal.TheVariants as no_lease;
ghost use Rattle.keystore.specs.declared.refusals.RotateRefusal.TheVariants as no_rotation;
ghost use Rattle.keystore.specs.Rings.{restored_ring, client_of, view_of, currents_of, missing, released, abandoned, settled, is_abandoned, phase_in, least_below, lines_where};
ghost use Rattle.keystore.specs.Answers.{Answers, Settles, add_refusal, with_client, lease_refusal, lease_of, with_lease, rotate_refusal, with_rotation, drain_refusal, retire_refusal, with_marked, with_retired};
ghost use Rattle.keystore.specs.Lists.{AscendsBy};
ghost use Rattle.keystore.specs.Kept.{IsBefore, IsKept};
ghost use Rattle.keystore.specs.Places.{IsPlaced};

use crate::client::Client;
use crate::keys::{Drained, KeyLine, Lease, NewKeys};
use crate::phase::Phase;
use crate::refusals::{
    AddRefusal, DrainRefusal, LeaseRefusal, NotAbandoned, RetireRefusal, RotateRefusal,
};
use crate::tickets::{self, Ticket};
use acra_base::{ClientId, NoMemory, Sequence};
use acra_block::{KeyView, OwnerKey};
use std::alloc::Global;
use std::marker::Model;

const MOST_CLIENTS: usize = 256;

const MOST_KEYS: usize = 256;

/// The keys of clients, and the tickets under which they are lent.
#[derive(Drop)]
pub struct Ring {
    token_key: [u8; 32],
    store_key: [u8; 32],
    audit_key: [u8; 32],
    clients: Vec<Client>,
    next_id: u64,
    next_ticket: u64,
    out: Vec<Ticket>,
}

impl Model for Ring {
    ghost use Rattle.keystore.specs.Rings.{RingState};
    ghost use Rattle.keystore.specs.Kept.{IsKept};

    ghost Value = { RingState };

    ghost view = { λ r. record { token_key = r.token_key; store_key = r.store_key; audit_key = r.audit_key; clients = r.clients.items; next_id = r.next_id; next_ticket = r.next_ticket; out = r.out.items } };

    ghost invariant = { λ r. IsKept (record { token_key = r.token_key; store_key = r.store_key; audit_key = r.audit_key; clients = r.clients.items; next_id = r.next_id; next_ticket = r.next_ticket; out = r.out.items }) };
}

/// Where the client is, or where it would go.
fn place_of(clients: &[Client], who: &ClientId) -> Result<usize, usize>
    requires { AscendsBy IsBefore clients.now }
    ensures { IsPlaced who.now clients.now result }
{
    clients.binary_search_by(|client| client.compare(who))
}

impl Ring {
    /// A ring with these keys of the suite's own, and no client. It takes no memory.
    pub fn new(alloc: Global, token_key: [u8; 32], store_key: [u8; 32], audit_key: [u8; 32]) -> Ring
        ensures { result ≡ record { token_key = token_key; store_key = store_key; audit_key = audit_key; clients = []; next_id = 1; next_ticket = 1; out = [] } }
    {
        Ring {
            token_key,
            store_key,
            audit_key,
            clients: Vec::new(alloc),
            next_id: 1,
            next_ticket: 1,
            out: Vec::new(alloc),
        }
    }

    /// A ring that was kept. No ticket is out, and the next one is 1. It takes no memory.
    pub fn restored(
        alloc: Global,
        token_key: [u8; 32],
        store_key: [u8; 32],
        audit_key: [u8; 32],
        clients: Vec<Client>,
        next_id: u64,
    ) -> Ring
        requires { IsKept (restored_ring token_key store_key audit_key clients.items next_id) }
        ensures { result ≡ restored_ring token_key store_key audit_key clients.items next_id }
    {
        Ring {
            token_key,
            store_key,
            audit_key,
            clients,
            next_id,
            next_ticket: 1,
            out: Vec::new(alloc),
        }
    }

    /// Its clients, in ascending order of name bytes.
    pub fn clients(&self) -> &[Client]
        ensures value { result.now ≡ self.now.clients }
        ensures kept { IsKept self.now }
    {
        &self.clients
    }

    /// The id that the next key gets.
    pub fn next_id(&self) -> u64
        ensures { result ≡ self.now.next_id }
    {
        self.next_id
    }

    fn find(&self, who: &ClientId) -> Option<&Client>
        ensures value { option_map (λ c. c.now) result ≡ client_of who.now self.now.clients }
        ensures least { IfSome result (λ c. 1 ≤ c.now.id) }
    {
        match place_of(&self.clients, who) {
            Ok(place) => Some(&self.clients[place]),
            Err(_) => None,
        }
    }

    /// Adds a client with its first keys, and gives the id of its key.
    pub fn add_client(&mut self, who: &ClientId, keys: NewKeys) -> Result<u64, AddRefusal>
        ensures answer { Answers (add_refusal self.old who.now) no_add.NoMemory (λ id. id ≡ self.old.next_id) result }
        ensures ring { self.new ≡ (if is_ok result then with_client self.old who.now keys else self.old) }
    {
        let Err(place) = place_of(&self.clients, who) else {
            return Err(AddRefusal::Exists);
        };
        if self.clients.len() >= MOST_CLIENTS || self.next_id == u64::MAX {
            return Err(AddRefusal::TooMany);
        }
        let id = self.next_id;
        let client = Client::new(*self.clients.allocator(), *who, keys.search, id, keys.key);
        match self.clients.insert(place, client) {
            Ok(()) => {
                self.next_id = id + 1;
                Ok(id)
            }
            Err(_) => Err(AddRefusal::NoMemory),
        }
    }

    /// Makes this key the client's current one, and gives its id. The key that was current drains from the
    /// next ticket on.
    pub fn rotate(&mut self, who: &ClientId, key: [u8; 32]) -> Result<u64, RotateRefusal>
        ensures answer { Answers (rotate_refusal self.old who.now) no_rotation.NoMemory (λ id. id ≡ self.old.next_id) result }
        ensures ring { self.new ≡ (if is_ok result then with_rotation self.old who.now key else self.old) }
    {
        let Ok(place) = place_of(&self.clients, who) else {
            return Err(RotateRefusal::NoClient);
        };
        let id = self.next_id;
        let client = &mut self.clients[place];
        if client.past_keys() >= MOST_KEYS - 1 || id == u64::MAX {
            return Err(RotateRefusal::TooMany);
        }
        match client.rotate(id, key, self.next_ticket) {
            Ok(()) => {
                self.next_id = id + 1;
                Ok(id)
            }
            Err(_) => Err(RotateRefusal::NoMemory),
        }
    }

    /// The ticket is out no more. Where it isn't out, or is abandoned, nothing changes. It takes no memory.
    pub fn release(&mut self, ticket: u64)
        ensures { self.new ≡ record self.old { out = released ticket self.old.out } }
    {
        tickets::release(&mut self.out, ticket);
    }

    /// The ticket stays out and is abandoned, until it is settled. Where it isn't out, or is abandoned
    /// already, nothing changes. It takes no memory.
    pub fn abandon(&mut self, ticket: u64)
        ensures { self.new ≡ record self.old { out = abandoned ticket self.old.out } }
    {
        tickets::abandon(&mut self.out, ticket);
    }

    /// An abandoned ticket is out no more. It takes no memory.
    pub fn settle(&mut self, ticket: u64) -> Result<(), NotAbandoned>
        ensures answer { IsTrue (is_ok result) ↔ IsTrue (is_abandoned ticket self.old.out) }
        ensures ring { self.new ≡ record self.old { out = settled ticket self.old.out } }
    {
        if tickets::settle(&mut self.out, ticket) {
            Ok(())
        } else {
            Err(NotAbandoned)
        }
    }

    fn phase(&self, who: &ClientId, id: u64) -> Option<Phase>
        ensures { result ≡ phase_in self.now who.now id }
    {
        match self.find(who) {
            Some(client) => client.phase(id),
            None => None,
        }
    }

    fn least_below(&self, ticket: u64) -> Option<u64>
        ensures { result ≡ least_below ticket self.now.out }
    {
        tickets::least_below(&self.out, ticket)
    }

    /// The key, where it drains and no ticket is out that was given before it began to. It takes no memory.
    pub fn drained(&self, who: &ClientId, id: u64) -> Result<Drained, DrainRefusal>
        ensures { Settles (drain_refusal self.now who.now id) (λ key. key ≡ record { who = who.now; id = id }) result }
    {
        match self.phase(who, id) {
            None => Err(DrainRefusal::NoSuchKey),
            Some(Phase::Current) => Err(DrainRefusal::IsCurrent),
            Some(Phase::Swept(_)) => Err(DrainRefusal::IsSwept),
            Some(Phase::Draining(since)) => match self.least_below(since) {
                Some(ticket) => Err(DrainRefusal::Leased { ticket }),
                None => Ok(Drained::new(*who, id)),
            },
        }
    }

    /// Makes a draining key swept from the next ticket on. Of any other key, or none, nothing changes. It
    /// takes no memory. Who calls it holds that no cell has the key's id.
    pub fn mark_swept(&mut self, who: &ClientId, id: u64)
        ensures { self.new ≡ with_marked self.old who.now id }
    {
        if let Ok(place) = place_of(&self.clients, who) {
            let ticket = self.next_ticket;
            let client = &mut self.clients[place];
            client.mark(id, ticket);
        }
    }

    fn retire_refusal(&self, who: &ClientId, id: u64) -> Option<RetireRefusal>
        ensures { result ≡ retire_refusal self.now who.now id }
    {
        match self.phase(who, id) {
            None => Some(RetireRefusal::NoSuchKey),
            Some(Phase::Current) => Some(RetireRefusal::NotSwept),
            Some(Phase::Draining(_)) => Some(RetireRefusal::NotSwept),
            Some(Phase::Swept(since)) => match self.least_below(since) {
                Some(ticket) => Some(RetireRefusal::Leased { ticket }),
                None => None,
            },
        }
    }

    fn remove(&mut self, who: &ClientId, id: u64)
        ensures { self.new ≡ with_retired self.old who.now id }
    {
        if let Ok(place) = place_of(&self.clients, who) {
            let client = &mut self.clients[place];
            client.remove(id);
        }
    }

    /// Removes a swept key, where no ticket is out that was given before it was swept. It takes no memory.
    pub fn retire(&mut self, who: &ClientId, id: u64) -> Result<(), RetireRefusal>
        ensures answer { Settles (retire_refusal self.old who.now id) (λ _. Unit {0}) result }
        ensures ring { self.new ≡ (if is_ok result then with_retired self.old who.now id else self.old) }
    {
        if let Some(refusal) = self.retire_refusal(who, id) {
            return Err(refusal);
        }
        self.remove(who, id);
        Ok(())
    }

    /// Appends the client's keys with their phases, oldest first, and tells whether the client is there.
    /// Without memory `out` stays.
    pub fn phases(&self, who: &ClientId, out: &mut Vec<KeyLine>) -> Result<bool, NoMemory>
        ensures there { IfOk result (λ there. there ≡ is_some (client_of who.now self.now.clients)) }
        ensures lines { out.new.items ≡ (if is_ok result then out.old.items ++ lines_where (client_of who.now self.now.clients) else out.old.items) }
    {
        let Some(client) = self.find(who) else {
            return Ok(false);
        };
        let lines = client.lines(*out.allocator())?;
        out.extend_from_slice(&lines)?;
        Ok(true)
    }

    /// The client's live keys, as they are now: none where it isn't there.
    pub fn view(&self, who: &ClientId) -> Result<KeyView, NoMemory>
        ensures { IfOk result (λ view. view ≡ view_of self.now who.now) }
    {
        let alloc = *self.clients.allocator();
        let keys = match self.find(who) {
            Some(client) => client.live_keys(alloc)?,
            None => Sequence::new(alloc),
        };
        Ok(KeyView {
            who: *who,
            next_id: self.next_id,
            keys,
        })
    }

    /// The first of the owners that isn't there.
    fn missing(&self, owners: &[ClientId]) -> Option<ClientId>
        ensures { result ≡ missing self.now owners.now }
    {
        'owners: for owner in owners {
            if self.find(owner).is_none() {
                return Some(*owner);
            }
        }
        None
    }

    /// The current keys of the owners that are there.
    fn currents(&self, owners: &[ClientId]) -> Result<Sequence<OwnerKey>, NoMemory>
        ensures { IfOk result (λ keys. keys ≡ currents_of self.now owners.now) }
    {
        let mut keys = Sequence::new(*self.clients.allocator());
        'owners: for owner in owners {
            if let Some(client) = self.find(owner) {
                keys.push(client.current())?;
            }
        }
        Ok(keys)
    }

    /// Gives the next ticket out.
    fn lend(&mut self) -> Result<u64, NoMemory>
        requires { self.old.next_ticket < 2 ^ 64 - 1 }
        ensures ticket { IfOk result (λ ticket. ticket ≡ self.old.next_ticket) }
        ensures ring { self.new ≡ (if is_ok result then with_lease self.old else self.old) }
    {
        let ticket = self.next_ticket;
        self.out.push(Ticket {
            number: ticket,
            abandoned: false,
        })?;
        self.next_ticket = ticket + 1;
        Ok(ticket)
    }

    /// Lends the live keys of a client, and the current key of each owner, under the next ticket.
    pub fn lease(&mut self, who: &ClientId, owners: &[ClientId]) -> Result<Lease, LeaseRefusal>
        ensures answer { Answers (lease_refusal self.old owners.now) no_lease.NoMemory (λ lease. lease ≡ lease_of self.old who.now owners.now) result }
        ensures ring { self.new ≡ (if is_ok result then with_lease self.old else self.old) }
    {
        if self.next_ticket == u64::MAX {
            return Err(LeaseRefusal::NoTicket);
        }
        if let Some(owner) = self.missing(owners) {
            return Err(LeaseRefusal::NoKey { owner });
        }
        let view = self.view(who)?;
        let currents = self.currents(owners)?;
        let ticket = self.lend()?;
        Ok(Lease {
            ticket,
            view,
            currents,
        })
    }

    /// The key of the tokens.
    pub fn token_key(&self) -> &[u8; 32]
        ensures { result.now ≡ self.now.token_key }
    {
        &self.token_key
    }

    /// The key under which token records are sealed.
    pub fn store_key(&self) -> &[u8; 32]
        ensures { result.now ≡ self.now.store_key }
    {
        &self.store_key
    }

    /// The first key of the audit log.
    pub fn audit_key(&self) -> &[u8; 32]
        ensures { result.now ≡ self.now.audit_key }
    {
        &self.audit_key
    }

    /// How many clients there are, at most 256.
    pub fn count(&self) -> u16
        ensures value { result ≡ length self.now.clients }
        ensures kept { IsKept self.now }
    {
        self.clients.len() as u16
    }

    /// The client at this place in ascending order of name bytes. None exactly from the count on.
    pub fn client(&self, place: u16) -> Option<&ClientId>
        ensures { option_map (λ n. n.now) result ≡ option_map (λ c. c.name) (slice_get self.now.clients place) }
    {
        match self.clients.get(usize::from(place)) {
            Some(client) => Some(client.name()),
            None => None,
        }
    }
}
