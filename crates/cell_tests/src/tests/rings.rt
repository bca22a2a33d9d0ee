//! Rings: clients, leases and phases.

use acra_base::ClientId;
use keystore::{
    AddRefusal, DrainRefusal, Lease, LeaseRefusal, NewKeys, NotAbandoned, RetireRefusal, Ring,
    RotateRefusal,
};
use std::alloc::Global;
use std::test::Fail;

fn client(name: &str) -> Result<ClientId, Fail> {
    Ok(ClientId::read(name.as_bytes()).ok().ok_or("no client")?)
}

fn keys(byte: u8) -> NewKeys {
    NewKeys {
        key: [byte; 32],
        search: [byte; 32],
    }
}

/// A ring with the clients `b` and `a`, in this order.
fn ring(alloc: Global) -> Result<Ring, Fail> {
    let mut ring = Ring::new(alloc, [1; 32], [2; 32], [3; 32]);
    ring.add_client(&client("b")?, keys(4))
        .ok()
        .ok_or("not added")?;
    ring.add_client(&client("a")?, keys(5))
        .ok()
        .ok_or("not added")?;
    Ok(ring)
}

/// The ticket of a lease for a client, with its own current key.
fn lease(ring: &mut Ring, who: &ClientId) -> Result<u64, Fail> {
    let owners = [*who];
    Ok(ring.lease(who, &owners).ok().ok_or("no lease")?.ticket)
}

#[test]
fn clients_stand_by_their_names(rt: HostRuntime) -> Result<(), Fail> {
    let alloc = rt.alloc();
    let mut ring = ring(alloc)?;
    assert_eq!(rt; ring.count(), 2);
    for (place, name) in [(0, "a"), (1, "b")] {
        let who = ring.client(place).ok_or("no client")?;
        assert_eq!(rt; who.text(), name.as_bytes());
    }
    assert!(rt; ring.client(2).is_none());
    assert_eq!(rt; ring.token_key()[0], 1);
    assert_eq!(rt; ring.store_key()[0], 2);
    assert_eq!(rt; ring.audit_key()[0], 3);
    assert_eq!(rt;
        ring.add_client(&client("a")?, keys(6)),
        Err(AddRefusal::Exists)
    );
    Ok(())
}

/// A lease for a client with its own current key, that of another, and its own again.
fn lease_three(ring: &mut Ring, who: &ClientId, other: &ClientId) -> Result<Lease, Fail> {
    let owners = [*who, *other, *who];
    Ok(ring.lease(who, &owners).ok().ok_or("no lease")?)
}

#[test]
fn a_lease_lends_keys(rt: HostRuntime) -> Result<(), Fail> {
    let mut ring = ring(rt.alloc())?;
    let who = client("b")?;
    assert_eq!(rt; ring.rotate(&who, [7; 32]), Ok(3));
    let lease = lease_three(&mut ring, &who, &client("a")?)?;
    assert_eq!(rt; lease.ticket, 1);
    assert_eq!(rt; lease.view.next_id, 4);
    assert_eq!(rt; lease.view.keys.len(), 2);
    for (key, id) in lease.currents.as_slice().iter().zip([3, 2, 3]) {
        assert_eq!(rt; key.id(), id);
    }
    assert!(rt; lease.view.find(1).is_some());
    assert!(rt; lease.view.find(2).is_none());
    Ok(())
}

#[test]
fn a_stranger_has_no_key(rt: HostRuntime) -> Result<(), Fail> {
    let mut ring = ring(rt.alloc())?;
    let who = client("c")?;
    let view = ring.view(&who).ok().ok_or("no memory")?;
    assert!(rt; view.keys.is_empty());
    let owners = [client("a")?, client("c")?, client("d")?];
    let refusal = ring.lease(&who, &owners).err().ok_or("a stranger's key")?;
    let LeaseRefusal::NoKey { owner } = &refusal else {
        return Err("another refusal")?;
    };
    assert_eq!(rt; owner.text(), b"c".as_slice());
    Ok(())
}

#[test]
fn retire_and_leases(rt: HostRuntime) -> Result<(), Fail> {
    let mut ring = ring(rt.alloc())?;
    let who = client("b")?;
    assert_eq!(rt; ring.retire(&who, 1), Err(RetireRefusal::NotSwept));
    assert_eq!(rt; ring.retire(&who, 9), Err(RetireRefusal::NoSuchKey));
    assert_eq!(rt;
        ring.rotate(&client("c")?, [7; 32]),
        Err(RotateRefusal::NoClient)
    );
    for ticket in 1..3 {
        assert_eq!(rt; lease(&mut ring, &who)?, ticket);
        ring.release(ticket);
    }
    assert_eq!(rt; lease(&mut ring, &who)?, 3);
    assert_eq!(rt; ring.rotate(&who, [7; 32]), Ok(3));
    assert_eq!(rt; ring.retire(&who, 1), Err(RetireRefusal::NotSwept));
    ring.mark_swept(&who, 1);
    assert_eq!(rt;
        ring.retire(&who, 1),
        Err(RetireRefusal::Leased { ticket: 3 })
    );
    ring.release(3);
    assert_eq!(rt; ring.retire(&who, 1), Ok(()));
    assert_eq!(rt; ring.retire(&who, 1), Err(RetireRefusal::NoSuchKey));
    Ok(())
}

/// What `drained` refuses of a key of a client, if it does.
fn refused(ring: &Ring, who: &ClientId, id: u64) -> Option<DrainRefusal> {
    ring.drained(who, id).err()
}

#[test]
fn an_abandoned_ticket_stays_out(rt: HostRuntime) -> Result<(), Fail> {
    let mut ring = ring(rt.alloc())?;
    let who = client("b")?;
    assert_eq!(rt; refused(&ring, &who, 2), Some(DrainRefusal::NoSuchKey));
    assert_eq!(rt; refused(&ring, &who, 1), Some(DrainRefusal::IsCurrent));
    let first = lease(&mut ring, &who)?;
    let second = lease(&mut ring, &who)?;
    assert_eq!(rt; ring.rotate(&who, [7; 32]), Ok(3));
    let later = lease(&mut ring, &who)?;
    ring.abandon(second);
    ring.release(second);
    assert_eq!(rt;
        refused(&ring, &who, 1),
        Some(DrainRefusal::Leased { ticket: first })
    );
    ring.release(first);
    assert_eq!(rt;
        refused(&ring, &who, 1),
        Some(DrainRefusal::Leased { ticket: second })
    );
    assert_eq!(rt; ring.settle(later), Err(NotAbandoned));
    assert_eq!(rt; ring.settle(first), Err(NotAbandoned));
    assert_eq!(rt; ring.settle(second), Ok(()));
    let drained = ring.drained(&who, 1).ok().ok_or("not drained")?;
    assert_eq!(rt; drained.who().text(), b"b".as_slice());
    assert_eq!(rt; drained.id(), 1);
    ring.mark_swept(drained.who(), drained.id());
    assert_eq!(rt; refused(&ring, &who, 1), Some(DrainRefusal::IsSwept));
    Ok(())
}

#[test]
fn phases_have_their_numbers(rt: HostRuntime) -> Result<(), Fail> {
    let alloc = rt.alloc();
    let mut ring = ring(alloc)?;
    let who = client("b")?;
    for byte in 7..9 {
        ring.rotate(&who, [byte; 32]).ok().ok_or("not rotated")?;
    }
    ring.mark_swept(&who, 1);
    ring.mark_swept(&who, 4);
    let mut lines = Vec::new(alloc);
    assert!(rt; ring.phases(&who, &mut lines).ok().ok_or("no memory")?);
    for (line, want) in lines.iter().zip([(1, 2), (3, 1), (4, 0)]) {
        assert_eq!(rt; (line.id, line.phase), want);
    }
    assert_eq!(rt; lines.len(), 3);
    assert!(rt;
        !ring
            .phases(&client("c")?, &mut lines)
            .ok()
            .ok_or("no memory")?
    );
    assert_eq!(rt; lines.len(), 3);
    Ok(())
}

#[test]
fn rings_are_full_at_256(rt: HostRuntime) -> Result<(), Fail> {
    let mut ring = Ring::new(rt.alloc(), [1; 32], [2; 32], [3; 32]);
    for place in 0..256u16 {
        let name = [b'a' + (place / 16) as u8, b'a' + (place % 16) as u8];
        let who = ClientId::read(&name).ok().ok_or("no client")?;
        ring.add_client(&who, keys(1)).ok().ok_or("not added")?;
    }
    assert_eq!(rt;
        ring.add_client(&client("zz")?, keys(1)),
        Err(AddRefusal::TooMany)
    );
    let who = client("aa")?;
    for _ in 0..255 {
        ring.rotate(&who, [1; 32]).ok().ok_or("not rotated")?;
    }
    assert_eq!(rt; ring.rotate(&who, [1; 32]), Err(RotateRefusal::TooMany));
    Ok(())
}
