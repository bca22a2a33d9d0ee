use acra_base::ClientId;
use acra_crypto::{Aead, TrialAead};
use keystore::{NewKeys, Ring};
use ring_file::{RingFault, read_ring, write_ring};
use std::alloc::Global;
use std::test::Fail;

const MASTER: [u8; 32] = [7; 32];

const NONCE: [u8; 12] = [9; 12];

/// The ring of two clients `a` and `bc`, of which the first was rotated.
fn ring(alloc: Global) -> Result<Ring, Fail> {
    let mut ring = Ring::new(alloc, [1; 32], [2; 32], [3; 32]);
    for (name, byte, search) in [("bc", 4, 5), ("a", 6, 7)] {
        let who = ClientId::read(name.as_bytes()).ok().ok_or("no client")?;
        let keys = NewKeys {
            key: [byte; 32],
            search: [search; 32],
        };
        ring.add_client(&who, keys).ok().ok_or("not added")?;
    }
    let who = ClientId::read(b"a").ok().ok_or("no client")?;
    ring.rotate(&who, [8; 32]).ok().ok_or("not rotated")?;
    ring.mark_swept(&who, 2);
    Ok(ring)
}

/// The same ring's body, as the format has it.
fn body(alloc: Global) -> Result<Vec<u8>, Fail> {
    let mut body = Vec::new(alloc);
    body.extend_from_slice(&[1; 32])?;
    body.extend_from_slice(&[2; 32])?;
    body.extend_from_slice(&[3; 32])?;
    body.extend_from_slice(b"\x04\0\0\0\0\0\0\0\x02\0")?;
    body.extend_from_slice(b"\x01a")?;
    body.extend_from_slice(&[7; 32])?;
    body.extend_from_slice(b"\x02\0\x02\0\0\0\0\0\0\0\x02")?;
    body.extend_from_slice(&[6; 32])?;
    body.extend_from_slice(b"\x03\0\0\0\0\0\0\0\0")?;
    body.extend_from_slice(&[8; 32])?;
    body.extend_from_slice(b"\x02bc")?;
    body.extend_from_slice(&[5; 32])?;
    body.extend_from_slice(b"\x01\0\x01\0\0\0\0\0\0\0\0")?;
    body.extend_from_slice(&[4; 32])?;
    Ok(body)
}

/// A file with this body.
fn file(alloc: Global, body: &[u8]) -> Result<Vec<u8>, Fail> {
    let mut file = Vec::new(alloc);
    file.extend_from_slice(b"AKR1")?;
    file.extend_from_slice(&NONCE)?;
    TrialAead.seal(alloc, &MASTER, &NONCE, b"AKR1", body, &mut file)?;
    Ok(file)
}

#[test]
fn a_ring_is_kept(rt: HostRuntime) -> Result<(), Fail> {
    let alloc = rt.alloc();
    let mut bytes = Vec::new(alloc);
    write_ring(
        alloc,
        &TrialAead,
        &ring(alloc)?,
        &MASTER,
        &NONCE,
        &mut bytes,
    )?;
    assert_eq!(rt; bytes, file(alloc, &body(alloc)?)?);

    let back = read_ring(alloc, &TrialAead, &bytes, &MASTER)?;
    assert_eq!(rt; back.next_id(), 4);
    let mut again = Vec::new(alloc);
    write_ring(alloc, &TrialAead, &back, &MASTER, &NONCE, &mut again)?;
    assert_eq!(rt; again, bytes);
    Ok(())
}

/// The fault of a file whose body has these bytes from a place on, in place of its own.
fn fault(alloc: Global, place: usize, bytes: &[u8]) -> Result<Option<RingFault>, Fail> {
    let mut changed = body(alloc)?;
    for (old, new) in changed.iter_mut().skip(place).zip(bytes) {
        *old = *new;
    }
    let file = file(alloc, &changed)?;
    Ok(read_ring(alloc, &TrialAead, &file, &MASTER).err())
}

#[test]
fn the_first_bad_field_is_told(rt: HostRuntime) -> Result<(), Fail> {
    let alloc = rt.alloc();
    // What is changed, and where the first field stands that can't be so: a next id of 0, 257 clients, a name
    // of no bytes and of 65, a name with a capital letter, no key, an old key's id that is 0 or the next
    // one, that is current or of another phase, a last key's id that doesn't ascend or isn't below the next,
    // a last key that drains, a second name before the first, and an id that stands before.
    let cases: [(usize, &[u8], usize); 15] = [
        (96, b"\0", 96),
        (104, b"\x01\x01", 104),
        (106, b"\0", 106),
        (106, b"\x41", 106),
        (107, b"A", 107),
        (140, b"\0\0", 140),
        (142, b"\0", 142),
        (142, b"\x04", 142),
        (150, b"\0", 150),
        (150, b"\x03", 150),
        (183, b"\x02", 183),
        (183, b"\x04", 183),
        (191, b"\x01", 191),
        (225, b"`a", 225),
        (261, b"\x03", 261),
    ];
    for (place, bytes, at) in cases {
        let found = fault(alloc, place, bytes)?;
        assert_eq!(rt;
            found,
            Some(RingFault::BadForm { place: at }),
            "{bytes:?} at {place}"
        );
    }
    assert_eq!(rt; fault(alloc, 0, b"")?, None);
    Ok(())
}

#[test]
fn a_body_ends_with_its_last_key(rt: HostRuntime) -> Result<(), Fail> {
    let alloc = rt.alloc();
    let mut body = body(alloc)?;
    assert_eq!(rt; body.len(), 302);
    body.push(0)?;
    let long = file(alloc, &body)?;
    let found = read_ring(alloc, &TrialAead, &long, &MASTER).err();
    assert_eq!(rt; found, Some(RingFault::BadForm { place: 302 }));
    body.truncate(301);
    let short = file(alloc, &body)?;
    let found = read_ring(alloc, &TrialAead, &short, &MASTER).err();
    assert_eq!(rt; found, Some(RingFault::BadForm { place: 270 }));
    Ok(())
}

/// Changes the byte's last bit.
fn flip(byte: Option<&mut u8>) {
    if let Some(byte) = byte {
        *byte ^= 1;
    }
}

#[test]
fn a_changed_file_is_not_opened(rt: HostRuntime) -> Result<(), Fail> {
    let alloc = rt.alloc();
    let mut bytes = file(alloc, &body(alloc)?)?;
    flip(bytes.last_mut());
    let found = read_ring(alloc, &TrialAead, &bytes, &MASTER).err();
    assert_eq!(rt; found, Some(RingFault::NotSealed));
    flip(bytes.last_mut());
    flip(bytes.first_mut());
    let found = read_ring(alloc, &TrialAead, &bytes, &MASTER).err();
    assert_eq!(rt; found, Some(RingFault::NotSealed));
    let found = read_ring(alloc, &TrialAead, b"AKR1", &MASTER).err();
    assert_eq!(rt; found, Some(RingFault::NotSealed));
    Ok(())
}
