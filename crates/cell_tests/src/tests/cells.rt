//! Cells: what another program makes of the same keys and draws, what they open to, and each bit changed.

ghost use Rattle.std.specs.Prelude.{◌≡◌, ◌≤◌, true};
ghost use Rattle.acra_base.specs.Names.{is_name};

use super::{array, bytes};
use acra_base::{Bytes, ClientId, Name, Sequence};
use acra_block::{
    CellKind, CellPlace, Container, KeyView, LiveKey, Opened, OwnerKey, PlainPart, key_id,
    open_cell, plain_part, read_container, seal_cell,
};
use acra_crypto::Aes256Gcm;
use std::alloc::Global;
use std::process::Abort;
use std::test::Fail;

const KEY: &str = "2308b95cf8d0bb7d202d2102780ea3528f1cb48560f76b20f382b942500fceac";

// A data key, the nonce of its seal, and the nonce of the value's seal.
const DRAWS: &str = "c86654e8bb4d40bc7bfbf0fbd9d91f943e6225a8f8968aa7242402170de92c28\
    a3e2edc43e1057b25345acd3350a0029dd74f39cd4f2f8a9";

// The containers of "it's", of nothing and of "567" for the client `app`, with this key and these draws, in
// version 1 and, for the column body of the table notes, in version 2; and the blind index of "ann@x.org" under
// the bytes 0 to 31: Python 3.11, cryptography 48.0 and hmac.
const QUOTED: [&str; 2] = [
    "222222226800000000000000000100000000000000003c00a3e2edc43e1057b25345acd3\
        a238cb855968bdd8377f805b942a3e2fcfc23bef21bf0ed75c87ea241d7016c32b39d1a27a3027fd297c6b9f932ccde9\
        350a0029dd74f39cd4f2f8a95189d1d8da825748cc4db2a9c3b2cf40df164be2",
    "222222226800000000000000010100000000000000003c00a3e2edc43e1057b25345acd3\
        a238cb855968bdd8377f805b942a3e2fcfc23bef21bf0ed75c87ea241d7016c32a139c012bc454557a54351cf8c10746\
        350a0029dd74f39cd4f2f8a95189d1d8effe879417165bd9a8a0d3a238b9abe1",
];

const EMPTY: [&str; 2] = [
    "222222226400000000000000000100000000000000003c00a3e2edc43e1057b25345acd3\
        a238cb855968bdd8377f805b942a3e2fcfc23bef21bf0ed75c87ea241d7016c32b39d1a27a3027fd297c6b9f932ccde9\
        350a0029dd74f39cd4f2f8a96897e81cf70213cbb35c477df9f4f244",
    "222222226400000000000000010100000000000000003c00a3e2edc43e1057b25345acd3\
        a238cb855968bdd8377f805b942a3e2fcfc23bef21bf0ed75c87ea241d7016c32a139c012bc454557a54351cf8c10746\
        350a0029dd74f39cd4f2f8a989ca1bcdd985d3ba2b8734f5367fd82c",
];

const REST: [&str; 2] = [
    "222222226700000000000000000100000000000000003c00a3e2edc43e1057b25345acd3\
        a238cb855968bdd8377f805b942a3e2fcfc23bef21bf0ed75c87ea241d7016c32b39d1a27a3027fd297c6b9f932ccde9\
        350a0029dd74f39cd4f2f8a90dcbc172e3ec7e41dffba32b078012d1ea5bc8",
    "222222226700000000000000010100000000000000003c00a3e2edc43e1057b25345acd3\
        a238cb855968bdd8377f805b942a3e2fcfc23bef21bf0ed75c87ea241d7016c32a139c012bc454557a54351cf8c10746\
        350a0029dd74f39cd4f2f8a90dcbc1479f3ca29a8412d340159cf03645bbcb",
];

const INDEX: &str = "0122d5964b20bb27628b0244dc762dc0db8d2aa9aca5c66213341aaae09885b7f5";

const MASKED: CellKind = CellKind::Masked {
    left: true,
    length: 4,
    chars: false,
};

/// The client `app`, with the key of this id.
fn owner_key(alloc: Global) -> Result<OwnerKey, Fail> {
    let app = ClientId::read(b"app").ok().ok_or("no client")?;
    let mut search = [0; 32];
    for (place, byte) in search.iter_mut().zip(0..32u8) {
        *place = byte;
    }
    Ok(OwnerKey::new(app, 1, array(&bytes(alloc, KEY)?), search))
}

/// What the client's keys are, below this id.
fn view(alloc: Global, next_id: u64, has_key: bool) -> Result<KeyView, Fail> {
    let who = ClientId::read(b"app").ok().ok_or("no client")?;
    let mut keys = Sequence::new(alloc);
    if has_key {
        let key = array(&bytes(alloc, KEY)?);
        keys.push(LiveKey { id: 1, key }).ok().ok_or("no memory")?;
    }
    Ok(KeyView { who, next_id, keys })
}

fn named(alloc: Global, name: &[u8]) -> Result<Name, Fail>
    requires { is_name name.now ≡ true }
{
    Ok(Name::new(Bytes::copied(alloc, name)?))
}

/// This column of this table.
fn place(alloc: Global, table: &[u8], column: &[u8]) -> Result<CellPlace, Fail>
    requires table { is_name table.now ≡ true }
    requires column { is_name column.now ≡ true }
{
    Ok(CellPlace {
        table: named(alloc, table)?,
        column: named(alloc, column)?,
    })
}

/// The cell of a short ASCII value in the column body of the table notes.
fn cell(
    rt: &impl Abort,
    alloc: Global,
    kind: CellKind,
    version: u8,
    plain: &str,
) -> Result<Vec<u8>, Fail>
    requires first { 1 ≤ version }
    requires last { version ≤ 2 }
{
    let draws = array(&bytes(alloc, DRAWS)?);
    assert!(rt; plain.len() < 100);
    let mut out = Vec::new(alloc);
    let key = owner_key(alloc)?;
    let body = place(alloc, b"notes", b"body")?;
    let plain = plain.as_bytes();
    seal_cell(
        alloc, &Aes256Gcm, kind, &body, version, &key, plain, &draws, &mut out,
    )?;
    Ok(out)
}

/// What a cell opens to in a place, and its value.
fn opened_in(
    alloc: Global,
    kind: CellKind,
    place: &CellPlace,
    keys: &KeyView,
    cell: &[u8],
) -> Result<(Opened, Vec<u8>), Fail> {
    let mut out = Vec::new(alloc);
    let answer = open_cell(alloc, &Aes256Gcm, kind, place, keys, cell, &mut out)?;
    Ok((answer, out))
}

/// What a cell opens to in the column body of the table notes, and its value.
fn opened(
    alloc: Global,
    kind: CellKind,
    keys: &KeyView,
    cell: &[u8],
) -> Result<(Opened, Vec<u8>), Fail> {
    let body = place(alloc, b"notes", b"body")?;
    opened_in(alloc, kind, &body, keys, cell)
}

/// A value is sealed in both versions as another program does it.
fn is_made(
    rt: &impl Abort,
    alloc: Global,
    kind: CellKind,
    plain: &str,
    front: &str,
    containers: [&str; 2],
) -> Result<(), Fail> {
    let mut version = 1;
    for container in containers {
        let mut wanted = bytes(alloc, front)?;
        wanted.extend_from_slice(&bytes(alloc, container)?)?;
        assert!(rt; version == 1 || version == 2);
        let made = cell(rt, alloc, kind, version, plain)?;
        assert_eq!(rt; made.as_slice(), wanted.as_slice(), "{plain} {version}");
        version += 1;
    }
    Ok(())
}

#[test]
fn cells_by_another_program(rt: HostRuntime) -> Result<(), Fail> {
    let alloc = rt.alloc();
    is_made(&rt, alloc, CellKind::Sealed, "it's", "", QUOTED)?;
    is_made(&rt, alloc, CellKind::Sealed, "", "", EMPTY)?;
    is_made(&rt, alloc, MASKED, "1234567", "02000400000031323334", REST)?;
    is_made(&rt, alloc, MASKED, "", "020000000000", EMPTY)?;
    let made = cell(&rt, alloc, CellKind::Searchable, 2, "ann@x.org")?;
    let index = bytes(alloc, INDEX)?;
    assert!(rt; made.starts_with(&index));
    Ok(())
}

/// A cell of this version opens in another place so, with this value.
fn opens_elsewhere(
    rt: &impl Abort,
    alloc: Global,
    version: u8,
    wanted: Opened,
    value: &str,
) -> Result<(), Fail>
    requires first { 1 ≤ version }
    requires last { version ≤ 2 }
{
    let keys = view(alloc, 2, true)?;
    let made = cell(rt, alloc, CellKind::Sealed, version, "it's")?;
    let places = [
        place(alloc, b"notes", b"other")?,
        place(alloc, b"others", b"body")?,
        place(alloc, b"body", b"notes")?,
    ];
    for elsewhere in &places {
        let (answer, plain) = opened_in(alloc, CellKind::Sealed, elsewhere, &keys, &made)?;
        assert_eq!(rt; answer, wanted);
        assert_eq!(rt; plain.as_slice(), value.as_bytes());
    }
    Ok(())
}

#[test]
fn cells_in_another_place(rt: HostRuntime) -> Result<(), Fail> {
    opens_elsewhere(&rt, rt.alloc(), 1, Opened::Plain, "it's")?;
    opens_elsewhere(&rt, rt.alloc(), 2, Opened::Broken, "")
}

/// What the empty cell of a version tells, and what it opens to.
fn is_empty_cell(rt: &impl Abort, alloc: Global, version: u8) -> Result<(), Fail>
    requires first { 1 ≤ version }
    requires last { version ≤ 2 }
{
    let mut made = cell(rt, alloc, CellKind::Sealed, version, "")?;
    let told = Container {
        id: 1,
        version,
        length: 0,
    };
    assert_eq!(rt; made.len(), 112);
    assert_eq!(rt; read_container(&made), Some(told));
    assert_eq!(rt; key_id(CellKind::Sealed, &made), Some(1));
    assert_eq!(rt; read_container(made.split_at(111).0), None);
    let cases = [
        (view(alloc, 2, true)?, Opened::Plain),
        (view(alloc, 1, true)?, Opened::UnknownKey(1)),
        (view(alloc, 2, false)?, Opened::Foreign),
    ];
    for (keys, wanted) in cases {
        assert_eq!(rt; opened(alloc, CellKind::Sealed, &keys, &made)?.0, wanted);
    }
    made.push(0)?;
    assert_eq!(rt; read_container(&made), None);
    let keys = view(alloc, 2, true)?;
    assert_eq!(rt;
        opened(alloc, CellKind::Sealed, &keys, &made)?.0,
        Opened::Broken
    );
    Ok(())
}

#[test]
fn empty_cell(rt: HostRuntime) -> Result<(), Fail> {
    is_empty_cell(&rt, rt.alloc(), 1)?;
    is_empty_cell(&rt, rt.alloc(), 2)
}

#[test]
fn masked_cards(rt: HostRuntime) -> Result<(), Fail> {
    let alloc = rt.alloc();
    let keys = view(alloc, 2, true)?;
    let cases: [(&str, usize); 4] = [("1234567", 10), ("1234", 6), ("123", 6), ("", 6)];
    for (card, end) in cases {
        let made = cell(&rt, alloc, MASKED, 2, card)?;
        let part = PlainPart {
            left: true,
            start: 6,
            end,
        };
        assert_eq!(rt; plain_part(&made), Some(part), "{card}");
        let (answer, plain) = opened(alloc, MASKED, &keys, &made)?;
        assert_eq!(rt; answer, Opened::Plain);
        assert!(rt; plain.as_slice() == card.as_bytes(), "{card}");
    }
    Ok(())
}

/// The plain part of a text that is cut by characters. The cell opens to the text.
fn part_of(
    rt: &impl Abort,
    alloc: Global,
    left: bool,
    length: u32,
    text: &str,
) -> Result<Vec<u8>, Fail> {
    let kind = CellKind::Masked {
        left,
        length,
        chars: true,
    };
    let made = cell(rt, alloc, kind, 2, text)?;
    let (answer, plain) = opened(alloc, kind, &view(alloc, 2, true)?, &made)?;
    assert_eq!(rt; answer, Opened::Plain);
    assert_eq!(rt; plain.as_slice(), text.as_bytes());
    let part = plain_part(&made).ok_or("no plain part")?;
    assert_eq!(rt; part.left, left);
    assert!(rt; part.start <= part.end && part.end <= made.len());
    Ok(Vec::from_slice(alloc, &made[part.start..part.end])?)
}

/// Characters of 1 to 4 bytes: the plain part of a length from the left or from the right.
const CHARACTERS: [(bool, u32, &str); 8] = [
    (true, 0, ""),
    (true, 1, "a"),
    (true, 2, "aé"),
    (true, 3, "aé€"),
    (true, 4, ""),
    (false, 1, "𝄞"),
    (false, 2, "€𝄞"),
    (false, 3, "é€𝄞"),
];

#[test]
fn characters(rt: HostRuntime) -> Result<(), Fail> {
    for (left, length, wanted) in CHARACTERS {
        let part = part_of(&rt, rt.alloc(), left, length, "aé€𝄞")?;
        assert_eq!(rt; part.as_slice(), wanted.as_bytes(), "{left} {length}");
    }
    Ok(())
}

/// Opens a cell with each bit from a place on changed.
fn each_bit(rt: &impl Abort, alloc: Global, kind: CellKind, start: usize) -> Result<(), Fail> {
    let keys = view(alloc, 2, true)?;
    let mut made = cell(rt, alloc, kind, 2, "1234567")?;
    for place in start..made.len() {
        for bit in 0..8u32 {
            assert!(rt; place < made.len());
            made[place] ^= 1 << bit;
            let (answer, plain) = opened(alloc, kind, &keys, &made)?;
            assert!(rt;
                answer != Opened::Plain && plain.is_empty(),
                "{place} {bit}"
            );
            assert!(rt; place < made.len());
            made[place] ^= 1 << bit;
        }
    }
    assert_eq!(rt; opened(alloc, kind, &keys, &made)?.0, Opened::Plain);
    Ok(())
}

#[test]
fn changed_bits(rt: HostRuntime) -> Result<(), Fail> {
    each_bit(&rt, rt.alloc(), CellKind::Sealed, 0)?;
    each_bit(&rt, rt.alloc(), CellKind::Searchable, 33)?;
    each_bit(&rt, rt.alloc(), MASKED, 10)
}
