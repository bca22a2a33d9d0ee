use crate::{BadBody, BadRow, RowDraft, RowView, check_back, check_front};
use std::test::Fail;

/// A body of three cells: `1`, NULL, and the empty text.
const BODY: &[u8] = b"\0\x03\0\0\0\x011\xff\xff\xff\xff\0\0\0\0";

#[test]
fn cells_where_they_lie(rt: HostRuntime) -> Result<(), Fail> {
    let row = RowView::of(BODY)?;
    assert_eq!(rt; row.len(), 3);
    assert_eq!(rt; row.cell(0), Some(Some(b"1".as_slice())));
    assert_eq!(rt; row.cell(1), Some(None));
    assert_eq!(rt; row.cell(2), Some(Some(b"".as_slice())));
    assert_eq!(rt; row.cell(3), None);
    let (first, behind) = row.split_first().ok_or("no cell")?;
    assert_eq!(rt; first, Some(b"1".as_slice()));
    assert_eq!(rt; behind.len(), 2);
    assert!(rt; RowView::of(b"\0\0")?.is_empty());
    Ok(())
}

#[test]
fn cells_written_in_place(rt: HostRuntime) -> Result<(), Fail> {
    let mut out = vec![in rt.alloc(); b'?']?;
    let mut draft = RowDraft::begin(&mut out)?;
    draft.push(Some(b"1".as_slice()), &mut out)?;
    draft.push(None, &mut out)?;
    draft.push(Some(b"".as_slice()), &mut out)?;
    assert!(rt; out.len() < 1 << 30);
    draft.finish(&mut out);
    assert_eq!(rt;
        out.as_slice(),
        b"?D\0\0\0\x13\0\x03\0\0\0\x011\xff\xff\xff\xff\0\0\0\0".as_slice()
    );
    Ok(())
}

/// Bodies that are no DataRow's, and where they can't be read.
const BAD: [(&[u8], usize); 6] = [
    (b"", 0),
    (b"\0", 0),
    (b"\0\x01", 2),
    (b"\0\x01\xff\xff\xff\xfe", 2),
    (b"\0\x02\0\0\0\x011\0\0\0\x02a", 11),
    (b"\0\x01\0\0\0\x011x", 7),
];

#[test]
fn places_of_faults(rt: HostRuntime) {
    for (body, offset) in BAD {
        match RowView::of(body) {
            Ok(_) => panic!(rt; "a bad body was read"),
            Err(bad) => assert_eq!(rt; bad, BadRow { offset }),
        }
    }
}

/// Bodies of a server's messages, with their kinds, and where they can't be read; `None` where they can.
const BACK: [(u8, &[u8], Option<usize>); 12] = [
    (b'R', b"\0\0\0\x05salt", None),
    (b'S', b"a\0b\0", None),
    (b'S', b"a\0b", Some(2)),
    (b'Z', b"T", None),
    (b'Z', b"X", Some(0)),
    (b'Z', b"II", Some(1)),
    (b'E', b"SERROR\0Mno\0\0", None),
    (b'E', b"SERROR\0", Some(7)),
    (b'N', b"S", Some(1)),
    (b't', b"\0\x01\0\0\0\x17", None),
    (b't', b"\0\x02\0\0\0\x17\0\0\0", Some(6)),
    (b'x', b"", Some(0)),
];

#[test]
fn bodies_of_a_server(rt: HostRuntime) {
    for (kind, body, place) in BACK {
        assert_eq!(rt; check_back(kind, body).err().map(|bad| bad.offset), place);
    }
}

/// A body of a RowDescription with one column, whose format is the last byte's.
const COLUMN: &[u8] = b"\0\x01id\0\0\0\0\0\0\0\0\0\0\x14\0\x08\xff\xff\xff\xff\0\x01";

#[test]
fn columns_of_a_server(rt: HostRuntime) {
    assert_eq!(rt; check_back(b'T', COLUMN).is_ok(), true);
    assert_eq!(rt;
        check_back(b'T', &COLUMN[..22]).err(),
        Some(BadBody { offset: 21 })
    );
    assert_eq!(rt;
        check_back(b'D', b"\0\x01\xff\xff\xff\xfe").err(),
        Some(BadBody { offset: 2 })
    );
}

/// Bodies of a client's messages, as those of a server above.
const FRONT: [(u8, &[u8], Option<usize>); 14] = [
    (0, b"\0\x03\0\0user\0app\0\0", None),
    (0, b"\0\x03\0\0user\0app\0", Some(13)),
    (0, b"\x04\xd2\x16\x2f", None),
    (0, b"\x04\xd2\x16\x2e\0\0\0\x01\0\0\0\x02", None),
    (0, b"\0\x02\0\0", Some(0)),
    (b'Q', b"SELECT 1\0", None),
    (b'Q', b"SELECT 1", Some(0)),
    (b'P', b"s\0SELECT $1\0\0\x01\0\0\0\x14", None),
    (b'B', b"\0s\0\0\x01\0\x01\0\x01\0\0\0\x01x\0\0", None),
    (b'B', b"\0s\0\0\x01\0\x02\0\0\0\0", Some(5)),
    (b'D', b"Ss\0", None),
    (b'D', b"Xs\0", Some(0)),
    (b'E', b"\0\0\0\0\0", None),
    (b'H', b"x", Some(0)),
];

#[test]
fn bodies_of_a_client(rt: HostRuntime) {
    for (kind, body, place) in FRONT {
        assert_eq!(rt; check_front(kind, body).err().map(|bad| bad.offset), place);
    }
}
