use byte_reader::{
    Unread, array_of, be_u16_of, be_u32_of, be_u64_of, byte_of, bytes_of, le_u16_of, le_u32_of,
    le_u64_of, slice_of, text_of,
};
use std::test::*;

const BYTES: &[u8] = b"\x01\x02\x03\x04\x05\x06\x07\x08z";

#[test]
fn numbers(rt: HostRuntime) {
    assert!(rt; matches!(byte_of(BYTES), Ok((1, _))));
    assert!(rt; matches!(be_u16_of(BYTES), Ok((0x0102, _))));
    assert!(rt; matches!(be_u32_of(BYTES), Ok((0x0102_0304, _))));
    assert!(rt; matches!(be_u64_of(BYTES), Ok((0x0102_0304_0506_0708, [b'z']))));
    assert!(rt; matches!(le_u16_of(BYTES), Ok((0x0201, _))));
    assert!(rt; matches!(le_u32_of(BYTES), Ok((0x0403_0201, _))));
    assert!(rt; matches!(le_u64_of(BYTES), Ok((0x0807_0605_0403_0201, [b'z']))));
}

#[test]
fn slices(rt: HostRuntime) {
    let (taken, rest) = slice_of(8, BYTES).ok().expect(&rt, "eight bytes");
    assert!(rt; taken.len() == 8 && rest == b"z".as_slice());
    let (pair, rest) = array_of::<2>(BYTES).ok().expect(&rt, "two bytes");
    assert!(rt; pair == [1, 2] && rest.len() == 7);
    assert!(rt; array_of::<10>(BYTES).is_err());
}

#[test]
fn texts(rt: HostRuntime) {
    let alloc = rt.alloc();
    let (taken, _) = bytes_of(alloc, 2, BYTES).ok().expect(&rt, "two bytes");
    assert!(rt; taken.as_slice() == b"\x01\x02".as_slice());
    let (text, rest) = text_of(alloc, b"ab\0c").ok().expect(&rt, "a text");
    assert!(rt; text.as_slice() == b"ab".as_slice() && rest == b"c".as_slice());
    assert!(rt; matches!(text_of(alloc, b"ab"), Err(Unread::At { left: 2 })));
}
