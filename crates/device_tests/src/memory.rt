//! Devices in memory: what they tell, and their listed calls, which fail.

use acra_devices::{
    Failed, Keeper, MemKeeper, MemLink, Random, SeedRandom, Sink, Source, SureKeeper, SureLink,
    SureRandom, WriteFault, write_whole,
};
use std::test::Fail;

// The key stream of ChaCha20 (20 rounds) for the key 1, 0, 0, .. and a nonce and counter of 0, as
// OpenSSL gives it.
const STREAM: [u8; 64] = [
    0xc5, 0xd3, 0x0a, 0x7c, 0xe1, 0xec, 0x11, 0x93, 0x78, 0xc8, 0x4f, 0x48, 0x7d, 0x77, 0x5a, 0x85,
    0x42, 0xf1, 0x3e, 0xce, 0x23, 0x8a, 0x94, 0x55, 0xe8, 0x22, 0x9e, 0x88, 0x8d, 0xe8, 0x5b, 0xbd,
    0x29, 0xeb, 0x63, 0xd0, 0xa1, 0x7a, 0x5b, 0x99, 0x9b, 0x52, 0xda, 0x22, 0xbe, 0x40, 0x23, 0xeb,
    0x07, 0x62, 0x0a, 0x54, 0xf6, 0xfa, 0x6a, 0xd8, 0x73, 0x7b, 0x71, 0xeb, 0x04, 0x64, 0xda, 0xc0,
];

#[test]
fn seeded_bytes(rt: HostRuntime) {
    let mut bytes = [0; 64];
    assert_eq!(rt; SureRandom::new(1).draw(&mut bytes), Ok(()));
    assert_eq!(rt; bytes.as_slice(), STREAM.as_slice());

    // A draw drops what it leaves of its last word of four bytes.
    let mut random = SureRandom::new(1);
    let mut five = [0; 5];
    let mut eight = [0; 8];
    random.fill(&mut five);
    random.fill(&mut eight);
    assert_eq!(rt; five.as_slice(), &STREAM[..5]);
    assert_eq!(rt; eight.as_slice(), &STREAM[8..16]);
}

#[test]
fn listed_calls_fail(rt: HostRuntime) -> Result<(), Fail> {
    let alloc = rt.alloc();
    let cases: [(u64, _, _, _, &[u8]); 4] = [
        (0, Err(Failed), Ok(2), Ok(2), b"xyz"),
        (1, Ok(2), Err(Failed), Ok(2), b"xyz"),
        (2, Ok(2), Ok(1), Err(Failed), b"z"),
        (3, Ok(2), Ok(1), Ok(2), b"xy"),
    ];
    for (failing, first, second, third, taken) in cases {
        let input = Vec::from_slice(alloc, b"abc")?;
        let mut link = MemLink::new(alloc, input, vec![in alloc; failing]?);
        let mut buf = [0; 2];
        assert_eq!(rt; link.read(&mut buf), first, "read 0, where {failing} fails");
        assert_eq!(rt;
            link.read(&mut buf),
            second,
            "read 1, where {failing} fails"
        );
        assert_eq!(rt; link.write(b"xy"), third, "write 0, where {failing} fails");
        let last = write_whole(&mut link, b"z").err();
        let fault = (failing == 3).then_some(WriteFault { done: 0 });
        assert_eq!(rt; last, fault, "write 1, where {failing} fails");
        assert!(rt; link.whole());
        assert_eq!(rt; link.taken(), taken, "where {failing} fails");
    }
    Ok(())
}

#[test]
fn sure_link(rt: HostRuntime) -> Result<(), Fail> {
    let alloc = rt.alloc();
    let mut link = SureLink::new(alloc, Vec::from_slice(alloc, b"abc")?);
    let mut buf = [0; 2];
    for (count, bytes) in [(2, b"ab"), (1, b"cb"), (0, b"cb")] {
        assert_eq!(rt; link.read(&mut buf), Ok(count));
        assert_eq!(rt; &buf, bytes);
    }
    assert_eq!(rt; write_whole(&mut link, b"xyz"), Ok(()));
    assert!(rt; link.whole());
    assert_eq!(rt; link.taken(), b"xyz".as_slice());
    Ok(())
}

#[test]
fn listed_keeper_calls_fail(rt: HostRuntime) -> Result<(), Fail> {
    let alloc = rt.alloc();
    let cases: [(u64, &[&[u8]]); 5] = [
        (0, &[b"c", b"d"]),
        (1, &[b"c", b"d"]),
        (2, &[b"a", b"b", b"d"]),
        (3, &[b"c"]),
        (4, &[b"c", b"d"]),
    ];
    for (failing, pieces) in cases {
        let mut keeper = MemKeeper::new(alloc, vec![in alloc; failing]?);
        let answers = [
            keeper.append(b"a"),
            keeper.append(b"b"),
            keeper.replace(b"c"),
            keeper.append(b"d"),
        ];
        for (call, answer) in answers.iter().enumerate() {
            let fails = call as u64 == failing;
            assert_eq!(rt;
                answer.is_err(),
                fails,
                "call {call}, where {failing} fails"
            );
        }
        assert!(rt; keeper.whole());
        assert_eq!(rt; keeper.kept().len(), pieces.len(), "where {failing} fails");
        for (kept, piece) in keeper.kept().iter().zip(pieces) {
            assert_eq!(rt; kept.as_slice(), *piece, "where {failing} fails");
        }
    }
    Ok(())
}

#[test]
fn sure_keeper(rt: HostRuntime) {
    let mut keeper = SureKeeper::new(rt.alloc());
    for piece in [b"ab", b"cd"] {
        assert_eq!(rt; keeper.append(piece), Ok(()));
    }
    assert_eq!(rt; keeper.kept().len(), 2);
    assert_eq!(rt; keeper.replace(b"efg"), Ok(()));
    assert!(rt; keeper.whole());
    assert_eq!(rt; keeper.kept().len(), 1);
    assert_eq!(rt; keeper.kept()[0].as_slice(), b"efg".as_slice());
}

#[test]
fn listed_draws_fail(rt: HostRuntime) -> Result<(), Fail> {
    let alloc = rt.alloc();
    let mut random = SeedRandom::new(1, vec![in alloc; 0, 2]?);
    for (answer, place) in [(Err(Failed), 0), (Ok(()), 0), (Err(Failed), 0), (Ok(()), 8)] {
        let mut bytes = [0; 8];
        assert_eq!(rt; random.draw(&mut bytes), answer);
        if answer.is_ok() {
            assert_eq!(rt; bytes.as_slice(), &STREAM[place..place + 8]);
        }
    }
    Ok(())
}
