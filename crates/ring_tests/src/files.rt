use acra_devices::{MemLink, SureLink};
use ring_file::{FileRefusal, MasterFault, read_file, read_master};
use std::alloc::Global;
use std::test::Fail;

/// What a source with so many bytes gives under a limit: how many were read.
fn whole_of(alloc: Global, len: usize, limit: usize) -> Result<Result<usize, FileRefusal>, Fail> {
    let mut bytes = Vec::new(alloc);
    'bytes: for place in 0..len {
        bytes.push((place % 251) as u8)?;
    }
    let mut source = SureLink::new(alloc, bytes);
    Ok(read_file(alloc, &mut source, limit).map(|read| read.len()))
}

#[test]
fn limits(rt: HostRuntime) -> Result<(), Fail> {
    let alloc = rt.alloc();
    let long = Err(FileRefusal::TooLong);
    let cases = [
        (0, 0, Ok(0)),
        (1, 0, long),
        (65, 65, Ok(65)),
        (66, 65, long),
        (4096, 4096, Ok(4096)),
        (4097, 4096, long),
        (9000, 10_000, Ok(9000)),
    ];
    'cases: for (len, limit, want) in cases {
        assert_eq!(rt;
            whole_of(alloc, len, limit)?,
            want,
            "{len} bytes, at most {limit}"
        );
    }
    Ok(())
}

const KEY: [u8; 32] = [
    0, 1, 2, 3, 4, 5, 6, 7, 8, 9, 10, 11, 12, 13, 14, 15, 16, 17, 18, 19, 20, 21, 22, 23, 24, 25,
    26, 27, 28, 29, 0xfe, 0xff,
];

const TEXT: &[u8] = b"000102030405060708090A0b0c0d0e0f101112131415161718191a1b1c1dFEff\n";

#[test]
fn master_keys(rt: HostRuntime) -> Result<(), Fail> {
    let alloc = rt.alloc();
    let other = b"g00102030405060708090A0b0c0d0e0f101112131415161718191a1b1c1dFEff";
    let twice = b"000102030405060708090A0b0c0d0e0f101112131415161718191a1b1c1dFEff\n\n";
    let none = Err(MasterFault::NoKey);
    let cases: [(&[u8], Result<[u8; 32], MasterFault>); 8] = [
        (TEXT, Ok(KEY)),
        (&TEXT[..64], Ok(KEY)),
        (&TEXT[..63], none),
        (&TEXT[1..], none),
        (twice, none),
        (other, none),
        (b"\n", none),
        (b"", none),
    ];
    'cases: for (text, want) in cases {
        let mut file = SureLink::new(alloc, Vec::from_slice(alloc, text)?);
        assert_eq!(rt; read_master(alloc, &mut file), want, "at {text:?}");
    }
    Ok(())
}

#[test]
fn each_read_fails(rt: HostRuntime) -> Result<(), Fail> {
    let alloc = rt.alloc();
    // The second read finds the end.
    'calls: for call in 0..2u64 {
        let text = Vec::from_slice(alloc, TEXT)?;
        let mut file = MemLink::new(alloc, text, vec![in alloc; call]?);
        assert_eq!(rt;
            read_master(alloc, &mut file),
            Err(MasterFault::ReadFault),
            "at {call}"
        );
    }
    Ok(())
}
