use crate::helping::{link, spoken, sure};
use acra_devices::{MemKeeper, SeedRandom, SureKeeper, SureRandom};
use keys_core::{KeyFile, KeysStatus, Refusal, keys_top};
use std::alloc::Global;
use std::test::Fail;

const MASTER: &[u8] = b"000102030405060708090a0b0c0d0e0f101112131415161718191A1B1C1D1E1F\n";

/// A run on a ring's file, and the file after it.
fn run(
    alloc: Global,
    texts: &[&str],
    master: &[u8],
    ring: &mut Vec<u8>,
    random: &mut SureRandom,
    printed: &mut Vec<u8>,
) -> Result<KeysStatus, Fail> {
    let mut master = sure(alloc, master)?;
    let mut file = sure(alloc, ring)?;
    let mut keeper = SureKeeper::new(alloc);
    let mut output = sure(alloc, b"")?;
    let words = spoken(alloc, texts)?;
    let status = keys_top(
        alloc,
        &words,
        &mut master,
        &mut file,
        &mut keeper,
        random,
        &mut output,
    );
    printed.clear();
    printed.extend_from_slice(output.taken())?;
    if let Some(kept) = keeper.kept().last() {
        ring.clear();
        ring.extend_from_slice(kept.as_slice())?;
    }
    Ok(status)
}

const EXISTS: KeysStatus = KeysStatus::Refused {
    why: Refusal::Exists,
};

const NO_KEY: KeysStatus = KeysStatus::Refused {
    why: Refusal::NoSuchKey,
};

const NOT_SWEPT: KeysStatus = KeysStatus::Refused {
    why: Refusal::NotSwept,
};

/// Words, one after the other on one ring, with the status, its code and what is printed.
const RUNS: [(&[&str], KeysStatus, u8, &[u8]); 8] = [
    (&["dir", "generate", "app"], KeysStatus::Done, 0, b"app 1\n"),
    (&["dir", "generate", "app"], EXISTS, 3, b"refused exists\n"),
    (&["dir", "list"], KeysStatus::Done, 0, b"app 1 current\n"),
    (
        &["dir", "destroy", "app", "1"],
        NOT_SWEPT,
        3,
        b"refused not-swept\n",
    ),
    (
        &["dir", "destroy", "app", "7"],
        NO_KEY,
        3,
        b"refused no-such-key\n",
    ),
    (
        &["dir", "check"],
        KeysStatus::Done,
        0,
        b"clients 1 keys 1\n",
    ),
    (&["dir", "destroy", "app", "01x"], KeysStatus::Usage, 1, b""),
    (&["dir"], KeysStatus::Usage, 1, b""),
];

#[test]
fn the_key_tool(rt: HostRuntime) -> Result<(), Fail> {
    let alloc = rt.alloc();
    let mut ring = Vec::new(alloc);
    let mut random = SureRandom::new(1);
    let mut printed = Vec::new(alloc);
    'runs: for (texts, status, code, text) in RUNS {
        let found = run(alloc, texts, MASTER, &mut ring, &mut random, &mut printed)?;
        assert_eq!(rt; found, status, "{texts:?}");
        assert_eq!(rt; found.code(), code, "{texts:?}");
        assert_eq!(rt; printed.as_slice(), text, "{texts:?}");
    }
    Ok(())
}

/// The ring's file of a client whose two keys are both current, as Python's cryptography 48.0 seals it under
/// the master key.
const TWO_CURRENT: &str =
    "414b5231404142434445464748494a4be3b8af22273d8602ccc516379a65125a78c7535db6340e2276464fe4\
    9612ecda9a0af1aedcbbdd5623f6096d930fddd8c973a83331c5e00b8318d60625e82ac2e710d6a907dd28a9\
    54c26086957bff6b4d7b51c82869178c74d5263c18032756b4f37aea880067c0491296dac7bbf6088cbb59ea\
    af9b7679d3bab1e06cac46c7b3076ac102357d83f77fdcacb85b69ceb1c8b39042f3fcb72f5280f89da07f48\
    f8cdfd1f7bb603062c30afd19327f7d7cf128521c10543869cdf36e2c0fca61448f63e996a21c3a913de1631\
    463e6b5733a54a4d1128443e33f5c0c58294ca1908d216182cca2990181359c8dc14da509b7c";

/// How `check` ends on a ring's file, and what it says then.
fn checked(alloc: Global, master: &[u8], file: &[u8]) -> Result<(KeysStatus, String), Fail> {
    let mut ring = Vec::from_slice(alloc, file)?;
    let mut random = SureRandom::new(1);
    let mut printed = Vec::new(alloc);
    let status = run(
        alloc,
        &["dir", "check"],
        master,
        &mut ring,
        &mut random,
        &mut printed,
    )?;
    Ok((status, format!(in alloc; "{status}")?))
}

#[test]
fn files_that_are_refused(rt: HostRuntime) -> Result<(), Fail> {
    let alloc = rt.alloc();
    let two = hex::decode(alloc, TWO_CURRENT).ok().ok_or("no digits")?;
    let mut changed = Vec::from_slice(alloc, &two)?;
    if let Some(byte) = changed.last_mut() {
        *byte ^= 1;
    }
    let other = b"0000000000000000000000000000000000000000000000000000000000000000";
    // The phase of the first key stands at byte 152, where no key is current that another follows.
    let no_ring = "RingRefused: keystore: its content is no ring, at byte 152";
    let not_sealed = "RingRefused: keystore: it does not open with this master key";
    let bad_master = "BadMaster: master: it is not 64 hexadecimal digits";
    let cases: [(&[u8], &[u8], &str); 5] = [
        (MASTER, &two, no_ring),
        (MASTER, &changed, not_sealed),
        (other, &two, not_sealed),
        (MASTER, b"", not_sealed),
        (&MASTER[..63], &two, bad_master),
    ];
    'cases: for (master, file, text) in cases {
        let (status, said) = checked(alloc, master, file)?;
        assert_eq!(rt; status.code(), 2, "{text}");
        assert_eq!(rt; said.as_str(), text);
    }
    Ok(())
}

const NONE: &[u64] = &[];

/// `generate app` on no file, where these calls of the master file, of the ring's file, of the keeper, of the
/// random bytes and of the output fail. Whether a file is kept stands beside the status.
fn failing(alloc: Global, fails: [&[u64]; 5]) -> Result<(KeysStatus, bool), Fail> {
    let [master, ring, keeper, random, output] = fails;
    let mut keeper = MemKeeper::new(alloc, Vec::from_slice(alloc, keeper)?);
    let mut random = SeedRandom::new(1, Vec::from_slice(alloc, random)?);
    let words = spoken(alloc, &["dir", "generate", "app"])?;
    let status = keys_top(
        alloc,
        &words,
        &mut link(alloc, MASTER, master)?,
        &mut link(alloc, b"", ring)?,
        &mut keeper,
        &mut random,
        &mut link(alloc, b"", output)?,
    );
    Ok((status, !keeper.kept().is_empty()))
}

const MASTER_FAULT: KeysStatus = KeysStatus::ReadFault {
    file: KeyFile::Master,
};

const RING_FAULT: KeysStatus = KeysStatus::ReadFault {
    file: KeyFile::Ring,
};

const FAULTS: [([&[u64]; 5], KeysStatus, bool); 9] = [
    ([NONE, NONE, NONE, NONE, NONE], KeysStatus::Done, true),
    ([&[0], NONE, NONE, NONE, NONE], MASTER_FAULT, false),
    ([&[1], NONE, NONE, NONE, NONE], MASTER_FAULT, false),
    ([NONE, &[0], NONE, NONE, NONE], RING_FAULT, false),
    (
        [NONE, NONE, &[0], NONE, NONE],
        KeysStatus::KeeperFault,
        false,
    ),
    (
        [NONE, NONE, NONE, &[0], NONE],
        KeysStatus::RandomFault,
        false,
    ),
    (
        [NONE, NONE, NONE, &[1], NONE],
        KeysStatus::RandomFault,
        false,
    ),
    (
        [NONE, NONE, NONE, &[2], NONE],
        KeysStatus::RandomFault,
        false,
    ),
    ([NONE, NONE, NONE, NONE, &[0]], KeysStatus::WriteFault, true),
];

#[test]
fn each_call_fails(rt: HostRuntime) -> Result<(), Fail> {
    'faults: for (fails, status, kept) in FAULTS {
        let found = failing(rt.alloc(), fails)?;
        assert_eq!(rt; found, (status, kept), "{fails:?}");
    }
    Ok(())
}
