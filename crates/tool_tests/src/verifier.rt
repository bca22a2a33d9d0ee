use crate::helping::{link, spoken, sure};
use crate::logs::{KEYSTORE, LOG, MASTER};
use audit_core::{AuditStatus, FolderFile, audit_top};
use std::alloc::Global;
use std::test::Fail;

fn keystore(alloc: Global) -> Result<Vec<u8>, Fail> {
    Ok(hex::decode(alloc, KEYSTORE).ok().ok_or("no digits")?)
}

/// How a run over these files ends, and what it prints.
fn run(
    alloc: Global,
    words: &[&str],
    master: &[u8],
    ring: &[u8],
    log: &[u8],
) -> Result<(AuditStatus, Vec<u8>), Fail> {
    let words = spoken(alloc, words)?;
    let mut output = sure(alloc, b"")?;
    let status = audit_top(
        alloc,
        &words,
        &mut link(alloc, master, &[])?,
        &mut link(alloc, ring, &[])?,
        &mut link(alloc, log, &[])?,
        &mut output,
    );
    Ok((status, Vec::from_slice(alloc, output.taken())?))
}

#[test]
fn logs(rt: HostRuntime) -> Result<(), Fail> {
    let alloc = rt.alloc();
    let ring = keystore(alloc)?;
    let broken = AuditStatus::Broken { line: 4 };
    let long = AuditStatus::LineTooLong { line: 1 };
    let cases: [(&[u8], AuditStatus, u8, &[u8]); 5] = [
        (LOG, AuditStatus::Done, 0, b"valid 4 closed\n"),
        (&LOG[..260], AuditStatus::Done, 0, b"valid 3 open\n"),
        (b"", AuditStatus::Done, 0, b"valid 0 open\n"),
        (&LOG[..336], broken, 3, b"broken 4\n"),
        (&[b'1'; 513], long, 3, b"long 1\n"),
    ];
    'cases: for (log, want, code, printed) in cases {
        let (status, output) = run(alloc, &["folder"], MASTER, &ring, log)?;
        assert_eq!(rt; status, want, "at {printed:?}");
        assert_eq!(rt; status.code(), code, "at {printed:?}");
        assert_eq!(rt; output.as_slice(), printed);
    }
    Ok(())
}

#[test]
fn files_that_are_refused(rt: HostRuntime) -> Result<(), Fail> {
    let alloc = rt.alloc();
    let ring = keystore(alloc)?;
    let mut changed = keystore(alloc)?;
    changed.pop();
    changed.push(0)?;
    let upper: &[u8] = b"404142434445464748494A4B4C4D4E4F505152535455565758595A5B5C5D5E5F";
    let other: &[u8] = b"414142434445464748494a4b4c4d4e4f505152535455565758595a5b5c5d5e5f";
    let twice: &[u8] = b"404142434445464748494a4b4c4d4e4f505152535455565758595a5b5c5d5e5f\n\n";
    let no_digit: &[u8] = b"g04142434445464748494a4b4c4d4e4f505152535455565758595a5b5c5d5e5f";
    let cases: [(&[u8], &[u8], AuditStatus, u8); 9] = [
        (upper, &ring, AuditStatus::Done, 0),
        (b"", &ring, AuditStatus::BadMaster, 2),
        (&upper[..63], &ring, AuditStatus::BadMaster, 2),
        (twice, &ring, AuditStatus::BadMaster, 2),
        (no_digit, &ring, AuditStatus::BadMaster, 2),
        (other, &ring, AuditStatus::RingRefused, 2),
        (MASTER, b"", AuditStatus::RingRefused, 2),
        (MASTER, &changed, AuditStatus::RingRefused, 2),
        (b"", b"", AuditStatus::BadMaster, 2),
    ];
    'cases: for (master, file, want, code) in cases {
        let (status, output) = run(alloc, &["folder"], master, file, b"")?;
        assert_eq!(rt; status, want, "at {master:?}");
        assert_eq!(rt; status.code(), code, "at {master:?}");
        assert_eq!(rt; output.is_empty(), code != 0);
    }
    let (status, _) = run(alloc, &[], MASTER, &ring, b"")?;
    assert_eq!(rt; status, AuditStatus::Usage);
    let (status, _) = run(alloc, &["folder", "more"], MASTER, &ring, b"")?;
    assert_eq!(rt; status, AuditStatus::Usage);
    assert_eq!(rt; status.code(), 1);
    Ok(())
}

#[test]
fn each_device_call_fails(rt: HostRuntime) -> Result<(), Fail> {
    let alloc = rt.alloc();
    let ring = keystore(alloc)?;
    let words = spoken(alloc, &["folder"])?;
    let none: &[u64] = &[];
    // Each file is read in two calls, of which the second finds the end.
    'calls: for call in 0..7usize {
        let first = [call as u64 % 2];
        let file = call / 2;
        let mut output = link(alloc, b"", if file == 3 { &[0] } else { none })?;
        let status = audit_top(
            alloc,
            &words,
            &mut link(alloc, MASTER, if file == 0 { &first } else { none })?,
            &mut link(alloc, &ring, if file == 1 { &first } else { none })?,
            &mut link(alloc, LOG, if file == 2 { &first } else { none })?,
            &mut output,
        );
        let want = match file {
            0 => AuditStatus::ReadFault {
                file: FolderFile::Master,
            },
            1 => AuditStatus::ReadFault {
                file: FolderFile::Keystore,
            },
            2 => AuditStatus::ReadFault {
                file: FolderFile::Audit,
            },
            _ => AuditStatus::WriteFault,
        };
        assert_eq!(rt; status, want, "at call {call}");
        assert!(rt; output.taken().is_empty());
    }
    Ok(())
}

#[test]
fn printed_statuses(rt: HostRuntime) -> Result<(), Fail> {
    let alloc = rt.alloc();
    let cases = [
        (AuditStatus::Usage, "Usage: acra_audit DIR"),
        (
            AuditStatus::Broken { line: 7 },
            "Broken: line 7 of audit doesn't recompute",
        ),
        (
            AuditStatus::ReadFault {
                file: FolderFile::Keystore,
            },
            "ReadFault: reading keystore failed",
        ),
    ];
    'cases: for (status, want) in cases {
        assert_eq!(rt; format!(in alloc; "{status}")?.as_str(), want);
    }
    Ok(())
}
