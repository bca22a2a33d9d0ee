ghost use Rattle.std.specs.Prelude.{◌≡◌, ◌≤◌, ◌^◌, ◌⊎◌, true};
ghost use Rattle.acra_devices.specs.Causes.{Rose};
ghost use Rattle.acra_devices.specs.Known.{IsAtEnd};
ghost use Rattle.audit_chain.specs.Verdicts.{WhereRead, Took};
ghost use Rattle.audit_core.specs.Reports.{Printed, IsReport, is_silent, Reported, IsDueReport};

use crate::status::{AuditStatus, FolderFile};
use crate::text::{closing_word, number_line};
use acra_devices::{Sink, Source, write_whole};
use audit_chain::{AuditVerdict, VerifyFault, verify};
use std::alloc::Global;

/// Prints a line, and ends so.
fn print<K: Sink>(
    alloc: Global,
    output: &mut K,
    word: &[u8],
    number: u64,
    end: &[u8],
    status: AuditStatus,
) -> AuditStatus
    ensures printed { Printed (K.held output.old) (K.held output.new) word.now number end.now status result }
    ensures silent { is_silent result ≡ true → (is_silent status ≡ true) ⊎ (output.new ≡ output.old) }
    ensures later { K.write_faults output.old ≤ K.write_faults output.new }
    ensures stayed { (result ≡ AuditStatus.WriteFault → ⊥) → K.write_faults output.new ≡ K.write_faults output.old }
    ensures fault { result ≡ AuditStatus.WriteFault → (status ≡ AuditStatus.WriteFault) ⊎ Rose (K.write_faults output.old) (K.write_faults output.new) }
{
    match number_line(alloc, word, number, end) {
        Err(_) => AuditStatus::NoMemory,
        Ok(line) => match write_whole(output, line.as_slice()) {
            Ok(()) => status,
            Err(_) => AuditStatus::WriteFault,
        },
    }
}

/// Verifies a log under its key, and prints what it is.
pub fn report<S: Source, K: Sink>(
    alloc: Global,
    log: &mut S,
    key: &[u8; 32],
    output: &mut K,
) -> AuditStatus
    ensures reported { WhereRead (S.left log.old) (S.left log.new) (Reported key.now (K.held output.old) (K.held output.new) result) }
    ensures exact { WhereRead (S.left log.old) (S.left log.new) (IsDueReport key.now result) }
    ensures shape { IsReport result }
    ensures silent { is_silent result ≡ true → output.new ≡ output.old }
    ensures took { Took (S.left log.old) (S.left log.new) (2 ^ 48) }
    ensures whole { result ≡ AuditStatus.Done → IsAtEnd (S.left log.new) }
    ensures read_later { S.read_faults log.old ≤ S.read_faults log.new }
    ensures write_later { K.write_faults output.old ≤ K.write_faults output.new }
    ensures read_stayed { (result ≡ AuditStatus.ReadFault FolderFile.Audit → ⊥) → S.read_faults log.new ≡ S.read_faults log.old }
    ensures write_stayed { (result ≡ AuditStatus.WriteFault → ⊥) → K.write_faults output.new ≡ K.write_faults output.old }
    ensures read_fault { result ≡ AuditStatus.ReadFault FolderFile.Audit → Rose (S.read_faults log.old) (S.read_faults log.new) }
    ensures write_fault { result ≡ AuditStatus.WriteFault → Rose (K.write_faults output.old) (K.write_faults output.new) }
{
    match verify(alloc, log, key) {
        Ok(AuditVerdict::Valid { lines, closed }) => print(
            alloc,
            output,
            b"valid ",
            lines,
            closing_word(closed),
            AuditStatus::Done,
        ),
        Ok(AuditVerdict::Broken { line }) => print(
            alloc,
            output,
            b"broken ",
            line,
            b"\n",
            AuditStatus::Broken { line },
        ),
        Err(VerifyFault::LineTooLong { line }) => print(
            alloc,
            output,
            b"long ",
            line,
            b"\n",
            AuditStatus::LineTooLong { line },
        ),
        Err(VerifyFault::Spent) => AuditStatus::Spent,
        Err(VerifyFault::ReadFault) => AuditStatus::ReadFault {
            file: FolderFile::Audit,
        },
        Err(VerifyFault::NoMemory) => AuditStatus::NoMemory,
    }
}
