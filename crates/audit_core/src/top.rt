ghost use Rattle.std.specs.Prelude.{◌≡◌, ◌≤◌, ◌^◌, ◌↔◌, length};
ghost use Rattle.acra_devices.specs.Causes.{Rose};
ghost use Rattle.acra_devices.specs.Known.{IsAtEnd};
ghost use Rattle.audit_chain.specs.Verdicts.{WhereRead, Took};
ghost use Rattle.audit_core.specs.Outcomes.{HasMaster, HasKey, Outcome, IsDueEnd};
ghost use Rattle.audit_core.specs.Untouched.{Untouched, OnlyWhere};

use crate::files::{FileFault, audit_key, master_key};
use crate::report::report;
use crate::status::{AuditStatus, FolderFile};
use acra_devices::{Sink, Source};
use std::alloc::Global;

/// All that the verifier does under its words: reads the master key, the ring sealed under it and the log,
/// and prints what the log is. The word is the folder, which the files come from.
pub fn audit_top<S: Source, T: Source, U: Source, K: Sink>(
    alloc: Global,
    words: &[String],
    master: &mut S,
    ring: &mut T,
    log: &mut U,
    output: &mut K,
) -> AuditStatus
    ensures usage { (result ≡ AuditStatus.Usage) ↔ (length words.now ≡ 1 → ⊥) }
    ensures outcome { WhereRead (S.left master.old) (S.left master.new) (λ m. WhereRead (T.left ring.old) (T.left ring.new) (λ r.
        WhereRead (U.left log.old) (U.left log.new) (λ l. Outcome m r l (K.held output.old) (K.held output.new) result))) }
    ensures exact { length words.now ≡ 1 → WhereRead (S.left master.old) (S.left master.new) (λ m. WhereRead (T.left ring.old) (T.left ring.new) (λ r.
        WhereRead (U.left log.old) (U.left log.new) (λ l. IsDueEnd m r l result))) }
    ensures untouched { Untouched result master.old master.new ring.old ring.new log.old log.new output.old output.new }
    ensures keystore_after { OnlyWhere ring.old ring.new (WhereRead (S.left master.old) (S.left master.new) HasMaster) }
    ensures log_after { OnlyWhere log.old log.new (WhereRead (S.left master.old) (S.left master.new) (λ m. WhereRead (T.left ring.old) (T.left ring.new) (λ r. HasKey m r))) }
    ensures took { Took (U.left log.old) (U.left log.new) (2 ^ 48) }
    ensures whole { result ≡ AuditStatus.Done → IsAtEnd (U.left log.new) }
    ensures later { (S.read_faults master.old ≤ S.read_faults master.new) × (T.read_faults ring.old ≤ T.read_faults ring.new)
        × (U.read_faults log.old ≤ U.read_faults log.new) × (K.write_faults output.old ≤ K.write_faults output.new) }
    ensures master_stayed { (result ≡ AuditStatus.ReadFault FolderFile.Master → ⊥) → S.read_faults master.new ≡ S.read_faults master.old }
    ensures keystore_stayed { (result ≡ AuditStatus.ReadFault FolderFile.Keystore → ⊥) → T.read_faults ring.new ≡ T.read_faults ring.old }
    ensures log_stayed { (result ≡ AuditStatus.ReadFault FolderFile.Audit → ⊥) → U.read_faults log.new ≡ U.read_faults log.old }
    ensures output_stayed { (result ≡ AuditStatus.WriteFault → ⊥) → K.write_faults output.new ≡ K.write_faults output.old }
    ensures master_fault { result ≡ AuditStatus.ReadFault FolderFile.Master → Rose (S.read_faults master.old) (S.read_faults master.new) }
    ensures keystore_fault { result ≡ AuditStatus.ReadFault FolderFile.Keystore → Rose (T.read_faults ring.old) (T.read_faults ring.new) }
    ensures log_fault { result ≡ AuditStatus.ReadFault FolderFile.Audit → Rose (U.read_faults log.old) (U.read_faults log.new) }
    ensures write_fault { result ≡ AuditStatus.WriteFault → Rose (K.write_faults output.old) (K.write_faults output.new) }
{
    if words.len() != 1 {
        return AuditStatus::Usage;
    }
    let master = match master_key(alloc, master) {
        Ok(key) => key,
        Err(FileFault::Refused) => return AuditStatus::BadMaster,
        Err(FileFault::ReadFault) => {
            return AuditStatus::ReadFault {
                file: FolderFile::Master,
            };
        }
        Err(FileFault::NoMemory) => return AuditStatus::NoMemory,
    };
    let key = match audit_key(alloc, ring, &master) {
        Ok(key) => key,
        Err(FileFault::Refused) => return AuditStatus::RingRefused,
        Err(FileFault::ReadFault) => {
            return AuditStatus::ReadFault {
                file: FolderFile::Keystore,
            };
        }
        Err(FileFault::NoMemory) => return AuditStatus::NoMemory,
    };
    report(alloc, log, &key, output)
}
