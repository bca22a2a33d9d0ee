ghost use Rattle.std.specs.Prelude.{◌≡◌, ◌≤◌, ◌^◌, OnOk, IsErrOf};
ghost use Rattle.acra_devices.specs.Causes.{Rose};
ghost use Rattle.acra_devices.specs.Known.{IsAtEnd};
ghost use Rattle.audit_chain.specs.Verdicts.{WhereRead, Took};
ghost use Rattle.audit_chain.specs.Resuming.{Resumed, IsDueTo};

use crate::chain::Chain;
use crate::reading::read_log;
use crate::refusals::ResumeFault;
use crate::stop::Stop;
use acra_devices::Source;
use std::alloc::Global;

impl Chain {
    /// The chain behind the lines of a log whose first key this is, so that appending goes on as if it had
    /// never ended.
    pub fn resume<S: Source>(
        alloc: Global,
        source: &mut S,
        key: &[u8; 32],
    ) -> Result<Chain, ResumeFault>
        ensures found { WhereRead (S.left source.old) (S.left source.new) (Resumed key.now result) }
        ensures exact { WhereRead (S.left source.old) (S.left source.new) (IsDueTo key.now result) }
        ensures took { Took (S.left source.old) (S.left source.new) (2 ^ 48) }
        ensures whole { OnOk result (IsAtEnd (S.left source.new)) }
        ensures later { S.read_faults source.old ≤ S.read_faults source.new }
        ensures stayed { (IsErrOf result ResumeFault.ReadFault → ⊥) → S.read_faults source.new ≡ S.read_faults source.old }
        ensures read_fault { IsErrOf result ResumeFault.ReadFault → Rose (S.read_faults source.old) (S.read_faults source.new) }
    {
        match read_log(alloc, source, key) {
            Ok(chain) => {
                if chain.is_ended() {
                    return Err(ResumeFault::IsClosed);
                }
                Ok(chain)
            }
            Err(Stop::Broken { line }) => Err(ResumeFault::Broken { line }),
            Err(Stop::LineTooLong { line }) => Err(ResumeFault::LineTooLong { line }),
            Err(Stop::Spent) => Err(ResumeFault::Spent),
            Err(Stop::ReadFault) => Err(ResumeFault::ReadFault),
            Err(Stop::NoMemory) => Err(ResumeFault::NoMemory),
        }
    }
}
