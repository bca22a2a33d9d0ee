ghost use Rattle.std.specs.Prelude.{◌≡◌, ◌≤◌, IsErrOf};
ghost use Rattle.acra_devices.specs.Causes.{Rose};
ghost use Rattle.lab_session.specs.Relaying.{Sends};

use crate::stop::Stop;
use acra_devices::{Sink, write_whole};

/// Sends the client all of these bytes.
pub fn send<K: Sink>(output: &mut K, bytes: &[u8]) -> Result<(), Stop>
    ensures sent { Sends (K.held output.old) (K.held output.new) result bytes.now }
    ensures later { K.write_faults output.old ≤ K.write_faults output.new }
    ensures fault { IsErrOf result Stop.WriteFault → Rose (K.write_faults output.old) (K.write_faults output.new) }
    ensures no_read { IsErrOf result Stop.ReadFault → ⊥ }
{
    match write_whole(output, bytes) {
        Ok(()) => Ok(()),
        Err(_) => Err(Stop::WriteFault),
    }
}
