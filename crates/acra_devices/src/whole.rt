ghost use Rattle.std.specs.Prelude.{◌≡◌, ◌≤◌, ◌<◌, ◌-◌, length, take, drop, OnOk, IfErr, MatchResult};
ghost use Rattle.acra_devices.specs.Known.{Grew};
ghost use Rattle.acra_devices.specs.Causes.{HasCause, Rose};

use crate::device::Sink;

/// A write failed after this many bytes.
#[derive(Clone, Copy, Debug, PartialEq, Eq)]
pub struct WriteFault {
    pub done: usize,
}

/// Writes all of the bytes.
pub fn write_whole<K: Sink>(sink: &mut K, bytes: &[u8]) -> Result<(), WriteFault>
    ensures written { MatchResult result (λ _. Grew (K.held sink.old) (K.held sink.new) bytes.now)
        (λ fault. Grew (K.held sink.old) (K.held sink.new) (take fault.done bytes.now)) }
    ensures done { IfErr result (λ fault. fault.done < length bytes.now) }
    ensures cause { HasCause (K.write_faults sink.old) (K.write_faults sink.new) result }
{
    let mut done = 0;
    while done < bytes.len() {
        match sink.write(&bytes[done..]) {
            Ok(count) => done += count,
            Err(_) => return Err(WriteFault { done }),
        }
    }
    Ok(())
}
