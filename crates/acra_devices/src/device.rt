ghost use Rattle.std.specs.Prelude.{◌≡◌, ◌≤◌, ◌<◌, List, [], ℕ, length, IfOk, Option, None};
ghost use Rattle.acra_devices.specs.Known.{Grew, Shrank, ReadGives, WriteTakes};
ghost use Rattle.acra_devices.specs.Causes.{HasCause, TakesSome};

use thiserror::Error;

/// A device failed. Its count of faults rose.
#[derive(Clone, Copy, Debug, PartialEq, Eq, Error)]
#[error("the device failed")]
pub struct Failed;

/// What bytes come from.
///
/// A device in memory tells what is left; a real one tells nothing, and its content is unknown.
/// A count of faults never falls.
pub trait Source {
    /// The bytes that reads will give, where they are told.
    ghost left: { Self → Option (List ℕ) };

    /// How often a read has failed.
    ghost read_faults: { Self → ℕ };

    /// At both ends of a connection: what the other direction holds. A read leaves it.
    ghost held_beside: { Self → Option (List ℕ) } = { λ _. None };

    /// At both ends of a connection: how often a write has failed.
    ghost write_faults_beside: { Self → ℕ } = { λ _. 0 };

    /// Moves the next bytes into the front of `buf`, and answers how many. `Ok(0)` is the end of the
    /// input. `Failed` moves nothing, and comes only where the count of read faults rose.
    fn read(&mut self, buf: &mut [u8]) -> Result<usize, Failed>
        requires { 0 < length buf.old }
        ensures bound { IfOk result (λ n. n ≤ length buf.new) }
        ensures bytes { ReadGives (left self.old) (left self.new) result buf.new }
        ensures cause { HasCause (read_faults self.old) (read_faults self.new) result }
        ensures beside { Grew (held_beside self.old) (held_beside self.new) [] }
        ensures other { write_faults_beside self.old ≤ write_faults_beside self.new };
}

/// What bytes go to.
///
/// A device in memory tells what it holds; a real one tells nothing. A count of faults never falls.
pub trait Sink {
    /// The bytes that it has taken, where they are told.
    ghost held: { Self → Option (List ℕ) };

    /// How often a write has failed.
    ghost write_faults: { Self → ℕ };

    /// At both ends of a connection: what is left in the other direction. A write leaves it.
    ghost left_beside: { Self → Option (List ℕ) } = { λ _. None };

    /// At both ends of a connection: how often a read has failed.
    ghost read_faults_beside: { Self → ℕ } = { λ _. 0 };

    /// Takes a front of the bytes, and answers how many: at least one of a piece that isn't empty.
    /// `Failed` takes nothing, and comes only where the count of write faults rose.
    fn write(&mut self, bytes: &[u8]) -> Result<usize, Failed>
        ensures bound { TakesSome result (length bytes.now) }
        ensures bytes { WriteTakes (held self.old) (held self.new) result bytes.now }
        ensures cause { HasCause (write_faults self.old) (write_faults self.new) result }
        ensures beside { Shrank (left_beside self.old) (left_beside self.new) [] }
        ensures other { read_faults_beside self.old ≤ read_faults_beside self.new };
}

/// Both ends of a connection.
pub trait Link: Source + Sink {
    /// What a read leaves is what the sink holds.
    ghost one_held: { (link : Self) → Self.held_beside link ≡ Self.held link };

    /// What a write leaves is what is left of the source.
    ghost one_left: { (link : Self) → Self.left_beside link ≡ Self.left link };

    /// A read counts no write fault away.
    ghost one_write_count: { (link : Self) → Self.write_faults_beside link ≡ Self.write_faults link };

    /// A write counts no read fault away.
    ghost one_read_count: { (link : Self) → Self.read_faults_beside link ≡ Self.read_faults link };
}
