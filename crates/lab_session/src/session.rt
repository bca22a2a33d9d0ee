ghost use Rattle.std.specs.Prelude.{◌≡◌, ◌≤◌, ◌<◌, ◌+◌, ◌^◌, ℕ, List, [], ◌++◌, Some, IsSome, IfOk, OnErr, IsErrOf};
ghost use Rattle.acra_devices.specs.Causes.{Rose};
ghost use Rattle.session_model.specs.Requests.{Request};
ghost use Rattle.lab_backend.specs.Sessions.{new_session};
ghost use Rattle.session_model.specs.Notes.{notes_with};
ghost use Rattle.acra_block.specs.Keys.{Key};
ghost use Rattle.keystore.specs.Rings.{current_of};
ghost use Rattle.keystore.specs.Kept.{IsKept};
ghost use Rattle.lab_session.specs.Leases.{after_leases};
ghost use Rattle.lab_session.specs.Session.{connection, PieceRead, PieceTaken, status_of, Ran};

use crate::answering::answer;
use crate::said::{Next, next_said};
use crate::status::Status;
use crate::stop::Stop;
use acra_base::ClientId;
use acra_devices::{Sink, Source, SureRandom};
use keystore::Ring;
use lab_backend::LabBackend;
use pg_wire::{Framer, Side};
use std::alloc::Global;

/// A client's message has at most this length.
const MESSAGE_LIMIT: u32 = 1 << 24;

/// A session reads at most so many bytes.
const READ_LIMIT: u64 = 1 << 48;

fn stopped(stop: Stop) -> Status
    ensures { result ≡ status_of stop }
{
    match stop {
        Stop::NoMemory => Status::NoMemory,
        Stop::ReadFault => Status::ReadFault,
        Stop::WriteFault => Status::WriteFault,
    }
}

// Reads a piece of at most `room` bytes, and feeds it.
fn read_piece<S: Source>(input: &mut S, framer: &mut Framer, room: u64) -> Result<usize, Stop>
    requires { 0 < room }
    ensures ok { IfOk result (λ n. PieceRead (S.left input.old) (S.left input.new) framer.old framer.new n room) }
    ensures err { OnErr result (PieceTaken (S.left input.old) (S.left input.new)) }
    ensures later { S.read_faults input.old ≤ S.read_faults input.new }
    ensures fault { IsErrOf result Stop.ReadFault → Rose (S.read_faults input.old) (S.read_faults input.new) }
    ensures no_write { IsErrOf result Stop.WriteFault → ⊥ }
{
    let mut buf = [0; 4096];
    let most = room.min(4096) as usize;
    match input.read(&mut buf[..most]) {
        Err(_) => Err(Stop::ReadFault),
        Ok(count) => {
            framer.feed(&buf[..count])?;
            Ok(count)
        }
    }
}

/// One session of a client over the lab's backend: answers each request, in order, before it reads on.
///
/// A statement that writes or shows protected values is answered under a lease of the client's keys, which is
/// released after it. The backend has the table notes without rows, and nothing came of session 1.
pub fn first_session<S: Source, K: Sink>(
    alloc: Global,
    input: &mut S,
    output: &mut K,
    random: &mut SureRandom,
    who: &ClientId,
    ring: &mut Ring,
    backend: &mut LabBackend,
) -> Status
    requires client { IsSome (current_of ring.old who.now) }
    requires kept { IsKept ring.old }
    requires ids { ring.old.next_id < 2 ^ 64 }
    requires tickets { ring.old.next_ticket + 2 ^ 48 < 2 ^ 64 }
    requires tables { backend.old.tables ≡ notes_with [] }
    requires new { connection backend.old ≡ new_session }
    ensures ran { (key : Key) × (answered : List Request) × (begun : List Request) × (rest : List ℕ) × (current_of ring.old who.now ≡ Some key)
        × Ran key random.old (S.left input.old) (S.left input.new) (K.held output.old) (K.held output.new) backend.new.tables result answered begun rest
        × (ring.new ≡ after_leases ring.old (answered ++ begun)) }
    ensures read_fault { result ≡ Status.ReadFault → Rose (S.read_faults input.old) (S.read_faults input.new) }
    ensures write_fault { result ≡ Status.WriteFault → Rose (K.write_faults output.old) (K.write_faults output.new) }
{
    let mut framer = Framer::new(alloc, Side::Client, MESSAGE_LIMIT);
    let mut taken: u64 = 0;
    'session: loop {
        match next_said(alloc, &mut framer) {
            Err(_) => return Status::NoMemory,
            Ok(Next::Bad { offset, kind }) => return Status::BadClient { offset, kind },
            Ok(Next::Leaves) => return Status::Done,
            Ok(Next::Said(said)) => {
                match answer(alloc, ring, who, random, backend, output, said) {
                    Ok(()) => {}
                    Err(stop) => return stopped(stop),
                }
            }
            Ok(Next::Waiting) => {
                if taken >= READ_LIMIT {
                    return Status::Spent;
                }
                match read_piece(input, &mut framer, READ_LIMIT - taken) {
                    Err(stop) => return stopped(stop),
                    Ok(0) => {
                        if framer.is_empty() {
                            return Status::Done;
                        }
                        return Status::ClientCut { offset: taken };
                    }
                    Ok(count) => taken += count as u64,
                }
            }
        }
    }
}
