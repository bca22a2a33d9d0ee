ghost use Rattle.std.specs.Prelude.{◌≡◌, ◌≤◌, List, ℕ, map, IfOk, OnErr, IsErrOf};
ghost use Rattle.acra_devices.specs.Causes.{Rose};
ghost use Rattle.pg_wire.specs.declared.back.Back.{Back as Message};
ghost use Rattle.pg_wire.specs.Backs.{back_frame};
ghost use Rattle.machine_replies.specs.Replies.{IsWritable};
ghost use Rattle.session_model.specs.Reply.{reply_bytes};
ghost use Rattle.session_model.specs.Shown.{shown_message};
ghost use Rattle.lab_session.specs.Cells.{opened_by};
ghost use Rattle.lab_session.specs.Relaying.{IsReply, Holds, NextIs, Sends};

use crate::send::send;
use crate::showing::show;
use crate::stop::Stop;
use acra_base::NoMemory;
use acra_block::KeyView;
use acra_devices::Sink;
use pg_wire::{Back, Framer, NextFault, ReadBody, Side, read_back, write_back};
use std::alloc::Global;

/// A message of the backend has at most this length.
const MESSAGE_LIMIT: u32 = 1 << 30;

// The next message of a reply, none at its end.
fn next_message(alloc: Global, reply: &mut Framer) -> Result<Option<Back>, NoMemory>
    requires { (messages : List Message) × Holds reply.old messages }
    ensures { IfOk result (λ found. (messages : List Message) → Holds reply.old messages → NextIs found messages reply.new) }
{
    match reply.next() {
        Ok(None) => Ok(None),
        Ok(Some(frame)) => match read_back(alloc, &frame) {
            Ok(message) => Ok(Some(message)),
            Err(ReadBody::NoMemory) => Err(NoMemory),
            Err(ReadBody::BodyFault { .. }) => unreachable!(),
        },
        Err(NextFault::NoMemory) => Err(NoMemory),
        Err(NextFault::Frame { .. }) => unreachable!(),
    }
}

// Shows a message and writes it to the client.
fn send_shown<K: Sink>(
    alloc: Global,
    view: &KeyView,
    protected: &[bool],
    message: Back,
    output: &mut K,
) -> Result<(), Stop>
    requires { IsWritable message }
    ensures sent { Sends (K.held output.old) (K.held output.new) result
        (back_frame (shown_message (opened_by view.now) protected.now message)) }
    ensures later { K.write_faults output.old ≤ K.write_faults output.new }
    ensures fault { IsErrOf result Stop.WriteFault → Rose (K.write_faults output.old) (K.write_faults output.new) }
    ensures no_read { IsErrOf result Stop.ReadFault → ⊥ }
{
    let shown = show(alloc, view, protected, message)?;
    let mut frame = Vec::new(alloc);
    write_back(&shown, &mut frame)?;
    send(output, &frame)
}

/// Shows a reply of the backend to the client, each message as soon as it is read.
pub fn relay<K: Sink>(
    alloc: Global,
    view: &KeyView,
    protected: &[bool],
    reply: &[u8],
    output: &mut K,
) -> Result<(), Stop>
    requires { (messages : List Message) × IsReply reply.now messages }
    ensures sent { (messages : List Message) → IsReply reply.now messages → Sends (K.held output.old) (K.held output.new) result
        (reply_bytes (map (shown_message (opened_by view.now) protected.now) messages)) }
    ensures later { K.write_faults output.old ≤ K.write_faults output.new }
    ensures fault { IsErrOf result Stop.WriteFault → Rose (K.write_faults output.old) (K.write_faults output.new) }
    ensures no_read { IsErrOf result Stop.ReadFault → ⊥ }
{
    let mut framer = Framer::new(alloc, Side::Backend, MESSAGE_LIMIT);
    framer.feed(reply)?;
    'messages: loop {
        match next_message(alloc, &mut framer) {
            Err(_) => return Err(Stop::NoMemory),
            Ok(None) => return Ok(()),
            Ok(Some(message)) => {
                match send_shown(alloc, view, protected, message, output) {
                    Ok(()) => {}
                    Err(stop) => return Err(stop),
                }
            }
        }
    }
}
