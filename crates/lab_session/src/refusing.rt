ghost use Rattle.std.specs.Prelude.{◌≡◌, ◌≤◌, ◌∷◌, [], IfOk, IsErrOf};
ghost use Rattle.acra_devices.specs.Causes.{Rose};
ghost use Rattle.machine_replies.specs.Replies.{ready};
ghost use Rattle.session_model.specs.Reply.{reply_bytes};
ghost use Rattle.session_model.specs.Refusals.{refusal_code, refusal_text, refusal_message};
ghost use Rattle.session_model.specs.declared.refusal.Refusal.TheVariants as causes;
ghost use Rattle.lab_session.specs.Relaying.{Sends};

use crate::send::send;
use crate::stop::Stop;
use acra_base::{Bytes, NoMemory};
use acra_devices::Sink;
use lab_backend::{write_error, write_ready};
use session_model::Refusal;
use std::alloc::Global;

// The SQLSTATE code: program_limit_exceeded, feature_not_supported or syntax_error.
fn refusal_code(cause: Refusal) -> [u8; 5]
    ensures { result ≡ refusal_code cause }
{
    match cause {
        Refusal::TooLong | Refusal::TooDeep => *b"54000",
        Refusal::NotServed => *b"0A000",
        Refusal::Misspelled { .. } => *b"42601",
    }
}

fn misspelled_text(alloc: Global, place: u32) -> Result<Bytes, NoMemory>
    ensures { IfOk result (λ text. text ≡ refusal_text (causes.Misspelled place)) }
{
    let text = format!(in alloc; "AcraServer: not in the profile at byte {place}")?;
    Ok(Bytes::from_vec(text.into_bytes()))
}

fn refusal_text(alloc: Global, cause: Refusal) -> Result<Bytes, NoMemory>
    ensures { IfOk result (λ text. text ≡ refusal_text cause) }
{
    match cause {
        Refusal::TooLong => Bytes::copied(alloc, b"AcraServer: query text too long"),
        Refusal::NotServed => Bytes::copied(alloc, b"AcraServer: statement not in the profile"),
        Refusal::Misspelled { place } => misspelled_text(alloc, place),
        Refusal::TooDeep => Bytes::copied(alloc, b"AcraServer: nesting too deep"),
    }
}

fn refusal_reply(alloc: Global, cause: Refusal) -> Result<Vec<u8>, NoMemory>
    ensures { IfOk result (λ reply. reply.items ≡ reply_bytes (refusal_message cause ∷ ready ∷ [])) }
{
    let code = refusal_code(cause);
    let text = refusal_text(alloc, cause)?;
    let mut reply = Vec::new(alloc);
    write_error(alloc, &code, text.as_slice(), &mut reply)?;
    write_ready(&mut reply)?;
    Ok(reply)
}

/// Refuses a text: sends the error with the cause's code and message.
pub fn refuse<K: Sink>(alloc: Global, cause: Refusal, output: &mut K) -> Result<(), Stop>
    ensures sent { Sends (K.held output.old) (K.held output.new) result (reply_bytes (refusal_message cause ∷ ready ∷ [])) }
    ensures later { K.write_faults output.old ≤ K.write_faults output.new }
    ensures fault { IsErrOf result Stop.WriteFault → Rose (K.write_faults output.old) (K.write_faults output.new) }
    ensures no_read { IsErrOf result Stop.ReadFault → ⊥ }
{
    match refusal_reply(alloc, cause) {
        Err(_) => Err(Stop::NoMemory),
        Ok(reply) => send(output, &reply),
    }
}
