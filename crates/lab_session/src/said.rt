ghost use Rattle.std.specs.Prelude.{◌≡◌, IfOk};
ghost use Rattle.pg_wire.specs.declared.frame.Side.TheVariants as side;
ghost use Rattle.session_model.specs.Requests.{message_limit};
ghost use Rattle.lab_session.specs.Understood.{IsUnderstood};
ghost use Rattle.lab_session.specs.Answering.{NextGives};

use crate::meanings::text_meaning;
use acra_base::{NoMemory, Sequence};
use pg_wire::{Frame, Framer, Front, MessageFault, NextFault, Pair, ReadBody, read_front};
use session_model::{Encryption, Meaning, Refusal};
use sql_tree::Statement;
use std::alloc::Global;

/// A request of the client that is answered.
#[derive(Debug, Drop)]
pub enum Said {
    /// A request for encryption.
    Encrypts(Encryption),
    /// The startup message with its parameters.
    Opens(Sequence<Pair>),
    /// A statement.
    Asks(Statement),
    /// A text without a statement.
    Empties,
    /// A text that is refused.
    Refused(Refusal),
}

/// What stands first in the client's stream.
#[derive(Debug, Drop)]
pub enum Next {
    /// A request, which was taken.
    Said(Said),
    /// The end of the session, which was taken.
    Leaves,
    /// A bad message, which stands at this offset.
    Bad { offset: u64, kind: MessageFault },
    /// No whole request yet.
    Waiting,
}

// What a frame asks.
fn understood(alloc: Global, frame: &Frame) -> Result<Next, NoMemory>
    ensures { IfOk result (λ found. IsUnderstood frame.now.offset frame.now.kind frame.now.body found) }
{
    match read_front(alloc, frame) {
        Err(ReadBody::NoMemory) => Err(NoMemory),
        Err(ReadBody::BodyFault { .. }) => Ok(Next::Bad {
            offset: frame.offset,
            kind: MessageFault::Body,
        }),
        Ok(Front::SslRequest) => Ok(Next::Said(Said::Encrypts(Encryption::Tls))),
        Ok(Front::GssRequest) => Ok(Next::Said(Said::Encrypts(Encryption::Gss))),
        Ok(Front::Startup { params }) => Ok(Next::Said(Said::Opens(params))),
        Ok(Front::Query(text)) => match text_meaning(alloc, text.as_slice())? {
            Meaning::Nothing => Ok(Next::Said(Said::Empties)),
            Meaning::Serves(tree) => Ok(Next::Said(Said::Asks(tree))),
            Meaning::Refused(cause) => Ok(Next::Said(Said::Refused(cause))),
        },
        Ok(Front::Terminate) => Ok(Next::Leaves),
        Ok(_) => Ok(Next::Bad {
            offset: frame.offset,
            kind: MessageFault::Place,
        }),
    }
}

/// Takes the next request of the client's stream.
pub fn next_said(alloc: Global, framer: &mut Framer) -> Result<Next, NoMemory>
    requires who { framer.old.who ≡ side.Client }
    requires limit { framer.old.limit ≡ message_limit }
    ensures { NextGives framer.old result framer.new }
{
    match framer.next() {
        Err(NextFault::NoMemory) => Err(NoMemory),
        Err(NextFault::Frame { offset, fault }) => Ok(Next::Bad {
            offset,
            kind: MessageFault::Frame(fault),
        }),
        Ok(None) => Ok(Next::Waiting),
        Ok(Some(frame)) => understood(alloc, &frame),
    }
}
