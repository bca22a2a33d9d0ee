ghost use Rattle.std.specs.Prelude.{◌≡◌};
ghost use Rattle.pg_wire.specs.declared.frame.Side.TheVariants as side;
ghost use Rattle.lab_backend.specs.Serving.{ReadsRequest, TakesRequest};

use acra_base::NoMemory;
use pg_wire::{Frame, Framer, Front, NextFault, ReadBody, read_front};
use std::alloc::Global;

/// What stands first in a stream.
#[derive(Debug, Drop)]
pub enum Next {
    /// A request: a startup or a query.
    Request(Front),
    /// No frame yet.
    Waiting,
    /// What is no request, nor will be.
    Over,
}

/// Takes the first request from a client's stream.
pub fn next_request(alloc: Global, framer: &mut Framer) -> Result<Next, NoMemory>
    requires { framer.old.who ≡ side.Client }
    ensures taken { TakesRequest framer.old result framer.new }
    ensures side { framer.new.who ≡ side.Client }
{
    match framer.next() {
        Ok(Some(frame)) => read_request(alloc, &frame),
        Ok(None) => Ok(Next::Waiting),
        Err(NextFault::Frame { .. }) => Ok(Next::Over),
        Err(NextFault::NoMemory) => Err(NoMemory),
    }
}

/// What a frame asks for.
fn read_request(alloc: Global, frame: &Frame) -> Result<Next, NoMemory>
    ensures { ReadsRequest frame.now.kind frame.now.body result }
{
    match read_front(alloc, frame) {
        Ok(request @ (Front::Startup { .. } | Front::Query(_))) => Ok(Next::Request(request)),
        Ok(_) => Ok(Next::Over),
        Err(ReadBody::BodyFault { .. }) => Ok(Next::Over),
        Err(ReadBody::NoMemory) => Err(NoMemory),
    }
}
