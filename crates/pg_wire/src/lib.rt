//! The messages of PostgreSQL's frontend/backend protocol 3.0: frames of a stream that comes in
//! pieces, and the messages that their bodies spell (PostgreSQL manual, "Message Formats").
#![tactic(auto)]

mod back;
mod columns;
mod counted;
mod frame;
mod framer;
mod front;
mod head;
mod laws;
mod lists;
mod put;
mod put_back;
mod put_front;
mod reading_back;
mod reading_front;
mod startup;
mod statements;
mod write;

pub use back::{Back, ErrorField, Field};
pub use frame::{BadFrame, Frame, FrameFault, FrameView, MessageFault, NextFault, ReadBody, Side};
pub use framer::Framer;
pub use front::{Front, Pair, Target};
pub use laws::{
    back_places, back_round_trip, fault_is_no_frame, fault_stays, front_places, front_round_trip,
    one_back, one_fault, one_frame, one_front, one_stream, seen_is_given, stream_spelled,
    unfinished_begins,
};
pub use reading_back::read_back;
pub use reading_front::read_front;
pub use write::{write_back, write_front};
