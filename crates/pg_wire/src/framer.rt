ghost use Rattle.std.specs.Prelude.{◌≡◌, ◌==◌, ◌≤◌, ◌+◌, ◌%◌, ◌^◌, length, drop, vec_len, OnOk, OnErr};
ghost use Rattle.pg_wire.specs.Streams.{new_stream, fed, Gives, Sees, Passes};

use crate::frame::{BadFrame, Frame, FrameView, NextFault, Side};
use crate::head::{Head, head_of, still_opening};
use acra_base::{Bytes, NoMemory};
use std::alloc::Global;
use std::marker::Model;

/// Cuts a stream that comes in pieces into frames.
///
/// What was given out is dropped once it is half of what is kept, so at most twice the bytes that are left are kept, and
/// nothing where none are left.
#[derive(Drop)]
pub struct Framer {
    alloc: Global,
    who: Side,
    limit: u32,
    opening: bool,
    offset: u64,
    buffer: Vec<u8>,
    start: usize,
}

impl Model for Framer {
    ghost use Rattle.std.specs.Prelude.{◌≤◌, ◌+◌, length, drop};
    ghost use Rattle.pg_wire.specs.Streams.{Stream};

    ghost Value = { Stream };

    ghost view = { λ f. record { who = f.who; limit = f.limit; opening = f.opening; offset = f.offset; left = drop f.start f.buffer.items } };

    ghost invariant = { λ f. f.start + f.start ≤ length f.buffer.items };
}

/// Lets the first bytes go.
fn drop_front(bytes: &mut Vec<u8>, count: usize)
    requires { count ≤ vec_len bytes.old }
    ensures { bytes.new.items ≡ drop count bytes.old.items }
{
    drop(bytes.drain(..count));
}

impl Framer {
    /// A stream of which nothing came. The limit is on the length that a message tells; a startup packet
    /// has its own. It takes no memory.
    pub fn new(alloc: Global, side: Side, limit: u32) -> Framer
        ensures { result ≡ new_stream side limit }
    {
        Framer {
            alloc,
            who: side,
            limit,
            opening: matches!(side, Side::Client),
            offset: 0,
            buffer: Vec::new(alloc),
            start: 0,
        }
    }

    /// Where the first byte that is left stands in the stream, from 0.
    pub fn offset(&self) -> u64
        ensures { result ≡ self.now.offset }
    {
        self.offset
    }

    /// Whether no byte is left.
    pub fn is_empty(&self) -> bool
        ensures { result ≡ (length self.now.left == 0) }
    {
        self.start == self.buffer.len()
    }

    // What was fed and not given out.
    fn left(&self) -> &[u8]
        ensures { result.now ≡ self.now.left }
    {
        &self.buffer[self.start..]
    }

    /// Takes the next piece of the stream. Without memory nothing is taken.
    pub fn feed(&mut self, piece: &[u8]) -> Result<(), NoMemory>
        ensures ok { OnOk result (self.new ≡ fed self.old piece.now) }
        ensures err { OnErr result (self.new ≡ self.old) }
    {
        self.buffer.extend_from_slice(piece)?;
        Ok(())
    }

    // Lets the first bytes that are left go, and says whether a startup packet is awaited behind them.
    fn advance(&mut self, size: usize, opening: bool)
        requires { size ≤ length self.old.left }
        ensures { self.new ≡ record self.old { opening = opening; offset = (self.old.offset + size) % 2 ^ 64; left = drop size self.old.left } }
    {
        self.opening = opening;
        self.offset = self.offset.wrapping_add(size as u64);
        self.start += size;
        if self.start > self.buffer.len() - self.start {
            drop_front(&mut self.buffer, self.start);
            self.start = 0;
        }
    }

    /// The frame that stands first, where it lies, `None` before it is whole. It stays there, and nothing is copied.
    pub fn front(&self) -> Result<Option<FrameView<'_>>, BadFrame>
        ensures { Sees self.now result }
    {
        let left = self.left();
        match head_of(self.who, self.limit, self.opening, left) {
            Head::Unfinished => Ok(None),
            Head::Fault(fault) => Err(BadFrame {
                offset: self.offset,
                fault,
            }),
            Head::Whole { kind, body, rest } => Ok(Some(FrameView {
                offset: self.offset,
                kind,
                body,
                bytes: &left[..left.len() - rest.len()],
            })),
        }
    }

    /// Lets the frame that stands first go, and answers whether one stood there. Nothing is copied.
    pub fn pass(&mut self) -> bool
        ensures { Passes self.old result self.new }
    {
        let left = self.left();
        match head_of(self.who, self.limit, self.opening, left) {
            Head::Unfinished => false,
            Head::Fault(_) => false,
            Head::Whole { body, rest, .. } => {
                let size = left.len() - rest.len();
                let opening = still_opening(self.opening, body);
                self.advance(size, opening);
                true
            }
        }
    }

    /// Gives out the next frame, `None` before it is whole. A fault stays, and without memory nothing
    /// is given out.
    pub fn next(&mut self) -> Result<Option<Frame>, NextFault>
        ensures { Gives self.old result self.new }
    {
        let left = self.left();
        match head_of(self.who, self.limit, self.opening, left) {
            Head::Unfinished => Ok(None),
            Head::Fault(fault) => Err(NextFault::Frame {
                offset: self.offset,
                fault,
            }),
            Head::Whole { kind, body, rest } => {
                let frame = Frame {
                    offset: self.offset,
                    kind,
                    body: Bytes::copied(self.alloc, body)?,
                };
                let size = left.len() - rest.len();
                let opening = still_opening(self.opening, body);
                self.advance(size, opening);
                Ok(Some(frame))
            }
        }
    }
}
