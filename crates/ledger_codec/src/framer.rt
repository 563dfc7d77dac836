//! A stream of bytes, cut into frames.
ghost use Rattle.std.specs.Prelude.{◌≡◌, ◌≤◌, ◌++◌, [], length, drop, OnOk, OnErr, IfOk, IfSome};
ghost use Rattle.ledger_codec.specs.Streams.{NextFrame, FramesStay};
ghost use Rattle.ledger_codec.specs.Frames.{front, FrontAt};

use crate::framing::{FrameError, frame_at};
use crate::memory::OutOfMemory;
use std::alloc::{AllocError, Global};
use std::marker::Model;

/// Holds the bytes of a stream, and gives them frame by frame. Contracts see the limit and the bytes held.
#[derive(Drop)]
pub struct Framer {
    alloc: Global,
    limit: u32,
    bytes: Vec<u8>,
    at: usize,
}

impl Model for Framer {
    ghost use Rattle.std.specs.Prelude.{◌≤◌, vec_len, drop};
    ghost use Rattle.ledger_codec.specs.Held.{Held};

    ghost Value = { Held };

    ghost view = { λ f. record { limit = f.limit; bytes = drop f.at f.bytes.items } };

    ghost invariant = { λ f. f.at ≤ vec_len f.bytes };
}

impl Framer {
    /// No bytes, and frames of at most `limit` bytes.
    pub fn new(alloc: Global, limit: u32) -> Framer
        ensures { result ≡ record { limit = limit; bytes = [] } }
    {
        Framer {
            alloc,
            limit,
            bytes: Vec::new(alloc),
            at: 0,
        }
    }

    /// The number of bytes held.
    pub fn rest(&self) -> usize
        ensures { result ≡ length self.now.bytes }
    {
        self.bytes.len() - self.at
    }

    /// Appends the piece. The frames that were held before stay.
    pub fn feed(&mut self, piece: &[u8]) -> Result<(), OutOfMemory>
        ensures ok { OnOk result (self.new ≡ record self.old { bytes = self.old.bytes ++ piece.now }) }
        ensures err { OnErr result (self.new ≡ self.old) }
        ensures frames { FramesStay self.old.limit self.old.bytes piece.now }
    {
        self.at = cut_front(&mut self.bytes, self.at);
        self.bytes.extend_from_slice(piece)?;
        Ok(())
    }

    /// The body of the next whole frame, and how many held bytes it takes with its length.
    pub fn peek(&self) -> Result<Option<(&[u8], usize)>, FrameError>
        ensures front { FrontAt (λ x. x.now) result self.now.bytes (front self.now.limit self.now.bytes) }
        ensures within { IfOk result (λ found. IfSome found (λ x. x.1 ≤ length self.now.bytes)) }
    {
        frame_at(self.limit, &self.bytes[self.at..], 0)
    }

    /// Gives up the first bytes held.
    pub fn skip(&mut self, count: usize)
        requires { count ≤ length self.old.bytes }
        ensures { self.new ≡ record self.old { bytes = drop count self.old.bytes } }
    {
        self.at += count;
    }

    /// Gives up all bytes held.
    pub fn clear(&mut self)
        ensures { self.new ≡ record self.old { bytes = [] } }
    {
        self.bytes.clear();
        self.at = 0;
    }

    /// The next whole frame's body; None exactly where no whole frame and no bad length is held. A bad
    /// length stays, and is answered again.
    pub fn next_frame(&mut self) -> Result<Option<Vec<u8>>, FrameError>
        ensures { NextFrame result self.old self.new }
    {
        match frame_at(self.limit, &self.bytes, self.at)? {
            None => Ok(None),
            Some((body, after)) => match Vec::from_slice(self.alloc, body) {
                Ok(body) => {
                    self.at = after;
                    Ok(Some(body))
                }
                Err(AllocError) => Err(FrameError::OutOfMemory),
            },
        }
    }
}

/// Drops the bytes before this place once they are at least half of all, and answers the place then. So
/// each byte is moved a bounded number of times.
fn cut_front(bytes: &mut Vec<u8>, at: usize) -> usize
    requires { at ≤ length bytes.old.items }
    ensures held { drop result bytes.new.items ≡ drop at bytes.old.items }
    ensures within { result ≤ length bytes.new.items }
{
    let rest = bytes.len() - at;
    if at < rest || at == 0 {
        return at;
    }
    bytes.rotate_left(at);
    bytes.truncate(rest);
    0
}
