ghost use Rattle.std.specs.Prelude.{◌≡◌, Some, None, ◌≤◌, length, Ok};
ghost use Rattle.std.specs.Io.{ReadsAtMost};
ghost use Rattle.std.specs.Io.KnownBytes.{ReadConsumes, WriteAppends};
ghost use Rattle.hls_io.specs.Causes.{HasCause};
ghost use Rattle.hls_io.specs.Moves.{TakesSome};
ghost use Rattle.hls_io.specs.Memory.{ReadsSurely};

use crate::{Failed, Sink, Source};
use std::marker::Model;

/// A source in memory that never fails.
#[derive(Drop)]
pub struct SureSource<'a> {
    left: &'a [u8],
    chunk: usize,
}

impl<'a> Model for SureSource<'a> {
    ghost use Rattle.std.specs.Prelude.{◌≤◌};
    ghost use Rattle.hls_io.specs.Memory.{SureState};

    ghost Value = { SureState };

    ghost view = { λ s. record { left = s.left.now; chunk = s.chunk } };

    ghost invariant = { λ s. 1 ≤ s.chunk };
}

impl<'a> SureSource<'a> {
    /// It has `bytes`, and moves at most `chunk` of them a call.
    pub fn new(bytes: &'a [u8], chunk: usize) -> Self
        requires { 1 ≤ chunk }
        ensures { result ≡ record { left = bytes.entry.now; chunk = chunk } }
    {
        SureSource { left: bytes, chunk }
    }
}

impl Source for SureSource<'_> {
    ghost left = { λ s. Some s.left };

    ghost faults = { λ _. 0 };

    fn read(&mut self, buf: &mut [u8]) -> Result<usize, Failed>
        ensures bound { ReadsAtMost result buf.new }
        ensures bytes { ReadConsumes (Some self.old.left) (Some self.new.left) result buf.new }
        ensures cause { HasCause 0 0 result }
        ensures exact { ReadsSurely self.old self.new (length buf.old) result }
    {
        let count = self.left.len().min(buf.len()).min(self.chunk);
        let (front, rest) = self.left.split_at(count);
        buf[..count].copy_from_slice(front);
        self.left = rest;
        Ok(count)
    }
}

/// A sink that takes every piece whole, keeps no byte and tells none.
#[derive(Clone, Copy)]
pub struct SureSink;

impl SureSink {
    /// It is always the same.
    pub fn new() -> Self {
        SureSink
    }
}

impl Sink for SureSink {
    ghost held = { λ _. None };

    ghost faults = { λ _. 0 };

    fn write(&mut self, piece: &[u8]) -> Result<usize, Failed>
        ensures bound { TakesSome result piece.now }
        ensures bytes { WriteAppends None None result piece.now }
        ensures cause { HasCause 0 0 result }
        ensures exact { result ≡ Ok (length piece.now) }
    {
        Ok(piece.len())
    }
}
