ghost use Rattle.std.specs.Prelude.{◌≡◌, ℕ, List, [], Some, ◌≤◌, length, vec_len, vec_capacity, IfOk};
ghost use Rattle.std.specs.Io.{ReadsAtMost};
ghost use Rattle.std.specs.Io.KnownBytes.{ReadConsumes, WriteAppends};
ghost use Rattle.hls_io.specs.Causes.{HasCause};
ghost use Rattle.hls_io.specs.Moves.{TakesSome};
ghost use Rattle.hls_io.specs.Memory.{ReadsInMemory, WritesInMemory};

use crate::{Failed, Sink, Source};
use std::alloc::{AllocError, Global};
use std::marker::Model;

/// A source in memory that fails at chosen calls. Its methods take no memory.
#[derive(Drop)]
pub struct MemSource<'a> {
    left: &'a [u8],
    chunk: usize,
    fails: &'a [u64],
    calls: u64,
    faults: u64,
}

impl<'a> Model for MemSource<'a> {
    ghost use Rattle.std.specs.Prelude.{◌≤◌};
    ghost use Rattle.hls_io.specs.Memory.{SourceState};

    ghost Value = { SourceState };

    ghost view = { λ s. record { left = s.left.now; chunk = s.chunk; fails = s.fails.now; calls = s.calls; faults = s.faults } };

    ghost invariant = { λ s. 1 ≤ s.chunk };
}

impl<'a> MemSource<'a> {
    /// It has `bytes`, moves at most `chunk` of them a call, and fails at the calls whose numbers, counted from 1,
    /// are in `fails`.
    pub fn new(bytes: &'a [u8], chunk: usize, fails: &'a [u64]) -> Self
        requires { 1 ≤ chunk }
        ensures { result ≡ record { left = bytes.entry.now; chunk = chunk; fails = fails.entry.now; calls = 0; faults = 0 } }
    {
        MemSource {
            left: bytes,
            chunk,
            fails,
            calls: 0,
            faults: 0,
        }
    }
}

impl Source for MemSource<'_> {
    ghost left = { λ s. Some s.left };

    ghost faults = { λ s. s.faults };

    fn read(&mut self, buf: &mut [u8]) -> Result<usize, Failed>
        ensures bound { ReadsAtMost result buf.new }
        ensures bytes { ReadConsumes (Some self.old.left) (Some self.new.left) result buf.new }
        ensures cause { HasCause self.old.faults self.new.faults result }
        ensures exact { ReadsInMemory self.old self.new (length buf.old) result }
    {
        self.calls = self.calls.saturating_add(1);
        if self.fails.contains(&self.calls) {
            self.faults = self.faults.saturating_add(1);
            return Err(Failed);
        }
        let count = self.left.len().min(buf.len()).min(self.chunk);
        let (front, rest) = self.left.split_at(count);
        buf[..count].copy_from_slice(front);
        self.left = rest;
        Ok(count)
    }
}

/// A sink in memory with a room of its own, that fails at chosen calls and where the room is full. Its methods take
/// no memory.
#[derive(Drop)]
pub struct MemSink<'a> {
    held: Vec<u8>,
    room: usize,
    chunk: usize,
    fails: &'a [u64],
    calls: u64,
    faults: u64,
}

impl<'a> Model for MemSink<'a> {
    ghost use Rattle.std.specs.Prelude.{◌≤◌, vec_len, vec_capacity};
    ghost use Rattle.hls_io.specs.Memory.{SinkState};

    ghost Value = { SinkState };

    ghost view = { λ s. record { held = s.held.items; room = s.room; chunk = s.chunk; fails = s.fails.now; calls = s.calls; faults = s.faults } };

    ghost invariant = { λ s. (1 ≤ s.chunk) × (vec_len s.held ≤ s.room) × (s.room ≤ vec_capacity s.held) };
}

impl<'a> MemSink<'a> {
    /// It reserves `room` bytes here. A call takes at most `chunk` bytes of what fits, and the calls whose numbers,
    /// counted from 1, are in `fails` fail.
    pub fn new(
        alloc: Global,
        room: usize,
        chunk: usize,
        fails: &'a [u64],
    ) -> Result<Self, AllocError>
        requires { 1 ≤ chunk }
        ensures { IfOk result (λ s. s ≡ record { held = []; room = room; chunk = chunk; fails = fails.entry.now; calls = 0; faults = 0 }) }
    {
        Ok(MemSink {
            held: Vec::with_capacity(alloc, room)?,
            room,
            chunk,
            fails,
            calls: 0,
            faults: 0,
        })
    }

    /// The bytes taken so far.
    pub fn held(&self) -> &[u8]
        ensures { result.now ≡ self.now.held }
    {
        self.held.as_slice()
    }
}

impl Sink for MemSink<'_> {
    ghost held = { λ s. Some s.held };

    ghost faults = { λ s. s.faults };

    fn write(&mut self, piece: &[u8]) -> Result<usize, Failed>
        ensures bound { TakesSome result piece.now }
        ensures bytes { WriteAppends (Some self.old.held) (Some self.new.held) result piece.now }
        ensures cause { HasCause self.old.faults self.new.faults result }
        ensures exact { WritesInMemory self.old self.new piece.now result }
    {
        self.calls = self.calls.saturating_add(1);
        let free = self.room - self.held.len();
        if self.fails.contains(&self.calls) || free == 0 {
            self.faults = self.faults.saturating_add(1);
            return Err(Failed);
        }
        let count = piece.len().min(free).min(self.chunk);
        self.held.extend_from_slice(&piece[..count]).unwrap();
        Ok(count)
    }
}
