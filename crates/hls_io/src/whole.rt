ghost use Rattle.std.specs.Prelude.{◌≡◌, ℕ, List, ◌<◌, ◌≤◌, length, take, OnOk, IfOk, IfErr, IfSome, IsErrOf};
ghost use Rattle.std.specs.Io.KnownBytes.{Appends, Consumes, IsAtEnd};
ghost use Rattle.hls_io.specs.Causes.{HasCause, Rose};
ghost use Rattle.hls_io.specs.declared.whole.ReadAllError.TheVariants.{Mem, ReadFault};

use crate::{Bytes, Failed, Sink, Source};
use std::alloc::{AllocError, Global};
use thiserror::Error;

/// Why `read_all` gave no bytes.
#[derive(Clone, Copy, Debug, PartialEq, Eq, Error)]
pub enum ReadAllError {
    #[error("more bytes came than may")]
    TooLong,
    #[error("a read failed")]
    ReadFault,
    #[error("out of memory")]
    Mem,
}

impl From<Failed> for ReadAllError {
    ghost from_gives = { λ _ e. e ≡ ReadFault };

    fn from(_error: Failed) -> Self {
        ReadAllError::ReadFault
    }
}

impl From<AllocError> for ReadAllError {
    ghost from_gives = { λ _ e. e ≡ Mem };

    fn from(_error: AllocError) -> Self {
        ReadAllError::Mem
    }
}

/// A write that failed after `written` bytes.
#[derive(Clone, Copy, Debug, PartialEq, Eq, Error)]
#[error("a write failed after {written} bytes")]
pub struct WriteFault {
    pub written: usize,
}

/// How many bytes `read_all` asks for in a call.
const PIECE: usize = 4096;

/// Reads to the end, at most `max` bytes. `TooLong` comes where more than `max` came, and then the last piece read is
/// lost with them; `ReadFault` only where the source's count of faults rose.
pub fn read_all<S: Source>(alloc: Global, source: &mut S, max: usize) -> Result<Bytes, ReadAllError>
    ensures whole { IfOk result (λ b. IfSome (S.left source.old) (λ xs. b ≡ xs)) }
    ensures end { OnOk result (IsAtEnd (S.left source.new)) }
    ensures fits { IfOk result (λ b. length b ≤ max) }

    ensures too_long { IsErrOf result ReadAllError.TooLong → IfSome (S.left source.old) (λ xs. max < length xs) }
    ensures fault { IsErrOf result ReadAllError.ReadFault → Rose (S.faults source.old) (S.faults source.new) }

    // Whatever the answer, the source gave up its first bytes, and its count didn't fall.
    ensures prefix { (taken : List ℕ) × Consumes (S.left source.old) (S.left source.new) taken }
    ensures later { S.faults source.old ≤ S.faults source.new }
{
    let mut bytes = Bytes::new(alloc);
    let mut piece = [0u8; PIECE];
    'pieces: loop {
        let count = source.read(&mut piece)?;
        if count == 0 {
            return Ok(bytes);
        }
        if count > max - bytes.len() {
            return Err(ReadAllError::TooLong);
        }
        bytes.put(&piece[..count])?;
    }
}

/// Writes all of `bytes`, in as many pieces as the sink wants; it takes no memory. At `Err` the sink has taken the
/// first `written` of them, and its count of faults rose.
pub fn write_all<K: Sink>(sink: &mut K, bytes: &[u8]) -> Result<(), WriteFault>
    ensures ok { OnOk result (Appends (K.held sink.old) (K.held sink.new) bytes.now) }
    ensures prefix { IfErr result (λ e. Appends (K.held sink.old) (K.held sink.new) (take e.written bytes.now)) }
    ensures some_left { IfErr result (λ e. e.written < length bytes.now) }
    ensures cause { HasCause (K.faults sink.old) (K.faults sink.new) result }
{
    let mut written = 0;
    'pieces: while written < bytes.len() {
        match sink.write(&bytes[written..]) {
            Ok(count) => written += count,
            Err(Failed) => return Err(WriteFault { written }),
        }
    }
    Ok(())
}
