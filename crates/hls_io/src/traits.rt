ghost use Rattle.std.specs.Prelude.{ℕ, List};
ghost use Rattle.std.specs.declared.option.Option.{Option};
ghost use Rattle.std.specs.Io.{ReadsAtMost};
ghost use Rattle.std.specs.Io.KnownBytes.{ReadConsumes, WriteAppends};
ghost use Rattle.hls_io.specs.Causes.{HasCause};
ghost use Rattle.hls_io.specs.Moves.{TakesSome};

use thiserror::Error;

/// A read or a write that failed. The object's count of faults rose in that call.
#[derive(Clone, Copy, Debug, Error)]
#[error("the stream failed")]
pub struct Failed;

/// Where bytes come from.
pub trait Source {
    /// The bytes left, where the source tells them.
    ghost left: { Self → Option (List ℕ) };

    /// The count of faults so far. It never falls, and stops at 2^64 - 1.
    ghost faults: { Self → ℕ };

    /// Moves the first bytes left into the front of `buf` and answers how many. `Ok(0)` on a buffer that isn't empty
    /// is the end. `Failed` comes only where the count of faults rose, and takes no byte.
    fn read(&mut self, buf: &mut [u8]) -> Result<usize, Failed>
        ensures bound { ReadsAtMost result buf.new }
        ensures bytes { ReadConsumes (left self.old) (left self.new) result buf.new }
        ensures cause { HasCause (faults self.old) (faults self.new) result };
}

/// Where bytes go to.
pub trait Sink {
    /// The bytes held, where the sink tells them.
    ghost held: { Self → Option (List ℕ) };

    /// The count of faults so far. It never falls, and stops at 2^64 - 1.
    ghost faults: { Self → ℕ };

    /// Appends the first bytes of the piece and answers how many, at least one of a piece that isn't empty. `Failed`
    /// comes only where the count of faults rose, and appends nothing.
    fn write(&mut self, piece: &[u8]) -> Result<usize, Failed>
        ensures bound { TakesSome result piece.now }
        ensures bytes { WriteAppends (held self.old) (held self.new) result piece.now }
        ensures cause { HasCause (faults self.old) (faults self.new) result };
}
