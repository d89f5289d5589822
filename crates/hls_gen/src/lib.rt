//! Programs made from a number: the C text of one that is good.
#![tactic(auto)]

ghost use Rattle.std.specs.Prelude.{◌≡◌, ◌≤◌, IfOk};
ghost use Rattle.generated_text.specs.Draws.{lines_of};
ghost use Rattle.generated_text.specs.Text.{text_of};
ghost use Rattle.hls_gen.specs.Good.{IsAcceptedAsGood};

use generated_text::program_text;
use hls_io::Bytes;
use std::alloc::{AllocError, Global};

/// The C text of a program of so many POSIX threads beside main, each of which works through the same `size` lines, drawn
/// from the seed; equal arguments give equal texts. The compiler takes the text, and the program is good: none of its interleavings
/// has a data race (C11 5.1.2.4p25) or an undefined step. The only error is want of memory.
pub fn program(alloc: Global, seed: u32, threads: u32, size: u32) -> Result<Bytes, AllocError>
    requires some { 1 ≤ threads }
    requires most { threads ≤ 63 }
    requires few { size ≤ 1000 }
    ensures text { IfOk result (λ text. text ≡ text_of threads (lines_of seed size)) }
    ensures good { IfOk result (IsAcceptedAsGood threads) }
{
    program_text(alloc, seed, threads, size)
}
