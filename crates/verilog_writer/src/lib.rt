//! The text of a net.
#![tactic(auto)]

ghost use Rattle.std.specs.Prelude.{IfOk};
ghost use Rattle.verilog_tree.specs.Grammar as g;
ghost use Rattle.verilog_tree.specs.Tokens.{Splits};
ghost use Rattle.verilog_tree.specs.Reads.{IsFull, Reads};

mod items;

use hls_io::Bytes;
use std::alloc::{AllocError, Global};
use verilog_text::text::Text;
use verilog_tree::tree::Net;

/// The text of a net: one item a line, indented by two spaces a level, with a line feed at the end.
///
/// A net reads as the tokens of its tree. Where none of its lists is empty of which the grammar asks for one, as in
/// each well-formed net, its text reads as that net, and as no other.
pub fn write(alloc: Global, net: &Net) -> Result<Bytes, AllocError>
    ensures tokens { IfOk result (λ text. Splits text (g.net net.now)) }
    ensures reads { IfOk result (λ text. IsFull net.now → Reads text net.now) }
{
    let mut out = Text::new(alloc);
    items::net(&mut out, net)?;
    out.finish()
}
