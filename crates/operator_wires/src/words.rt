// Words: signals that show values of integer types by their residues, and their conversions.

ghost use Rattle.std.specs.Prelude.{◌≡◌, ◌+◌, ◌-◌, ◌*◌, ◌/◌, ◌%◌, ◌^◌, true, IfOk};
ghost use Rattle.hls_ints.specs.Types.{width_of, wrapped};
ghost use Rattle.circuit.specs.Readings.{width, repeated};
ghost use Rattle.operator_wires.specs.Gives.{Gives};
ghost use Rattle.operator_wires.specs.Words.{Resizes, Makes, Holds, TestsZero, Becomes};
ghost use Rattle.operator_wires.specs.Added.{ResizedAdds, LowAdds, SignAdds, ZerosAdds, IsConverted, IsConstant, TruthOf, BitOfOne};

use crate::wires::Wires;
use hls_ints::{CType, residue};
use netlist::netlist::Value;
use std::alloc::AllocError;

/// A signal that is as wide as a type, and shows a value of the type modulo 2 to the width.
#[derive(Clone, Copy)]
pub struct Word {
    pub place: usize,
    pub width: u64,
    /// Whether the type has negative values.
    pub signed: bool,
}

impl Word {
    /// The signal at a place, which shows a value of a type.
    pub fn of_type(place: usize, ty: CType) -> Word
        ensures place { result.place ≡ place }
        ensures width { result.width ≡ width_of ty }
        ensures signed { result.signed ≡ ty.signed }
    {
        Word {
            place,
            width: u64::from(ty.bits()),
            signed: ty.is_signed(),
        }
    }
}

impl Wires {
    /// The low bits of a signal, or the signal with more bits, which are copies of the sign or zeros.
    pub fn resized(
        &mut self,
        of: usize,
        from: u64,
        to: u64,
        signed: bool,
    ) -> Result<usize, AllocError>
        ensures shows { IfOk result (Resizes self.old.signals self.new.signals of from to signed) }
        ensures wired { IfOk result (ResizedAdds self.old.signals self.new.signals of from to signed) }
    {
        if to < from {
            self.low_bits(of, to)
        } else if from == to {
            Ok(of)
        } else if signed {
            self.with_sign(of, from, to)
        } else {
            self.with_zeros(of, from, to)
        }
    }

    fn low_bits(&mut self, of: usize, to: u64) -> Result<usize, AllocError>
        ensures shows { IfOk result (λ place. Gives self.old.signals self.new.signals place to (λ m r. r.signal of % 2 ^ (to - 1 + 1))) }
        ensures wired { IfOk result (LowAdds self.old.signals self.new.signals of to) }
    {
        let high = to.saturating_sub(1);
        self.wire(to, Value::Select { of, high, low: 0 })
    }

    #[tactic(auto, using(crate::proofs::ResizedWords::sign_gives))]
    fn with_sign(&mut self, of: usize, from: u64, to: u64) -> Result<usize, AllocError>
        ensures shows { IfOk result (λ place. Gives self.old.signals self.new.signals place to
            (λ m r. repeated (to - from) 1 ((r.signal of / 2 ^ (from - 1)) % 2 ^ 1) * 2 ^ width m of + r.signal of)) }
        ensures wired { IfOk result (SignAdds self.old.signals self.new.signals of from to) }
    {
        let top = from.saturating_sub(1);
        let select = Value::Select {
            of,
            high: top,
            low: top,
        };
        let sign = self.wire(1, select)?;
        let count = to.saturating_sub(from);
        let fill = self.wire(count, Value::Replication { count, of: sign })?;
        let place = self.beside(to, fill, of)?;
        Ok(place)
    }

    fn with_zeros(&mut self, of: usize, from: u64, to: u64) -> Result<usize, AllocError>
        ensures shows { IfOk result (λ place. Gives self.old.signals self.new.signals place to (λ m r. r.signal of)) }
        ensures wired { IfOk result (ZerosAdds self.old.signals self.new.signals of from to) }
    {
        let zeros = self.constant(to.saturating_sub(from), 0)?;
        self.beside(to, zeros, of)
    }

    /// The value converted to a type (C99 6.3.1.3).
    pub fn converted(&mut self, word: Word, ty: CType) -> Result<Word, AllocError>
        ensures shows { IfOk result (Becomes self.old.signals self.new.signals word ty (wrapped ty)) }
        ensures wired { IfOk result (IsConverted self.old.signals self.new.signals word ty) }
    {
        let width = u64::from(ty.bits());
        let place = self.resized(word.place, word.width, width, word.signed)?;
        Ok(Word::of_type(place, ty))
    }

    /// A number modulo 2 to the width of a type.
    pub fn constant_word(&mut self, ty: CType, number: i128) -> Result<Word, AllocError>
        ensures shows { IfOk result (Holds self.old.signals self.new.signals ty (wrapped ty number)) }
        ensures wired { IfOk result (IsConstant self.old.signals self.new.signals ty) }
    {
        let place = self.constant(u64::from(ty.bits()), residue(ty.bits(), number))?;
        Ok(Word::of_type(place, ty))
    }

    /// The int 1 or 0 of a bit.
    pub fn truth(&mut self, bit: usize) -> Result<Word, AllocError>
        ensures shows { IfOk result (Makes self.old.signals self.new.signals 32 true (λ m r. r.signal bit)) }
        ensures wired { IfOk result (TruthOf self.old.signals self.new.signals bit) }
    {
        let place = self.with_zeros(bit, 1, 32)?;
        Ok(Word {
            place,
            width: 32,
            signed: true,
        })
    }

    /// Whether the value is 0.
    pub fn is_zero(&mut self, word: Word) -> Result<usize, AllocError>
        ensures shows { IfOk result (TestsZero self.old.signals self.new.signals word) }
        ensures wired { IfOk result (BitOfOne self.old.signals self.new.signals word) }
    {
        self.is_number(word.width, word.place, 0)
    }
}
