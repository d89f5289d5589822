// The operators of blocks on words.

ghost use Rattle.std.specs.Prelude.{◌≡◌, true, ℤ, if◌then◌else◌, IfOk, IsTrue};
ghost use Rattle.hls_ints.specs.Types.{IntegerType};
ghost use Rattle.hls_ints.specs.Words.{word_difference, word_complement, word_equal, right_shift, arithmetic_shift};
ghost use Rattle.operator_words.specs.Arithmetic.{unary_at, binary_at, unary_total, binary_total, is_shift};
ghost use Rattle.circuit.specs.Readings.{width, binary, divided, signed_divided};
ghost use Rattle.operator_words.specs.Shown.{unary_result, binary_result, IsRight};
ghost use Rattle.operator_wires.specs.Gives.{Gives};
ghost use Rattle.operator_wires.specs.Words.{Makes, Becomes, Combine, Applies, Joins, TakesRight};
ghost use Rattle.operator_wires.specs.Added.{IsConverted, IsOfTwo, LikeOne, LikeTwo, LikeLeft, TruthOf, TruthOfOne, TruthOfTwo, BitOfTwo, QuotientOf, GateAdds, UnaryAdds, OwnAdds, RightAdds};
ghost use Rattle.operator_wires.specs.Numbers.{less_number};

use crate::wires::Wires;
use crate::words::Word;
use c_program::tree::{BinaryOperator, UnaryOperator};
use hls_ints::CType;
use netlist::netlist::Value;
use std::alloc::AllocError;
use verilog_tree::tree::{BinaryOperator as Gate, DivisionOperator};

/// The type of what a unary operator gives that works at a type.
pub fn unary_type(operator: UnaryOperator, ty: CType) -> CType
    ensures { result ≡ unary_result operator ty }
{
    match operator {
        UnaryOperator::Not => CType::INT,
        UnaryOperator::Plus | UnaryOperator::Minus | UnaryOperator::Complement => ty,
    }
}

/// The type of what a binary operator gives that works at a type.
pub fn binary_type(operator: BinaryOperator, ty: CType) -> CType
    ensures { result ≡ binary_result operator ty }
{
    match operator {
        BinaryOperator::Less
        | BinaryOperator::Greater
        | BinaryOperator::LessEqual
        | BinaryOperator::GreaterEqual
        | BinaryOperator::Equal
        | BinaryOperator::NotEqual => CType::INT,
        BinaryOperator::Multiply
        | BinaryOperator::Divide
        | BinaryOperator::Remainder
        | BinaryOperator::Add
        | BinaryOperator::Subtract
        | BinaryOperator::ShiftLeft
        | BinaryOperator::ShiftRight
        | BinaryOperator::And
        | BinaryOperator::ExclusiveOr
        | BinaryOperator::InclusiveOr => ty,
    }
}

fn is_shift(operator: BinaryOperator) -> bool
    ensures { result ≡ is_shift operator }
{
    matches!(
        operator,
        BinaryOperator::ShiftLeft | BinaryOperator::ShiftRight
    )
}

/// Another signal for a value of the same type.
fn at_place(word: Word, place: usize) -> Word
    ensures place { result.place ≡ place }
    ensures width { result.width ≡ word.width }
    ensures signed { result.signed ≡ word.signed }
{
    Word {
        place,
        width: word.width,
        signed: word.signed,
    }
}

impl Wires {
    /// A unary operator that works at a type.
    pub fn unary(
        &mut self,
        operator: UnaryOperator,
        ty: CType,
        operand: Word,
    ) -> Result<Word, AllocError>
        ensures shows { IfOk result (Becomes self.old.signals self.new.signals operand (unary_result operator ty) (unary_total operator ty)) }
        ensures wired { IfOk result (IsConverted self.old.signals self.new.signals operand (unary_result operator ty)) }
    {
        let own = self.converted(operand, ty)?;
        self.unary_own(operator, own)
    }

    /// A unary operator on a word of the type at which it works.
    fn unary_own(&mut self, operator: UnaryOperator, own: Word) -> Result<Word, AllocError>
        ensures shows { IfOk result (λ out. (ty : IntegerType) → Applies self.old.signals self.new.signals own ty (unary_result operator ty) (unary_at operator ty) out) }
        ensures wired { IfOk result (UnaryAdds self.old.signals self.new.signals operator own) }
    {
        match operator {
            UnaryOperator::Plus => Ok(own),
            UnaryOperator::Minus => self.negated(own),
            UnaryOperator::Complement => self.complement(own),
            UnaryOperator::Not => self.zero_word(own),
        }
    }

    fn negated(&mut self, own: Word) -> Result<Word, AllocError>
        ensures shows { IfOk result (Makes self.old.signals self.new.signals own.width own.signed (λ m r. word_difference own.width 0 (r.signal own.place))) }
        ensures wired { IfOk result (LikeOne self.old.signals self.new.signals own) }
    {
        let zero = self.constant(own.width, 0)?;
        let place = self.binary(own.width, Gate::Subtract, zero, own.place)?;
        Ok(at_place(own, place))
    }

    fn complement(&mut self, own: Word) -> Result<Word, AllocError>
        ensures shows { IfOk result (Makes self.old.signals self.new.signals own.width own.signed (λ m r. word_complement (width m own.place) (r.signal own.place))) }
        ensures wired { IfOk result (LikeOne self.old.signals self.new.signals own) }
    {
        let place = self.not(own.width, own.place)?;
        Ok(at_place(own, place))
    }

    /// The int 1 of a value that is 0, and else 0.
    fn zero_word(&mut self, own: Word) -> Result<Word, AllocError>
        ensures shows { IfOk result (Makes self.old.signals self.new.signals 32 true (λ m r. word_equal (width m own.place) (r.signal own.place) 0)) }
        ensures wired { IfOk result (TruthOfOne self.old.signals self.new.signals own) }
    {
        let bit = self.is_number(own.width, own.place, 0)?;
        self.truth(bit)
    }

    /// A binary operator that works at a type. The count of a shift has a type of its own.
    pub fn binary_word(
        &mut self,
        operator: BinaryOperator,
        ty: CType,
        left: Word,
        right: Word,
    ) -> Result<Word, AllocError>
        ensures shows { IfOk result (Combine self.old.signals self.new.signals left right (binary_result operator ty) (binary_total operator ty)) }
        ensures wired { IfOk result (IsOfTwo self.old.signals self.new.signals left right (binary_result operator ty)) }
    {
        let own = self.converted(left, ty)?;
        let other = self.right_operand(operator, ty, right)?;
        self.binary_own(operator, own, other)
    }

    /// The right operand: converted to the type at which the operator works, but for the count of a shift.
    fn right_operand(
        &mut self,
        operator: BinaryOperator,
        ty: CType,
        right: Word,
    ) -> Result<Word, AllocError>
        ensures shows { IfOk result (TakesRight self.old.signals self.new.signals operator ty right) }
        ensures wired { IfOk result (RightAdds self.old.signals self.new.signals operator ty right) }
    {
        if is_shift(operator) {
            Ok(right)
        } else {
            self.converted(right, ty)
        }
    }

    /// A binary operator on words of the type at which it works.
    fn binary_own(
        &mut self,
        operator: BinaryOperator,
        left: Word,
        right: Word,
    ) -> Result<Word, AllocError>
        ensures shows { IfOk result (λ out. (s t : IntegerType) → IsRight operator s t → Joins self.old.signals self.new.signals left right s t (binary_result operator s) (binary_at operator s) out) }
        ensures wired { IfOk result (OwnAdds self.old.signals self.new.signals operator left right) }
    {
        match operator {
            BinaryOperator::Multiply => self.gate(Gate::Multiply, left, right),
            BinaryOperator::Divide => self.divided(DivisionOperator::Quotient, left, right),
            BinaryOperator::Remainder => self.divided(DivisionOperator::Remainder, left, right),
            BinaryOperator::Add => self.gate(Gate::Add, left, right),
            BinaryOperator::Subtract => self.gate(Gate::Subtract, left, right),
            BinaryOperator::ShiftLeft => self.gate(Gate::ShiftLeft, left, right),
            BinaryOperator::ShiftRight => self.shifted_right(left, right),
            BinaryOperator::Less => self.less_word(left, right),
            BinaryOperator::Greater => self.less_word(right, left),
            BinaryOperator::LessEqual => self.not_less_word(right, left),
            BinaryOperator::GreaterEqual => self.not_less_word(left, right),
            BinaryOperator::Equal => self.equal_word(left, right),
            BinaryOperator::NotEqual => self.unequal_word(left, right),
            BinaryOperator::And => self.gate(Gate::And, left, right),
            BinaryOperator::ExclusiveOr => self.gate(Gate::Xor, left, right),
            BinaryOperator::InclusiveOr => self.gate(Gate::Or, left, right),
        }
    }

    /// An operator whose result has the type of the left operand.
    fn gate(&mut self, operator: Gate, left: Word, right: Word) -> Result<Word, AllocError>
        ensures shows { IfOk result (Makes self.old.signals self.new.signals left.width left.signed (λ m r. binary operator (width m left.place) (r.signal left.place) (r.signal right.place))) }
        ensures wired { IfOk result (GateAdds self.old.signals self.new.signals operator left right) }
    {
        let place = self.binary(left.width, operator, left.place, right.place)?;
        Ok(at_place(left, place))
    }

    /// A quotient or a remainder, 0 where the divisor is 0.
    fn divided(
        &mut self,
        operator: DivisionOperator,
        left: Word,
        right: Word,
    ) -> Result<Word, AllocError>
        ensures shows { IfOk result (Makes self.old.signals self.new.signals left.width left.signed (λ m r. if left.signed then signed_divided operator (width m left.place) (r.signal
            left.place) (r.signal right.place) else divided operator (width m left.place) (r.signal left.place) (r.signal right.place))) }
        ensures wired { IfOk result (LikeTwo self.old.signals self.new.signals left right) }
    {
        let place = self.division(operator, left, right)?;
        Ok(at_place(left, place))
    }

    fn division(
        &mut self,
        operator: DivisionOperator,
        left: Word,
        right: Word,
    ) -> Result<usize, AllocError>
        ensures shows { IfOk result (λ place. Gives self.old.signals self.new.signals place left.width (λ m r. if left.signed then signed_divided operator (width m left.place) (r.signal
            left.place) (r.signal right.place) else divided operator (width m left.place) (r.signal left.place) (r.signal right.place))) }
        ensures wired { IfOk result (QuotientOf self.old.signals self.new.signals left right) }
    {
        let left_place = left.place;
        let right_place = right.place;
        if left.signed {
            let value = Value::SignedDivision {
                operator,
                left: left_place,
                right: right_place,
            };
            self.wire(left.width, value)
        } else {
            let value = Value::Division {
                operator,
                left: left_place,
                right: right_place,
            };
            self.wire(left.width, value)
        }
    }

    /// Zeros come in, or copies of the sign.
    fn shifted_right(&mut self, left: Word, right: Word) -> Result<Word, AllocError>
        ensures shows { IfOk result (Makes self.old.signals self.new.signals left.width left.signed (λ m r. if left.signed then arithmetic_shift (width m left.place) (r.signal left.place)
            (r.signal right.place) else right_shift (width m left.place) (r.signal left.place) (r.signal right.place))) }
        ensures wired { IfOk result (LikeLeft self.old.signals self.new.signals left right) }
    {
        if left.signed {
            let value = Value::ArithmeticShiftRight {
                left: left.place,
                right: right.place,
            };
            let place = self.wire(left.width, value)?;
            Ok(at_place(left, place))
        } else {
            self.gate(Gate::ShiftRight, left, right)
        }
    }

    /// Whether a value is less than another one of its type.
    fn less(&mut self, left: Word, right: Word) -> Result<usize, AllocError>
        ensures shows { IfOk result (λ place. Gives self.old.signals self.new.signals place 1 (λ m r. less_number left.signed (width m left.place) (r.signal left.place) (r.signal right.place))) }
        ensures wired { IfOk result (BitOfTwo self.old.signals self.new.signals left right) }
    {
        if left.signed {
            let value = Value::SignedLess {
                left: left.place,
                right: right.place,
            };
            self.wire(1, value)
        } else {
            self.binary(1, Gate::Less, left.place, right.place)
        }
    }

    fn less_word(&mut self, left: Word, right: Word) -> Result<Word, AllocError>
        ensures shows { IfOk result (Makes self.old.signals self.new.signals 32 true (λ m r. less_number left.signed (width m left.place) (r.signal left.place) (r.signal right.place))) }
        ensures wired { IfOk result (TruthOfTwo self.old.signals self.new.signals left right) }
    {
        let bit = self.less(left, right)?;
        self.truth(bit)
    }

    fn not_less_word(&mut self, left: Word, right: Word) -> Result<Word, AllocError>
        ensures shows { IfOk result
            (Makes self.old.signals self.new.signals 32 true (λ m r. word_complement 1 (less_number left.signed (width m left.place) (r.signal left.place) (r.signal right.place)))) }
        ensures wired { IfOk result (TruthOfTwo self.old.signals self.new.signals left right) }
    {
        let bit = self.less(left, right)?;
        self.turned_word(bit)
    }

    fn equal_word(&mut self, left: Word, right: Word) -> Result<Word, AllocError>
        ensures shows { IfOk result (Makes self.old.signals self.new.signals 32 true (λ m r. word_equal (width m left.place) (r.signal left.place) (r.signal right.place))) }
        ensures wired { IfOk result (TruthOfTwo self.old.signals self.new.signals left right) }
    {
        let bit = self.binary(1, Gate::Equal, left.place, right.place)?;
        self.truth(bit)
    }

    fn unequal_word(&mut self, left: Word, right: Word) -> Result<Word, AllocError>
        ensures shows { IfOk result (Makes self.old.signals self.new.signals 32 true (λ m r. word_complement 1 (word_equal (width m left.place) (r.signal left.place) (r.signal right.place)))) }
        ensures wired { IfOk result (TruthOfTwo self.old.signals self.new.signals left right) }
    {
        let bit = self.binary(1, Gate::Equal, left.place, right.place)?;
        self.turned_word(bit)
    }

    /// The int 1 or 0 of a bit that is turned.
    fn turned_word(&mut self, bit: usize) -> Result<Word, AllocError>
        ensures shows { IfOk result (Makes self.old.signals self.new.signals 32 true (λ m r. word_complement (width m bit) (r.signal bit))) }
        ensures wired { IfOk result (TruthOf self.old.signals self.new.signals bit) }
    {
        let turned = self.not(1, bit)?;
        self.truth(turned)
    }
}
