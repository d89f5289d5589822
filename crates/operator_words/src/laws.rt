// The laws of operators on words. The function takes and answers nothing: its contract is the laws.

ghost use Rattle.operator_words.specs.Shown.{UnaryShows, BinaryShows, UnaryKeepsType, BinaryKeepsType, LowBitsShow, ZerosShow, SignShows};

/// What operators on words show.
pub fn operators_show()
    // Every unary operator shows its value on the word of its operand, and gives a value of its result's type.
    ensures unary_shows { UnaryShows }
    ensures unary_keeps_type { UnaryKeepsType }
    // Every binary operator shows its value on the words of its operands, and gives a value of its result's type. The count of a shift
    // may have any type and value.
    ensures binary_shows { BinaryShows }
    ensures binary_keeps_type { BinaryKeepsType }
    // Conversions by wires show the converted value.
    ensures low_bits_show { LowBitsShow }
    ensures zeros_show { ZerosShow }
    ensures sign_shows { SignShows }
{}
