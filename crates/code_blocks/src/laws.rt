// Laws that lowering rests on. Each function takes and answers nothing: its contract is the law.
ghost use Rattle.code_blocks.specs.Arithmetic.{UnaryIsRight, BinaryIsRight};

/// Where C gives an operator a value, the operation gives it.
#[tactic(auto, using(crate::proofs::Operators::unary_right, crate::proofs::Operators::binary_right))]
pub fn operations_give_values()
    ensures unary { UnaryIsRight }
    ensures binary { BinaryIsRight }
{}
