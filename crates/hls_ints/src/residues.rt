// Numbers and the words of 1 to 64 bits that stand for them in two's complement.
ghost use Rattle.std.specs.Prelude.{◌≡◌, ◌≤◌, ◌<◌, ◌^◌, ◌-◌, pos, ◌≤ℤ◌, ◌<ℤ◌, neg_ℤ, IsTrue};
ghost use Rattle.hls_ints.specs.Residues.{residue_of, signed_value_of};
ghost use Rattle.hls_ints.specs.Types.{in_signed_range};

/// The number modulo 2 to the width: its bits in two's complement.
#[tactic(auto, unfolding(crate::specs::Residues::residue_of))]
pub fn residue(width: u32, number: i128) -> u64
    requires { width ≤ 64 }
    ensures value { result ≡ residue_of width number }
    ensures below { result < 2 ^ width }
{
    number.rem_euclid(1i128 << width) as u64
}

/// The number that the low bits of the word spell in two's complement.
#[tactic(auto, unfolding(crate::specs::Residues::signed_value_of))]
pub fn signed_value(width: u32, word: u64) -> i128
    requires at_least { 1 ≤ width }
    requires at_most { width ≤ 64 }
    requires below { word < 2 ^ width }
    ensures value { result ≡ signed_value_of width word }
    ensures range { IsTrue (in_signed_range (2 ^ (width - 1)) result) }
{
    if word < 1u64 << (width - 1) {
        word as i128
    } else {
        word as i128 - (1i128 << width)
    }
}
