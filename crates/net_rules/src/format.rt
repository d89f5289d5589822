// The string of a `$write`.

ghost use Rattle.std.specs.Prelude.{◌≡◌};
ghost use Rattle.verilog_tree.specs.Rules as rule;
ghost use Rattle.net_rules.specs.Format.{formatting};

/// Where a string stands: between characters and values, behind `%`, behind `%0`, behind `\`, right behind a value,
/// or at what it may not have.
#[derive(Clone, Copy)]
pub enum Formatting {
    Between,
    Percent,
    Zero,
    Backslash,
    Value,
    Wrong,
}

/// Where the string stands after the byte.
fn next(at: Formatting, byte: u8) -> Formatting
    ensures { formatting result ≡ rule.next (formatting at) byte }
{
    match at {
        Formatting::Between | Formatting::Value => match byte {
            b'%' => Formatting::Percent,
            b'\\' => Formatting::Backslash,
            _ => Formatting::Between,
        },
        Formatting::Percent => match byte {
            b'%' => Formatting::Between,
            b'0' => Formatting::Zero,
            _ => Formatting::Wrong,
        },
        Formatting::Zero => match byte {
            b'd' => Formatting::Value,
            _ => Formatting::Wrong,
        },
        Formatting::Backslash => match byte {
            b'n' | b't' | b'\\' | b'"' => Formatting::Between,
            _ => Formatting::Wrong,
        },
        Formatting::Wrong => Formatting::Wrong,
    }
}

/// The number of `%0d` in a string; None where it has another `%` than that and `%%`, or a backslash with another
/// byte than `n`, `t`, `\` and `"`.
pub fn values_in(text: &[u8]) -> Option<usize>
    ensures { result ≡ rule.values_in rule.Between text.now }
{
    let mut at = Formatting::Between;
    let mut values = 0;
    for byte in text {
        at = next(at, *byte);
        if matches!(at, Formatting::Value) {
            values += 1;
        }
    }
    match at {
        Formatting::Between | Formatting::Value => Some(values),
        _ => None,
    }
}
