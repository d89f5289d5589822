// How many bytes of one class stand at the front of a text.

ghost use Rattle.std.specs.Prelude.{◌≡◌, ◌≤◌, false, length};
ghost use Rattle.verilog_tree.specs.Spelling as spelling;
ghost use Rattle.verilog_lexer.specs.Runs as spec;

/// Which bytes go on.
#[derive(Clone, Copy)]
pub(crate) enum Run {
    Name,
    Digits,
}

pub(crate) fn is_letter(b: u8) -> bool
    ensures { result ≡ spelling.is_letter b }
{
    b.is_ascii_alphabetic() || b == b'_'
}

fn goes_on(run: Run, b: u8) -> bool
    ensures { result ≡ spec.goes_on run b }
{
    match run {
        Run::Name => is_letter(b) || b.is_ascii_digit(),
        Run::Digits => b.is_ascii_digit(),
    }
}

/// How many bytes of the run stand at the front of the text.
#[tactic(auto, unfolding(crate::specs::Runs::run_len))]
pub(crate) fn run_len(run: Run, text: &[u8]) -> usize
    ensures value { result ≡ spec.run_len run text.now }
    ensures within { result ≤ length text.now }
{
    let mut rest = text;
    while let [b, more @ ..] = rest {
        if !goes_on(run, *b) {
            break;
        }
        rest = more;
    }
    text.len() - rest.len()
}

/// How many bytes stand before the closing quote, where the text stands behind the opening one.
#[tactic(auto, unfolding(crate::specs::Runs::quoted_len))]
pub(crate) fn quoted_len(text: &[u8]) -> Option<usize>
    ensures { result ≡ spec.quoted_len 0 false text.now }
{
    let mut rest = text;
    let mut len = 0;
    let mut escaped = false;
    while let [b, more @ ..] = rest {
        if *b == b'"' && !escaped {
            return Some(len);
        }
        if !(b' '..=b'~').contains(b) {
            return None;
        }
        len += 1;
        escaped = *b == b'\\' && !escaped;
        rest = more;
    }
    None
}
