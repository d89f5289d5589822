// Blanks and comments.

ghost use Rattle.std.specs.Prelude.{◌≡◌, false};
ghost use Rattle.verilog_tree.specs.Tokens as spec;

fn is_blank(b: u8) -> bool
    ensures { result ≡ spec.is_blank b }
{
    matches!(b, b' ' | b'\t' | b'\n' | b'\r')
}

fn begins_slash(text: &[u8]) -> bool
    ensures { result ≡ spec.begins_slash text.now }
{
    matches!(text, [b'/', ..])
}

/// What stands behind the blanks and comments at the front of the text.
#[tactic(auto, unfolding(verilog_tree::specs::Tokens::skip))]
pub(crate) fn behind_blanks(text: &[u8]) -> &[u8]
    ensures { result.now ≡ spec.skip false text.now }
{
    let mut rest = text;
    let mut in_comment = false;
    while let [b, more @ ..] = rest {
        if in_comment {
            in_comment = *b != b'\n';
        } else if !is_blank(*b) {
            if *b != b'/' || !begins_slash(more) {
                return rest;
            }
            in_comment = true;
        }
        rest = more;
    }
    rest
}
