ghost use Rattle.std.specs.Prelude.{◌≡◌};
ghost use Rattle.hls_commands.specs.Inside.{line_bytes, out_bytes};

use hls_io::Bytes;
use hls_status::status::Status;
use journal_text::entry::Entry;
use sqlite_items::Items;

/// What goes to out.
#[derive(Drop)]
pub enum Out {
    Nothing,
    /// The Verilog text.
    Text,
    /// What the program printed, or what is told of it.
    Printed(Bytes),
}

impl Out {
    /// The bytes that go to out, where `text` is the Verilog text.
    pub fn as_slice<'a>(&'a self, text: &'a Bytes) -> &'a [u8]
        ensures { result.now ≡ out_bytes text.now self.now }
    {
        match self {
            Out::Nothing => &[],
            Out::Text => text.as_slice(),
            Out::Printed(bytes) => bytes.as_slice(),
        }
    }
}

/// What goes to err: a line, or several.
#[derive(Drop)]
pub enum Line {
    Fixed(&'static [u8]),
    Made(String),
    Lines(Bytes),
}

impl Line {
    /// The bytes that go to err.
    pub fn as_slice(&self) -> &[u8]
        ensures { result.now ≡ line_bytes self.now }
    {
        match self {
            Line::Fixed(bytes) => *bytes,
            Line::Made(text) => text.as_bytes(),
            Line::Lines(bytes) => bytes.as_slice(),
        }
    }
}

/// What a call owes before it writes anything.
#[derive(Drop)]
pub struct Answer {
    pub status: Status,
    pub text: Bytes,
    pub journal: Items<Entry>,
    pub out: Out,
    pub line: Line,
}
