use hls_io::Bytes;
use hls_status::status::Status;
use journal_text::entry::Entry;
use sqlite_items::Items;

/// What a call answers: its status, the Verilog text once there was one, and the journal of a run.
#[derive(Drop)]
pub struct Outcome {
    pub status: Status,
    /// The Verilog text of a build, and of one that ran; else it is empty.
    pub text: Bytes,
    /// The journal that a run made, or that a replay did again; else it is empty.
    pub journal: Items<Entry>,
}
