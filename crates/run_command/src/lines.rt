// The lines on err of a run and of a replay.

ghost use Rattle.std.specs.Prelude.{◌≡◌, ◌++◌, IfOk, string_bytes};
ghost use Rattle.run_command.specs.Lines as lines;

use crate::count::cycles_of;
use hls_io::Bytes;
use journal_laws::verdict::Verdict;
use journal_text::entry::Entry;
use journal_text::spelling::spelled;
use std::alloc::{AllocError, Global};

fn verdict_word(verdict: Verdict) -> &'static str
    ensures { result.now ≡ lines.verdict_word verdict }
{
    match verdict {
        Verdict::Done => "done",
        Verdict::Stuck => "stuck",
        Verdict::Entries => "entries",
    }
}

fn verdict_line(
    alloc: Global,
    verdict: Verdict,
    entries: usize,
    cycles: u128,
) -> Result<String, AllocError>
    ensures { IfOk result (λ s. string_bytes s ≡ lines.verdict_line verdict entries cycles) }
{
    let word = verdict_word(verdict);
    format!(in alloc; "hls: {word}, {entries} entries, {cycles} cycles\n")
}

/// The line of a verdict on a journal.
pub fn summary(alloc: Global, journal: &[Entry], verdict: Verdict) -> Result<String, AllocError>
    ensures { IfOk result (λ s. string_bytes s ≡ lines.summary journal.now verdict) }
{
    verdict_line(alloc, verdict, journal.len(), cycles_of(journal))
}

/// The line of an entry that is not legal, or misspelt.
pub fn bad_entry_line(alloc: Global, index: usize) -> Result<String, AllocError>
    ensures { IfOk result (λ s. string_bytes s ≡ lines.bad_entry_line index) }
{
    format!(in alloc; "hls: bad entry {index}\n")
}

fn listed_lines(alloc: Global, listed: bool, journal: &[Entry]) -> Result<Bytes, AllocError>
    ensures { IfOk result (λ b. b ≡ lines.listed_lines listed journal.now) }
{
    if listed {
        spelled(alloc, journal)
    } else {
        Ok(Bytes::new(alloc))
    }
}

/// The lines of a run: those of its journal, where they are asked for, and that of its verdict.
pub fn run_lines(
    alloc: Global,
    listed: bool,
    journal: &[Entry],
    verdict: Verdict,
) -> Result<Bytes, AllocError>
    ensures { IfOk result (λ b. b ≡ lines.listed_lines listed journal.now ++ lines.summary journal.now verdict) }
{
    let mut text = listed_lines(alloc, listed, journal)?;
    let line = summary(alloc, journal, verdict)?;
    text.put(line.as_bytes())?;
    Ok(text)
}
