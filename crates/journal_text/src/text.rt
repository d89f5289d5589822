// The journal before a text.

ghost use Rattle.std.specs.Prelude.{◌≡◌, ◌+◌, ◌≤◌, ℕ, true, false, Some, None, length, take, drop, slice_index, IfOk, OnOk};
ghost use Rattle.journal_text.specs.Lines as lines;
ghost use Rattle.journal_text.specs.Texts.{IsParted, ReadsOn};

use crate::entry::Entry;
use crate::spelling::entry_of;
use sqlite_items::Items;
use std::alloc::{AllocError, Global};

/// The entries that the leading lines of a text spell before the first that spells none, the number of that line, and where the rest
/// begins.
#[derive(Drop)]
pub struct JournalText {
    pub entries: Items<Entry>,
    pub bad: Option<usize>,
    pub rest: usize,
}

fn byte_at(text: &[u8], number: usize) -> u8
    ensures { result ≡ slice_index text.now number }
{
    if number < text.len() { text[number] } else { 0 }
}

fn begins(text: &[u8]) -> bool
    ensures { result ≡ lines.begins text.now }
{
    byte_at(text, 0) == 47 && byte_at(text, 1) == 47 && byte_at(text, 2) == 64
}

/// How long the first line is, with its line feed.
fn line_long(text: &[u8]) -> usize
    ensures long { result ≡ lines.line_long text.now }
    ensures within { result ≤ length text.now }
{
    for number in 0..text.len() {
        if text[number] == 10 {
            return number + 1;
        }
    }
    text.len()
}

/// What stands from a place on.
fn behind(text: &[u8], place: usize) -> &[u8]
    requires { place ≤ length text.now }
    ensures { result.now ≡ drop place text.now }
{
    &text[place..]
}

fn front(text: &[u8], count: usize) -> &[u8]
    requires { count ≤ length text.now }
    ensures { result.now ≡ take count text.now }
{
    &text[..count]
}

fn one_more(count: usize) -> Result<usize, AllocError>
    ensures { IfOk result (λ n. n ≡ count + 1) }
{
    count.checked_add(1).ok_or(AllocError)
}

/// What the lines so far read as, and how many they are.
#[derive(Drop)]
pub struct Reading {
    pub entries: Vec<Entry>,
    pub bad: Option<usize>,
    pub lines: usize,
}

impl Reading {
    /// Whether all lines so far spell entries.
    fn is_good(&self) -> bool
        ensures good { result ≡ true → self.now.bad ≡ None }
        ensures bad { result ≡ false → (k : ℕ) × (self.now.bad ≡ Some k) }
    {
        self.bad.is_none()
    }

    /// One line more.
    #[tactic(auto, using(crate::proofs::JournalLines::spelled_more, crate::proofs::JournalLines::misspelt_here, crate::proofs::JournalLines::misspelt_more))]
    fn add(&mut self, line: &[u8]) -> Result<(), AllocError>
        ensures { OnOk result (ReadsOn self.old line.now self.new) }
    {
        let lines = one_more(self.lines)?;
        if !self.is_good() {
            self.lines = lines;
            return Ok(());
        }
        if let Some(entry) = entry_of(line) {
            self.entries.push(entry)?;
            self.lines = lines;
            return Ok(());
        }
        self.bad = Some(self.lines);
        self.lines = lines;
        Ok(())
    }
}

/// Parts a text into the journal that it begins with and the rest.
pub fn parted(alloc: Global, text: &[u8]) -> Result<JournalText, AllocError>
    ensures { IfOk result (λ p. IsParted text.now p.entries p.bad p.rest) }
{
    let mut reading = Reading {
        entries: Vec::new(alloc),
        bad: None,
        lines: 0,
    };
    let mut rest = 0;
    for _turn in 0..usize::MAX {
        let left = behind(text, rest);
        if !begins(left) {
            return Ok(JournalText {
                entries: Items::from_vec(reading.entries),
                bad: reading.bad,
                rest,
            });
        }
        let long = line_long(left);
        reading.add(front(left, long))?;
        rest += long;
    }
    Err(AllocError)
}
