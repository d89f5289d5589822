// The lines of a journal.

ghost use Rattle.std.specs.Prelude.{◌≡◌, Bool, false, ℕ, List, [], ◌∷◌, ◌++◌, None, Some, MatchOption, IsTrue, IfOk, OnOk, codes};
ghost use Rattle.journal_text.specs.declared.entry.Entry.{Entry as Line};
ghost use Rattle.journal_text.specs.Lines as lines;
ghost use Rattle.journal_text.specs.Lines.{mark, line_of, all_lines, ArePieces, AreFields, IsInside, Spells};

use crate::entry::Entry;
use crate::number::number_of;
use hls_io::{Bytes, put_dec};
use std::alloc::{AllocError, Global};

/// What stands before the first byte of a kind.
fn upto(text: &[u8], byte: u8) -> &[u8]
    ensures { result.now ≡ lines.upto byte text.now }
{
    for number in 0..text.len() {
        if text[number] == byte {
            return &text[..number];
        }
    }
    text
}

/// What stands behind it.
fn past(text: &[u8], byte: u8) -> Option<&[u8]>
    ensures { MatchOption result (lines.past byte text.now ≡ None) (λ rest. lines.past byte text.now ≡ Some rest.now) }
{
    for number in 0..text.len() {
        if text[number] == byte {
            return Some(&text[number + 1..]);
        }
    }
    None
}

/// Whether an open cycle follows, by its mark.
fn mark_of(text: &[u8]) -> Option<bool>
    ensures { MatchOption result ((b : Bool) → text.now ≡ mark b ∷ [] → ⊥) (λ b. text.now ≡ mark b ∷ []) }
{
    if text == "s".as_bytes() {
        Some(true)
    } else if text == "-".as_bytes() {
        Some(false)
    } else {
        None
    }
}

/// The entry of which these are the thread, the closed cycles and the mark.
fn entry_of_pieces(thread: &[u8], closed: &[u8], last: &[u8]) -> Option<Entry>
    ensures { MatchOption result ((e : Line) → ArePieces thread.now closed.now last.now e → ⊥) (ArePieces thread.now closed.now last.now) }
{
    match number_of(thread) {
        Some(thread) => match number_of(closed) {
            Some(closed) => match mark_of(last) {
                Some(opened) => Some(Entry {
                    thread,
                    closed,
                    opened,
                }),
                None => None,
            },
            None => None,
        },
        None => None,
    }
}

/// The entry whose fields a text is.
#[tactic(auto, using(crate::proofs::FieldCuts::no_behind, crate::proofs::FieldCuts::no_last, crate::proofs::FieldCuts::from_pieces, crate::proofs::FieldCuts::to_pieces))]
fn entry_in(text: &[u8]) -> Option<Entry>
    ensures { MatchOption result ((e : Line) → AreFields text.now e → ⊥) (AreFields text.now) }
{
    match past(text, 32) {
        Some(behind) => match past(behind, 32) {
            Some(last) => match entry_of_pieces(upto(text, 32), upto(behind, 32), last) {
                Some(entry) => Some(entry),
                None => None,
            },
            None => None,
        },
        None => None,
    }
}

fn is_start(head: &[u8]) -> bool
    ensures start { IsTrue result → head.now ≡ codes "//@" }
    ensures other { result ≡ false → head.now ≡ codes "//@" → ⊥ }
{
    head == "//@".as_bytes()
}

fn is_whole(head: &[u8], rest: &[u8]) -> bool
    ensures whole { IsTrue result → (head.now ≡ codes "//@") × (rest.now ≡ []) }
    ensures other { result ≡ false → (head.now ≡ codes "//@") × (rest.now ≡ []) → ⊥ }
{
    if !is_start(head) {
        return false;
    }
    rest.is_empty()
}

/// What stands between `//@ ` and the line feed of a line.
#[tactic(auto, using(crate::proofs::Inside::no_space, crate::proofs::Inside::no_feed, crate::proofs::Inside::is_whole_line, crate::proofs::Inside::is_inside))]
fn inside(line: &[u8]) -> Option<&[u8]>
    ensures { MatchOption result ((t : List ℕ) → IsInside line.now t → ⊥) (λ t. IsInside line.now t.now) }
{
    match past(line, 32) {
        Some(behind) => match past(behind, 10) {
            Some(rest) => {
                if is_whole(upto(line, 32), rest) {
                    Some(upto(behind, 10))
                } else {
                    None
                }
            }
            None => None,
        },
        None => None,
    }
}

/// The entry that a line spells.
#[tactic(auto, using(crate::proofs::Inside::fields_spell, crate::proofs::Inside::spelled_fields, crate::proofs::Inside::spelled_has))]
pub fn entry_of(line: &[u8]) -> Option<Entry>
    ensures { MatchOption result ((e : Line) → Spells line.now e → ⊥) (Spells line.now) }
{
    match inside(line) {
        Some(text) => match entry_in(text) {
            Some(entry) => Some(entry),
            None => None,
        },
        None => None,
    }
}

fn put_line(text: &mut Bytes, entry: Entry) -> Result<(), AllocError>
    ensures { OnOk result (text.new ≡ text.old ++ line_of entry) }
{
    text.put(b"//@ ")?;
    put_dec(text, entry.thread as i128)?;
    text.push(b' ')?;
    put_dec(text, entry.closed as i128)?;
    text.put(if entry.opened { b" s\n" } else { b" -\n" })
}

/// The text of a journal.
pub fn spelled(alloc: Global, entries: &[Entry]) -> Result<Bytes, AllocError>
    ensures { IfOk result (λ text. text ≡ all_lines entries.now) }
{
    let mut text = Bytes::new(alloc);
    for number in 0..entries.len() {
        put_line(&mut text, entries[number])?;
    }
    Ok(text)
}
