// The text of a journal.

use journal_text::entry::Entry;
use journal_text::spelling::spelled;
use journal_text::text::parted;
use std::alloc::{AllocError, Global};
use std::process::Abort;
use std::test::Fail;

/// What the two lines spell.
const ENTRIES: [Entry; 2] = [
    Entry {
        thread: 1,
        closed: 4096,
        opened: true,
    },
    Entry {
        thread: 0,
        closed: 0,
        opened: false,
    },
];

fn entries() -> &'static [Entry] {
    &ENTRIES
}

/// Two lines are read, and what stands behind them begins at byte 23.
fn is_read(alloc: Global) -> Result<bool, AllocError> {
    let parts = parted(alloc, b"//@ 1 4096 s\n//@ 0 0 -\nint main")?;
    Ok(parts.entries.as_slice() == entries() && parts.bad.is_none() && parts.rest == 23)
}

fn is_spelled(alloc: Global) -> Result<bool, AllocError> {
    let lines = spelled(alloc, entries())?;
    Ok(lines.as_slice() == b"//@ 1 4096 s\n//@ 0 0 -\n".as_slice())
}

#[test]
fn a_journal_is_read_and_spelled(rt: HostRuntime) -> Result<(), Fail> {
    let is_read = is_read(rt.alloc())?;
    let is_spelled = is_spelled(rt.alloc())?;
    assert!(rt; is_read && is_spelled);
    Ok(())
}

fn is_misspelt(alloc: Global, line: &str) -> Result<bool, AllocError> {
    let text = format!(in alloc; "//@ 1 2 -\n{line}")?;
    let parts = parted(alloc, text.as_bytes())?;
    Ok(parts.bad == Some(1usize) && parts.entries.len() == 1)
}

/// Of two lines the second spells no entry.
#[test]
fn a_misspelt_line_is_found(rt: HostRuntime) -> Result<(), Fail> {
    for line in [
        "//@\n",
        "//@ 1 2\n",
        "//@ 1 2 x\n",
        "//@ 01 2 s\n",
        "//@ 1  2 s\n",
        "//@ 12345678901 2 s\n",
        "//@ 1 2 s",
    ] {
        let is_misspelt = is_misspelt(rt.alloc(), line)?;
        if !is_misspelt {
            rt.panic(line);
        }
    }
    Ok(())
}
