// How many cycles a journal has.

ghost use Rattle.std.specs.Prelude.{◌≡◌, ◌≤◌, ◌^◌};
ghost use Rattle.run_command.specs.Counts.{entry_cycles, cycle_count, AreItsChoices};

use journal_text::entry::Entry;

fn cycles_of_entry(entry: Entry) -> u128
    ensures cycles { result ≡ entry_cycles entry }
    ensures few { result ≤ 2 ^ 64 }
{
    if entry.opened {
        entry.closed as u128 + 1
    } else {
        entry.closed as u128
    }
}

/// How many cycles the entries of a journal have.
pub fn cycles_of(journal: &[Entry]) -> u128
    ensures { result ≡ cycle_count journal.now }
{
    let mut cycles = 0;
    for number in 0..journal.len() {
        cycles += cycles_of_entry(journal[number]);
    }
    cycles
}

/// They are as many as the choices of the journal.
pub fn counts_choices()
    ensures { AreItsChoices }
{}
