// Settling: each signal gets its number, in an order in which each reads only what has one.

ghost use Rattle.std.specs.Prelude.{◌≡◌, ℕ, slice_index, slice_set, slice_get, Some};
ghost use Rattle.netlist.specs.declared.netlist.Signal.{Signal};
ghost use Rattle.sim_values.specs.Flat.{Flat, flat_of, reading, IsNarrowSource, AreNarrow, source_number, signal_number, module_number, fed, settled};

use crate::value::{Now, Spot, item_at, value_at};
use netlist::netlist::{Module, Source};
use sqlite_items::{Items, at};

/// What a cycle is run under: the enabled threads, and the preferred thread of each arbiter.
pub struct Choice {
    pub en: u64,
    pub prefs: Items<u64>,
}

// A drop that is written here is proved here; a derived one is proved again in each crate that drops the type.

impl Drop for Choice {
    fn drop(self) {
        let Choice { en: _, prefs: _ } = self;
    }
}

/// What gives a word its number.
#[derive(Clone, Copy)]
pub enum Feed {
    Zero,
    Enables,
    Preferred(usize),
    /// The word of another signal.
    Copied(usize),
    /// The right side of signal `signal` of module `module`, in the instance at a spot.
    Computed {
        module: usize,
        signal: usize,
        spot: Spot,
    },
}

/// The word that is given its number, and what gives it.
#[derive(Clone, Copy)]
pub struct Step {
    pub target: usize,
    pub feed: Feed,
}

fn signal_value(module: &Module, spot: Spot, now: &Now, signal: usize) -> u64
    requires { (s : Signal) → slice_get module.now.signals signal ≡ Some s → IsNarrowSource module.now s.source }
    ensures { result ≡ signal_number module.now (reading spot (flat_of now.now)) (slice_get module.now.signals signal) }
{
    match at(module.signals.as_slice(), signal) {
        Some(found) => match &found.source {
            Source::Assigned(value) => value_at(module, spot, now, value),
            Source::Input | Source::Register(_) | Source::Port { .. } => 0,
        },
        None => 0,
    }
}

fn computed(modules: &[Module], number: usize, spot: Spot, now: &Now, signal: usize) -> u64
    requires { AreNarrow modules.now }
    ensures { result ≡ module_number (reading spot (flat_of now.now)) signal (slice_get modules.now number) }
{
    match at(modules, number) {
        Some(module) => signal_value(module, spot, now, signal),
        None => 0,
    }
}

/// The number that a feed gives, under a choice and in the words of now.
pub fn feed_number(modules: &[Module], choice: &Choice, now: &Now, feed: Feed) -> u64
    requires { AreNarrow modules.now }
    ensures { result ≡ fed modules.now (record { mask = choice.now.en; prefs = choice.now.prefs }) (flat_of now.now) feed }
{
    match feed {
        Feed::Zero => 0,
        Feed::Enables => choice.en,
        Feed::Preferred(number) => item_at(choice.prefs.as_slice(), number),
        Feed::Copied(from) => item_at(now.numbers, from),
        Feed::Computed {
            module,
            signal,
            spot,
        } => computed(modules, module, spot, now, signal),
    }
}

/// Changes the word at a place, where there is one.
pub fn set_item(numbers: &mut [u64], place: usize, number: u64)
    ensures { numbers.new ≡ slice_set numbers.old place number }
{
    if place < numbers.len() {
        numbers[place] = number;
    }
}

/// Gives each signal its number.
pub fn settle(
    modules: &[Module],
    steps: &[Step],
    choice: &Choice,
    numbers: &mut [u64],
    words: &[u64],
    starts: &[u64],
)
    requires { AreNarrow modules.now }
    ensures { numbers.new ≡ settled modules.now (record { mask = choice.now.en; prefs = choice.now.prefs })
        (record { numbers = numbers.old; words = words.now; starts = starts.now }) steps.now }
{
    for step in steps {
        let now = Now {
            numbers: &*numbers,
            words,
            starts,
        };
        let number = feed_number(modules, choice, &now, step.feed);
        set_item(numbers, step.target, number);
    }
}
