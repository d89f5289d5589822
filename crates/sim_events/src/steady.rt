// Steps that hang on the words of signals alone: on no choice, and on no memory.

ghost use Rattle.std.specs.Prelude.{◌≡◌, slice_get};
ghost use Rattle.sim_events.specs.Events.{steady, steady_value, steady_source, steady_module};

use netlist::netlist::{Module, Source, Value};
use sim_values::settle::Feed;
use sqlite_items::at;

fn is_steady_source(source: &Source) -> bool
    ensures { result ≡ steady_source source.now }
{
    match source {
        Source::Assigned(value) => !matches!(value, Value::MemoryRead { .. }),
        Source::Input | Source::Register(_) | Source::Port { .. } => true,
    }
}

fn is_steady_signal(modules: &[Module], number: usize, signal: usize) -> bool
    ensures { result ≡ steady_module signal (slice_get modules.now number) }
{
    let Some(module) = at(modules, number) else {
        return true;
    };
    match at(module.signals.as_slice(), signal) {
        Some(found) => is_steady_source(&found.source),
        None => true,
    }
}

/// Whether a feed hangs on the words of signals alone.
pub(crate) fn is_steady(modules: &[Module], feed: Feed) -> bool
    ensures { result ≡ steady modules.now feed }
{
    match feed {
        Feed::Zero | Feed::Copied(_) => true,
        Feed::Enables | Feed::Preferred(_) => false,
        Feed::Computed { module, signal, .. } => is_steady_signal(modules, module, signal),
    }
}
