// The command `sim`.

ghost use Rattle.std.specs.Prelude.{◌≡◌, IfOk, IfErr, string_bytes};
ghost use Rattle.cycle_sim.specs.Opened.{IsOpenable};
ghost use Rattle.sim_values.specs.Loops.{IsFirstLoop};
ghost use Rattle.sim_loops.specs.Dotted.{IsLoopPath};
ghost use Rattle.sim_command.specs.Simulated as spec;

use cycle_sim::run::{Ran, run};
use cycle_sim::sim::OpenError;
use net_netlist::netlist;
use netlist::netlist::{Module, Netlist};
use sim_loops::dotted::loop_path;
use std::alloc::{AllocError, Global};
use thiserror::Error;
use verilog_reader::read::{ReadError, read};

/// The most bytes of a Verilog text.
pub const MOST_BYTES: usize = 16_777_216;

/// Why a text was not run.
#[derive(Debug, Drop, Error)]
pub enum SimError {
    /// The bytes spell no net that a simulator runs; the offset is the one that `read` tells.
    #[error("not a net at byte {offset}")]
    NotNet { offset: usize },
    /// A signal depends on itself: the first, by its path below `top`.
    #[error("loop at {path}")]
    Loop { path: String },
    #[error("out of memory")]
    Memory,
}

impl From<AllocError> for SimError {
    ghost use Rattle.sim_command.specs.declared.sim.SimError.TheVariants.{Memory};

    ghost from_gives = { λ _ e. e ≡ Memory };

    fn from(_error: AllocError) -> Self {
        SimError::Memory
    }
}

/// Why a text is not run that was not read.
fn not_read(error: ReadError) -> SimError
    ensures { result ≡ spec.not_read error }
{
    match error {
        ReadError::NotNet { offset } => SimError::NotNet { offset },
        ReadError::Memory => SimError::Memory,
    }
}

/// The netlist of the net that the text spells.
fn net_of(alloc: Global, text: &[u8]) -> Result<Netlist, SimError>
    ensures ok { IfOk result (spec.IsNetlistOf text.now) }
    ensures fails { IfErr result (spec.Fails text.now) }
{
    match read(alloc, text) {
        Ok(net) => Ok(netlist(alloc, &net)?),
        Err(error) => Err(not_read(error)),
    }
}

/// The path of the first signal that depends on itself, where one does.
fn loop_of(alloc: Global, modules: &[Module]) -> Result<String, AllocError>
    requires openable { IsOpenable modules.now }
    requires loops { (k : _) × (x : _) × IsFirstLoop modules.now k x }
    ensures { IfOk result (λ path. IsLoopPath modules.now (string_bytes path)) }
{
    match loop_path(alloc, modules)? {
        Some(path) => Ok(path),
        None => unreachable!(),
    }
}

/// Runs a net, or tells its first loop.
fn run_net(alloc: Global, modules: &[Module], cycles: u32) -> Result<Ran, SimError>
    requires { IsOpenable modules.now }
    ensures ok { IfOk result (spec.IsRun modules.now cycles) }
    ensures fails { IfErr result (spec.Stops modules.now) }
{
    match run(alloc, modules, cycles) {
        Ok(ran) => Ok(ran),
        Err(OpenError::Loop { .. }) => Err(SimError::Loop {
            path: loop_of(alloc, modules)?,
        }),
        Err(OpenError::Memory) => Err(SimError::Memory),
    }
}

/// Runs the net that the text spells until done is shown, and for so many cycles at most: in cycle k, from 0, all bits of `en` are 1, and each `pref_k`
/// is the cycle's number modulo 16.
pub fn sim(alloc: Global, text: &[u8], cycles: u32) -> Result<Ran, SimError>
    ensures ok { IfOk result (spec.IsSimulatedRun text.now cycles) }
    ensures fails { IfErr result (spec.Fails text.now) }
{
    let net = net_of(alloc, text)?;
    run_net(alloc, net.modules.as_slice(), cycles)
}
