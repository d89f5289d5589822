//! The lines of a report on a net: its modules with their registers, memories, writes and instances, and the cores of `top`.
#![tactic(auto)]

ghost use Rattle.std.specs.Prelude.{◌≡◌, ◌++◌, OnOk, codes, slice_get};
ghost use Rattle.std.specs.List.{flat_map};
ghost use Rattle.std.specs.Str.{bytes_eq};
ghost use Rattle.net_report.specs.Net as spec;
ghost use Rattle.plan_report.specs.Words.{numbered};

use hls_io::Bytes;
use netlist::netlist::{Action, Effect, Instance, Memory, Module, Netlist, Signal, Source};
use plan_report::{put_number, put_word};
use std::alloc::AllocError;

/// Appends a name, at the end of its line.
pub fn put_named(out: &mut Bytes, name: &str) -> Result<(), AllocError>
    ensures { OnOk result (out.new ≡ out.old ++ spec.named name.now) }
{
    put_word(out, name.as_bytes())?;
    out.push(b'\n')
}

fn put_register(out: &mut Bytes, signal: &Signal) -> Result<(), AllocError>
    ensures { OnOk result (out.new ≡ out.old ++ spec.register_line signal.now) }
{
    out.put(b"flipflops")?;
    put_number(out, signal.width)?;
    put_named(out, signal.name.as_str())
}

/// Appends a signal, where it is a register.
fn put_signal(out: &mut Bytes, signal: &Signal) -> Result<(), AllocError>
    ensures { OnOk result (out.new ≡ out.old ++ spec.signal_line signal.now) }
{
    match signal.source {
        Source::Register(_) => put_register(out, signal),
        Source::Input | Source::Assigned(_) | Source::Port { .. } => Ok(()),
    }
}

fn put_signals(out: &mut Bytes, signals: &[Signal]) -> Result<(), AllocError>
    ensures { OnOk result (out.new ≡ out.old ++ flat_map spec.signal_line signals.now) }
{
    for signal in signals {
        put_signal(out, signal)?;
    }
    Ok(())
}

fn put_memory(out: &mut Bytes, memory: &Memory) -> Result<(), AllocError>
    ensures { OnOk result (out.new ≡ out.old ++ spec.memory_line memory.now) }
{
    out.put(b"memory")?;
    put_number(out, memory.initial.len() as u64)?;
    put_number(out, memory.width)?;
    put_named(out, memory.name.as_str())
}

fn put_memories(out: &mut Bytes, memories: &[Memory]) -> Result<(), AllocError>
    ensures { OnOk result (out.new ≡ out.old ++ flat_map spec.memory_line memories.now) }
{
    for memory in memories {
        put_memory(out, memory)?;
    }
    Ok(())
}

/// Appends a statement, where it writes.
fn put_action(out: &mut Bytes, k: usize, action: &Action) -> Result<(), AllocError>
    ensures { OnOk result (out.new ≡ out.old ++ spec.action_line k action.now) }
{
    match &action.effect {
        Effect::Write { text, .. } => {
            out.put(b"write")?;
            put_number(out, k as u64)?;
            put_named(out, text.as_str())
        }
        Effect::Set { .. } | Effect::Store { .. } => Ok(()),
    }
}

fn put_actions(out: &mut Bytes, actions: &[Action]) -> Result<(), AllocError>
    ensures { OnOk result (out.new ≡ out.old ++ numbered spec.action_line 0 actions.now) }
{
    for (k, action) in actions.iter().enumerate() {
        put_action(out, k, action)?;
    }
    Ok(())
}

/// Appends the name of the module of a place, at the end of its line.
fn put_place(out: &mut Bytes, modules: &[Module], place: usize) -> Result<(), AllocError>
    ensures { OnOk result (out.new ≡ out.old ++ spec.named (spec.place_name (slice_get modules.now place))) }
{
    match modules.get(place) {
        Some(module) => put_named(out, module.name.as_str()),
        None => put_named(out, ""),
    }
}

fn put_instance(out: &mut Bytes, modules: &[Module], instance: &Instance) -> Result<(), AllocError>
    ensures { OnOk result (out.new ≡ out.old ++ spec.instance_line modules.now instance.now) }
{
    out.put(b"instance")?;
    put_word(out, instance.name.as_str().as_bytes())?;
    put_place(out, modules, instance.of)
}

fn put_instances(
    out: &mut Bytes,
    modules: &[Module],
    instances: &[Instance],
) -> Result<(), AllocError>
    ensures { OnOk result (out.new ≡ out.old ++ flat_map (spec.instance_line modules.now) instances.now) }
{
    for instance in instances {
        put_instance(out, modules, instance)?;
    }
    Ok(())
}

fn put_module(out: &mut Bytes, modules: &[Module], part: &Module) -> Result<(), AllocError>
    ensures { OnOk result (out.new ≡ out.old ++ spec.module_lines modules.now part.now) }
{
    out.put(b"module")?;
    put_named(out, part.name.as_str())?;
    put_signals(out, part.signals.as_slice())?;
    put_memories(out, part.memories.as_slice())?;
    put_actions(out, part.actions.as_slice())?;
    put_instances(out, modules, part.instances.as_slice())
}

fn put_modules(out: &mut Bytes, modules: &[Module]) -> Result<(), AllocError>
    ensures { OnOk result (out.new ≡ out.old ++ flat_map (spec.module_lines modules.now) modules.now) }
{
    for part in modules {
        put_module(out, modules, part)?;
    }
    Ok(())
}

fn put_core(out: &mut Bytes, k: usize, core: &Instance) -> Result<(), AllocError>
    ensures { OnOk result (out.new ≡ out.old ++ spec.core_line k core.now) }
{
    out.put(b"core")?;
    put_number(out, k as u64)?;
    put_named(out, core.name.as_str())
}

fn put_all_cores(out: &mut Bytes, cores: &[Instance]) -> Result<(), AllocError>
    ensures { OnOk result (out.new ≡ out.old ++ numbered spec.core_line 0 cores.now) }
{
    for (k, core) in cores.iter().enumerate() {
        put_core(out, k, core)?;
    }
    Ok(())
}

/// Appends the cores of the module `top` of so many threads: the number of the arbiter and of the preference, and the name.
fn put_cores(out: &mut Bytes, threads: usize, top: &Module) -> Result<(), AllocError>
    ensures { OnOk result (out.new ≡ out.old ++ spec.core_lines threads top.now) }
{
    let instances = top.instances.as_slice();
    if threads > instances.len() {
        return Ok(());
    }
    let rest = &instances[threads..];
    put_all_cores(out, &rest[..rest.len() / 2])
}

fn is_top(part: &Module) -> bool
    ensures { result ≡ bytes_eq (codes "top") part.now.name }
{
    "top" == part.name.as_str()
}

fn put_top(out: &mut Bytes, threads: usize, part: &Module) -> Result<(), AllocError>
    ensures { OnOk result (out.new ≡ out.old ++ spec.top_lines threads part.now) }
{
    if is_top(part) {
        return put_cores(out, threads, part);
    }
    Ok(())
}

fn put_tops(out: &mut Bytes, threads: usize, modules: &[Module]) -> Result<(), AllocError>
    ensures { OnOk result (out.new ≡ out.old ++ flat_map (spec.top_lines threads) modules.now) }
{
    for part in modules {
        put_top(out, threads, part)?;
    }
    Ok(())
}

/// Appends the lines of a net whose `top` has so many threads. The only error is want of memory.
pub fn put_net(out: &mut Bytes, threads: usize, net: &Netlist) -> Result<(), AllocError>
    ensures { OnOk result (out.new ≡ out.old ++ spec.net_lines threads net.now.modules) }
{
    let modules = net.modules.as_slice();
    put_modules(out, modules)?;
    put_tops(out, threads, modules)
}
