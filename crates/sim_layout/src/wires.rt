// The steps of a net, in no order.

ghost use Rattle.std.specs.Prelude.{◌≡◌, ◌+◌, ◌++◌, ◌∷◌, [], slice_get, IfOk, OnOk};
ghost use Rattle.verilog_meaning.specs.Readings.{or_zero};
ghost use Rattle.sim_values.specs.declared.settle.Feed.TheVariants as feeds;
ghost use Rattle.sim_values.specs.Stands.{spot_of};
ghost use Rattle.sim_layout.specs.Wires.{signals_of, steps_to, own_feed, own_steps, join_steps, all_instances, all_steps};

use netlist::netlist::{Instance, Module, Signal, Source};
use sim_values::edge::Part;
use sim_values::settle::{Feed, Step};
use sim_values::tree::module_instances;
use sqlite_items::at;
use std::alloc::AllocError;

/// The place that stands so far behind another.
pub fn further(base: usize, more: usize) -> Result<usize, AllocError>
    ensures { IfOk result (λ place. place ≡ base + more) }
{
    base.checked_add(more).ok_or(AllocError)
}

/// Where the words of the part at a place stand.
pub fn base_at(parts: &[Part], place: usize) -> usize
    ensures { result ≡ (spot_of (slice_get parts.now place)).base }
{
    match at(parts, place) {
        Some(part) => part.spot.base,
        None => 0,
    }
}

/// The signals of the module of a number.
pub fn module_signals(modules: &[Module], number: usize) -> &[Signal]
    ensures { result.now ≡ signals_of (slice_get modules.now number) }
{
    match at(modules, number) {
        Some(module) => module.signals.as_slice(),
        None => &[],
    }
}

fn push_copy(
    wires: &mut Vec<Step>,
    base: usize,
    signal: usize,
    from: usize,
    more: usize,
) -> Result<(), AllocError>
    ensures { OnOk result (wires.new.items ≡ wires.old.items ++ steps_to (base + signal) (feeds.Copied (from + more) ∷ [])) }
{
    let target = further(base, signal)?;
    let place = further(from, more)?;
    wires.push(Step {
        target,
        feed: Feed::Copied(place),
    })?;
    Ok(())
}

fn push_own(
    wires: &mut Vec<Step>,
    parts: &[Part],
    part: Part,
    signal: usize,
    source: &Source,
) -> Result<(), AllocError>
    ensures { OnOk result (wires.new.items ≡ wires.old.items ++ steps_to (part.spot.base + signal) (own_feed parts.now part signal source.now)) }
{
    match source {
        Source::Assigned(_) => {
            let feed = Feed::Computed {
                module: part.module,
                signal,
                spot: part.spot,
            };
            let target = further(part.spot.base, signal)?;
            wires.push(Step { target, feed })?;
            Ok(())
        }
        Source::Port { instance, port } => {
            let place = further(part.children, *instance)?;
            push_copy(wires, part.spot.base, signal, base_at(parts, place), *port)
        }
        Source::Input | Source::Register(_) => Ok(()),
    }
}

fn push_all_own(
    wires: &mut Vec<Step>,
    parts: &[Part],
    part: Part,
    signals: &[Signal],
) -> Result<(), AllocError>
    ensures { OnOk result (wires.new.items ≡ wires.old.items ++ own_steps parts.now part 0 signals.now) }
{
    for signal in 0..signals.len() {
        push_own(wires, parts, part, signal, &signals[signal].source)?;
    }
    Ok(())
}

fn connected(inputs: &[usize], signal: usize) -> usize
    ensures { result ≡ or_zero (slice_get inputs.now signal) }
{
    match at(inputs, signal) {
        Some(place) => *place,
        None => 0,
    }
}

fn push_joins(
    wires: &mut Vec<Step>,
    base: usize,
    inputs: &[usize],
    child: usize,
    signals: &[Signal],
) -> Result<(), AllocError>
    ensures { OnOk result (wires.new.items ≡ wires.old.items ++ join_steps base inputs.now child 0 signals.now) }
{
    for signal in 0..signals.len() {
        match &signals[signal].source {
            Source::Input => push_copy(wires, child, signal, base, connected(inputs, signal))?,
            Source::Register(_) | Source::Assigned(_) | Source::Port { .. } => {}
        }
    }
    Ok(())
}

fn push_instances(
    wires: &mut Vec<Step>,
    modules: &[Module],
    parts: &[Part],
    part: Part,
    instances: &[Instance],
) -> Result<(), AllocError>
    ensures { OnOk result (wires.new.items ≡ wires.old.items ++ all_instances modules.now parts.now part 0 instances.now) }
{
    for number in 0..instances.len() {
        let instance = &instances[number];
        let place = further(part.children, number)?;
        push_joins(
            wires,
            part.spot.base,
            instance.inputs.as_slice(),
            base_at(parts, place),
            module_signals(modules, instance.of),
        )?;
    }
    Ok(())
}

/// Appends the steps of all instances, those for the inputs of the outermost aside.
pub fn push_parts(
    wires: &mut Vec<Step>,
    modules: &[Module],
    parts: &[Part],
) -> Result<(), AllocError>
    ensures { OnOk result (wires.new.items ≡ wires.old.items ++ all_steps modules.now parts.now parts.now) }
{
    for part in parts {
        push_all_own(wires, parts, *part, module_signals(modules, part.module))?;
        let instances = module_instances(modules, part.module);
        push_instances(wires, modules, parts, *part, instances)?;
    }
    Ok(())
}
