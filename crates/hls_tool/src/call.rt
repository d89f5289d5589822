ghost use Rattle.std.specs.Prelude.{◌≡◌, ◌⊎◌, ◌≤◌, None, Some, false, length, map, string_bytes};
ghost use Rattle.hls_io.specs.Causes.{Rose};
ghost use Rattle.hls_words.specs.Line.{IsInRange, task_of};
ghost use Rattle.hls_words.specs.declared.task.Task.TheVariants.{Check, CheckRun, Gen, Walk};
ghost use Rattle.hls_tool.specs.Call.{Answered, AnswersAs, AsksFor, AsksToSimulate, Completes, IsWriteFault, TellsDiscipline, TellsEnd, TellsGeneration};
ghost use Rattle.hls_tool.specs.Call.{TellsRefusal, TellsRun, TellsSimulation};
ghost use Rattle.turns.specs.Turns.{threads_of};
ghost use Rattle.journal_laws.specs.declared.verdict.Verdict.TheVariants.{Entries, Stuck};
ghost use Rattle.c_interpreter.specs.Walk.{IsWalk};
ghost use Rattle.hls_tool.specs.Delivery.{passage};
ghost use Rattle.hls_commands.specs.Answers.{HasLoopOf, HasRunOut, IsBadEntryOf, IsDoubtOf, IsNotNetOf, IsRaceOf, IsRefusedFor, IsStepped};
ghost use Rattle.hls_commands.specs.Answers.{IsUndefinedOf, IsUnknownOf, IsVerdict, IsWalkEnd, most_simulated};

use crate::deliver::deliver;
use crate::outcome::Outcome;
use hls_commands::Gate;
use hls_commands::commands::{answer, run_task};
use hls_io::{Sink, Source};
use hls_status::status::Status;
use hls_words::Task;
use std::alloc::Global;
use std::sync::Wait;
use std::thread::Threads;

/// Does all that the program does.
pub fn hls<R: Threads + Wait + Sync, S: Source, O: Sink, E: Sink, G: Gate + Sync>(
    rt: &R,
    alloc: Global,
    words: &[String],
    source: &mut S,
    out: &mut O,
    err: &mut E,
    gate: &G,
) -> Outcome
    ensures usage { result.status ≡ Status.Usage → task_of (map string_bytes words.now) ≡ None }
    ensures read_fault { result.status ≡ Status.ReadFault → Rose (S.faults source.old) (S.faults source.new) }
    ensures refused { (r : _) → result.status ≡ Status.Refused r → IsRefusedFor (task_of (map string_bytes words.now)) (S.left source.old) r }
    ensures refuses { (whole : _) (r : _) → S.left source.old ≡ Some whole → IsRefusedFor (task_of (map string_bytes words.now)) (Some whole) r → TellsRefusal r result.status }
    ensures write_fault { IsWriteFault result.status → Rose (O.faults out.old) (O.faults out.new) ⊎ Rose (E.faults err.old) (E.faults err.new) }
    ensures cycles { (n : _) → result.status ≡ Status.Cycles n → HasRunOut (task_of (map string_bytes words.now)) (S.left source.old) n }
    ensures entries { result.status ≡ Status.Entries → IsVerdict (task_of (map string_bytes words.now)) (S.left source.old) Entries }
    ensures stuck { result.status ≡ Status.Stuck → IsVerdict (task_of (map string_bytes words.now)) (S.left source.old) Stuck }
    ensures bad_entry { (index : _) → result.status ≡ Status.BadEntry index → IsBadEntryOf (task_of (map string_bytes words.now)) (S.left source.old) index }
    ensures not_net { (offset : _) → result.status ≡ Status.NotNet offset → IsNotNetOf (task_of (map string_bytes words.now)) (S.left source.old) offset }
    ensures loops { (signal : _) → result.status ≡ Status.Loop signal → HasLoopOf (task_of (map string_bytes words.now)) (S.left source.old) (string_bytes signal) }
    ensures doubt { (offset : _) (name : _) → result.status ≡ Status.Doubt offset name → IsDoubtOf (task_of (map string_bytes words.now)) (S.left source.old) offset (string_bytes name) }
    ensures race { (first : _) (second : _) (name : _) → result.status ≡ Status.Race first second name
        → IsRaceOf (task_of (map string_bytes words.now)) (S.left source.old) first second (string_bytes name) }
    ensures undefined_step { (offset : _) (cause : _) → result.status ≡ Status.UndefinedStep offset cause
        → IsUndefinedOf (task_of (map string_bytes words.now)) (S.left source.old) offset cause }
    ensures unknown { (steps : _) (cause : _) → result.status ≡ Status.Unknown steps cause
        → IsUnknownOf (task_of (map string_bytes words.now)) (S.left source.old) steps cause }
    ensures walked { (end : _) → result.status ≡ Status.Walked end → IsWalkEnd (task_of (map string_bytes words.now)) (S.left source.old) end }
    ensures completes { (task : _) (P : _) → AsksFor task (task_of (map string_bytes words.now)) (S.left source.old) P
        → (Rose (S.faults source.old) (S.faults source.new) → ⊥) → (Rose (O.faults out.old) (O.faults out.new) → ⊥)
        → (Rose (E.faults err.old) (E.faults err.new) → ⊥) → Completes task result.status }
    ensures tells_end { (turns : _) (P : _) (end : _) (output : _) → AsksFor (Walk turns) (task_of (map string_bytes words.now)) (S.left source.old) P
        → IsWalk P (threads_of turns) end output → TellsEnd end result.status }
    ensures checks { (P : _) → AsksFor Check (task_of (map string_bytes words.now)) (S.left source.old) P → TellsDiscipline P result.status }
    ensures checks_run { (most : _) (P : _) → AsksFor (CheckRun most) (task_of (map string_bytes words.now)) (S.left source.old) P
        → TellsRun P result.status }
    ensures generates { (seed : _) (threads : _) (size : _) (most : _) → task_of (map string_bytes words.now) ≡ Some (Gen seed threads size most)
        → TellsGeneration result.status }
    ensures simulates { (most : _) (text : _) → AsksToSimulate most (task_of (map string_bytes words.now)) (S.left source.old) text → TellsSimulation text result.status }
    ensures as_step { (most : _) (c_text : _) (d : _) (s : _) → IsStepped most false (Some c_text) d s → length d.text ≤ most_simulated
        → AsksToSimulate most (task_of (map string_bytes words.now)) (S.left source.old) d.text
        → AnswersAs d s (passage (O.held out.old) (O.held out.new) (O.faults out.old) (O.faults out.new))
        (passage (E.held err.old) (E.held err.new) (E.faults err.old) (E.faults err.new)) result.status }
    ensures answered { Answered (task_of (map string_bytes words.now)) (S.left source.old)
        (Rose (S.faults source.old) (S.faults source.new))
        (passage (O.held out.old) (O.held out.new) (O.faults out.old) (O.faults out.new))
        (passage (E.held err.old) (E.held err.new) (E.faults err.old) (E.faults err.new)) result }
{
    let answer = answer(rt, alloc, words, source, gate);
    deliver(answer, out, err)
}

/// Does what a task asks whose numbers are in range: all that [`hls`] does once it has read its words.
pub fn perform<R: Threads + Wait + Sync, S: Source, O: Sink, E: Sink, G: Gate + Sync>(
    rt: &R,
    alloc: Global,
    task: Task,
    source: &mut S,
    out: &mut O,
    err: &mut E,
    gate: &G,
) -> Outcome
    requires { IsInRange task }
    ensures answered { Answered (Some task) (S.left source.old)
        (Rose (S.faults source.old) (S.faults source.new))
        (passage (O.held out.old) (O.held out.new) (O.faults out.old) (O.faults out.new))
        (passage (E.held err.old) (E.held err.new) (E.faults err.old) (E.faults err.new)) result }
{
    let answer = run_task(rt, alloc, task, source, gate);
    deliver(answer, out, err)
}
