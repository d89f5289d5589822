// The lines on err.

ghost use Rattle.std.specs.Prelude.{◌≡◌, IfOk, string_bytes};
ghost use Rattle.hls_status.specs.Lines as lines;

use crate::status::UnknownCause;
use c_interpreter::walk::WalkEnd;
use c_limits::Passed;
use c_profile::Refusal;
use c_rules::fault::Rule;
use hls_ints::ArithmeticFault;
use std::alloc::{AllocError, Global};
use thread_semantics::{BlockedCause, UndefinedCause};

/// The line of words that are not of the command line.
pub const USAGE: &[u8] = b"hls: usage\n";

/// The line of a read that failed.
pub const READ_FAULT: &[u8] = b"hls: read fault\n";

/// The line of a write that failed.
pub const WRITE_FAULT: &[u8] = b"hls: write fault\n";

/// The line of want of memory.
pub const MEMORY: &[u8] = b"hls: out of memory\n";

/// What a rule says.
fn words_of(rule: Rule) -> &'static str
    ensures { result.now ≡ lines.words_of rule }
{
    match rule {
        Rule::Unknown => "unknown name",
        Rule::Twice => "declared twice",
        Rule::Kind => "wrong kind",
        Rule::Arguments => "argument count",
        Rule::Recursive => "recursion",
        Rule::Threads => "thread rule",
        Rule::Place => "out of place",
        Rule::Constant => "constant out of range",
        Rule::Format => "format",
    }
}

fn refused_at(alloc: Global, number: u8, offset: usize, words: &str) -> Result<String, AllocError>
    ensures { IfOk result (λ s. string_bytes s ≡ lines.refused_at number offset words.now) }
{
    format!(in alloc; "hls: refused E{number} at byte {offset}: {words}\n")
}

fn limit_words(alloc: Global, passed: Passed) -> Result<String, AllocError>
    ensures { IfOk result (λ s. string_bytes s ≡ lines.limit_words passed) }
{
    let name = passed.limit.name();
    let count = passed.count;
    let most = passed.limit.most();
    format!(in alloc; "{name} {count}, at most {most}")
}

fn limit_line(alloc: Global, passed: Passed) -> Result<String, AllocError>
    ensures { IfOk result (λ s. string_bytes s ≡ lines.limit_line passed) }
{
    let words = limit_words(alloc, passed)?;
    format!(in alloc; "hls: refused E12: {words}\n")
}

fn limit_line_at(alloc: Global, passed: Passed, offset: usize) -> Result<String, AllocError>
    ensures { IfOk result (λ s. string_bytes s ≡ lines.refused_at 12 offset (lines.limit_words passed)) }
{
    let words = limit_words(alloc, passed)?;
    refused_at(alloc, 12, offset, &words)
}

/// The line of a refusal.
pub fn refusal_line(alloc: Global, refusal: Refusal) -> Result<String, AllocError>
    ensures { IfOk result (λ s. string_bytes s ≡ lines.refusal_line refusal) }
{
    match refusal {
        Refusal::TooLong => String::from_str(alloc, "hls: refused E1: longer than 65536 bytes\n"),
        Refusal::NoToken { offset } => refused_at(alloc, 2, offset, "no token"),
        Refusal::Syntax { offset } => refused_at(alloc, 3, offset, "syntax"),
        Refusal::Broken { rule, offset } => {
            refused_at(alloc, rule.number(), offset, words_of(rule))
        }
        Refusal::NoMain => String::from_str(alloc, "hls: refused E14: no main\n"),
        Refusal::LimitAt { passed, offset } => limit_line_at(alloc, passed, offset),
        Refusal::Limit(passed) => limit_line(alloc, passed),
    }
}

/// The line of a build.
pub fn built_line(
    alloc: Global,
    threads: u128,
    weight: u32,
    bytes: usize,
) -> Result<String, AllocError>
    ensures { IfOk result (λ s. string_bytes s ≡ lines.built_line threads weight bytes) }
{
    format!(in alloc; "hls: built, {threads} threads, weight {weight}, {bytes} bytes\n")
}

fn arithmetic_words(fault: ArithmeticFault) -> &'static str
    ensures { result.now ≡ lines.arithmetic_words fault }
{
    match fault {
        ArithmeticFault::Overflow => "overflow",
        ArithmeticFault::Divisor => "divisor",
        ArithmeticFault::Shift => "shift",
    }
}

/// Why a step is undefined.
fn undefined_words(cause: UndefinedCause) -> &'static str
    ensures { result.now ≡ lines.undefined_words cause }
{
    match cause {
        UndefinedCause::Arithmetic(fault) => arithmetic_words(fault),
        UndefinedCause::Index => "index",
        UndefinedCause::Unwritten => "unwritten",
        UndefinedCause::NoValue => "no value",
        UndefinedCause::ThreadId => "thread id",
        UndefinedCause::Mutex => "mutex",
        UndefinedCause::Barrier => "barrier",
        UndefinedCause::LiveThread => "live thread",
    }
}

/// What a thread waits for.
fn blocked_words(cause: BlockedCause) -> &'static str
    ensures { result.now ≡ lines.blocked_words cause }
{
    match cause {
        BlockedCause::Join => "join",
        BlockedCause::Mutex => "mutex",
        BlockedCause::Barrier => "barrier",
        BlockedCause::NotRunning => "not running",
    }
}

/// The line of a run of so many cycles.
pub fn cycles_line(alloc: Global, is_done: bool, cycles: u32) -> Result<String, AllocError>
    ensures { IfOk result (λ s. string_bytes s ≡ lines.cycles_line is_done cycles) }
{
    if is_done {
        format!(in alloc; "hls: done, {cycles} cycles\n")
    } else {
        format!(in alloc; "hls: not done, {cycles} cycles\n")
    }
}

/// The line of a report of so many bytes.
pub fn reported_line(alloc: Global, bytes: usize) -> Result<String, AllocError>
    ensures { IfOk result (λ s. string_bytes s ≡ lines.reported_line bytes) }
{
    format!(in alloc; "hls: reported, {bytes} bytes\n")
}

/// The line of a program made from a number: how many bytes its C text and its Verilog text have, and how many cycles ran.
pub fn generated_line(
    alloc: Global,
    is_done: bool,
    c_bytes: usize,
    bytes: usize,
    cycles: u32,
) -> Result<String, AllocError>
    ensures { IfOk result (λ s. string_bytes s ≡ lines.generated_line is_done c_bytes bytes cycles) }
{
    if is_done {
        format!(in alloc;
            "hls: generated, done, {c_bytes} bytes of C, {bytes} bytes of Verilog, {cycles} cycles\n"
        )
    } else {
        format!(in alloc;
            "hls: generated, not done, {c_bytes} bytes of C, {bytes} bytes of Verilog, {cycles} cycles\n"
        )
    }
}

/// The line of a Verilog text that spells no net at an offset.
pub fn not_net_line(alloc: Global, offset: usize) -> Result<String, AllocError>
    ensures { IfOk result (λ s. string_bytes s ≡ lines.not_net_line offset) }
{
    format!(in alloc; "hls: not a net at byte {offset}\n")
}

/// The line of a net of which the signal of this path depends on itself.
pub fn loop_line(alloc: Global, signal: &str) -> Result<String, AllocError>
    ensures { IfOk result (λ s. string_bytes s ≡ lines.loop_line signal.now) }
{
    format!(in alloc; "hls: loop at {signal}\n")
}

/// The line of a program of which each global has a discipline.
pub fn disciplined_line(alloc: Global, globals: usize) -> Result<String, AllocError>
    ensures { IfOk result (λ s. string_bytes s ≡ lines.disciplined_line globals) }
{
    format!(in alloc; "hls: disciplined, {globals} globals\n")
}

/// What is in doubt: a global of that name, or without a name a call that creates or joins.
fn doubted(name: &str) -> &str
    ensures { result.now ≡ lines.doubted name.now }
{
    if name.is_empty() { "creator" } else { name }
}

/// The line of a program that keeps no discipline.
pub fn doubt_line(alloc: Global, offset: usize, name: &str) -> Result<String, AllocError>
    ensures { IfOk result (λ s. string_bytes s ≡ lines.doubt_line offset name.now) }
{
    let doubted = doubted(name);
    format!(in alloc; "hls: doubt at byte {offset}: {doubted}\n")
}

/// The line of a program that one run of so many steps shows good.
pub fn good_line(alloc: Global, steps: u32, one_output: bool) -> Result<String, AllocError>
    ensures { IfOk result (λ s. string_bytes s ≡ lines.good_line steps one_output) }
{
    if one_output {
        format!(in alloc; "hls: good, {steps} steps, one output\n")
    } else {
        format!(in alloc; "hls: good, {steps} steps\n")
    }
}

/// The line of a race at a global, by steps at two offsets.
pub fn race_line(alloc: Global, first: u32, second: u32, name: &str) -> Result<String, AllocError>
    ensures { IfOk result (λ s. string_bytes s ≡ lines.race_line first second name.now) }
{
    format!(in alloc; "hls: race at bytes {first} and {second}: {name}\n")
}

/// The line of an undefined step at an offset.
pub fn undefined_step_line(
    alloc: Global,
    offset: u32,
    cause: UndefinedCause,
) -> Result<String, AllocError>
    ensures { IfOk result (λ s. string_bytes s ≡ lines.undefined_step_line offset cause) }
{
    let words = undefined_words(cause);
    format!(in alloc; "hls: undefined at byte {offset}: {words}\n")
}

/// Why a run shows nothing.
fn unknown_words(cause: UnknownCause) -> &'static str
    ensures { result.now ≡ lines.unknown_words cause }
{
    match cause {
        UnknownCause::TooFewSteps => "too few steps",
        UnknownCause::Deadlock => "deadlock",
        UnknownCause::MutexLocked => "a mutex was locked",
        UnknownCause::BarrierWaited => "waits at a barrier not ordered",
        UnknownCause::Unordered => "steps not ordered",
    }
}

/// The line of a run that shows nothing.
pub fn unknown_line(alloc: Global, steps: u32, cause: UnknownCause) -> Result<String, AllocError>
    ensures { IfOk result (λ s. string_bytes s ≡ lines.unknown_line steps cause) }
{
    let words = unknown_words(cause);
    format!(in alloc; "hls: unknown, {steps} steps: {words}\n")
}

fn steps_line(alloc: Global, word: &str, steps: u128) -> Result<String, AllocError>
    ensures { IfOk result (λ s. string_bytes s ≡ lines.steps_line word.now steps) }
{
    format!(in alloc; "hls: {word}, {steps} steps\n")
}

fn blocked_line(
    alloc: Global,
    index: u128,
    thread: u32,
    cause: BlockedCause,
) -> Result<String, AllocError>
    ensures { IfOk result (λ s. string_bytes s ≡ lines.blocked_line index thread cause) }
{
    let words = blocked_words(cause);
    format!(in alloc; "hls: blocked at step {index}, thread {thread}: {words}\n")
}

fn undefined_line(
    alloc: Global,
    index: u128,
    offset: u32,
    cause: UndefinedCause,
) -> Result<String, AllocError>
    ensures { IfOk result (λ s. string_bytes s ≡ lines.undefined_line index offset cause) }
{
    let words = undefined_words(cause);
    format!(in alloc; "hls: undefined at step {index}, byte {offset}: {words}\n")
}

/// The line of a walk.
pub fn walk_line(alloc: Global, end: WalkEnd) -> Result<String, AllocError>
    ensures { IfOk result (λ s. string_bytes s ≡ lines.walk_line end) }
{
    match end {
        WalkEnd::Ended { steps } => steps_line(alloc, "ended", steps),
        WalkEnd::Listed { steps } => steps_line(alloc, "listed", steps),
        WalkEnd::Blocked {
            index,
            thread,
            cause,
        } => blocked_line(alloc, index, thread, cause),
        WalkEnd::Undefined {
            index,
            offset,
            cause,
        } => undefined_line(alloc, index, offset, cause),
    }
}
