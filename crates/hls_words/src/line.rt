ghost use Rattle.std.specs.Prelude.{◌≡◌, Ok, Option, Some, None, false, map, string_bytes, IfOk, IsErrOf, ◌≢◌, is_some, option_and_then, option_map};
ghost use Rattle.clap.specs.Words.{app_of, rule_of, rows_of, one_of, first_of, found_of, kind_of, subcommand_rows_of, with_rule, with_subcommand};
ghost use Rattle.clap.specs.declared.builder.command.Command.TheViews.{out-Command as fields_of};
ghost use Rattle.clap.specs.declared.error.kind.ErrorKind.TheVariants.{OutOfMemory};
ghost use Rattle.hls_words.specs.Line.{build_line, command_line, number_in, number_of, number_rule, required};
ghost use Rattle.hls_words.specs.Line.{check_in, check_line, flag_rule, gen_in, gen_line, is_set, run_in, run_line, sim_line, step_in, step_line, task_in, task_of};
ghost use Rattle.hls_words.specs.Line.{IsInRange, walk_in, walk_line};

use crate::{Task, WordsError};
use clap::builder::ValueParser;
use clap::error::ErrorKind;
use clap::{Arg, ArgAction, ArgMatches, Command, Error};
use std::alloc::{AllocError, Global};
use turns::turns;

/// The most threads that a build may take.
const MOST_JOBS: u32 = 16;

/// The most entries of a run's journal.
const MOST_ENTRIES: u32 = 1_000_000;

/// How many where the words do not say.
const USUAL_ENTRIES: u32 = 100_000;

/// The most steps of a run that is to show a program good.
const MOST_STEPS: u32 = 10_000_000;

/// The most cycles of a dump.
const MOST_DUMPED: u32 = 100_000;

/// The most threads beside main of a program that is made.
const MOST_THREADS: u32 = 63;

/// The most lines of one.
const MOST_LINES: u32 = 1_000;

/// How many cycles it runs at most where the words do not say.
const USUAL_CYCLES: u32 = 1_000_000;

/// `--NAME n`, n from low to high.
fn number_option<'a>(alloc: Global, name: &'a str, low: u32, high: u32) -> Arg<'a>
    ensures rule { rule_of result ≡ number_rule name.entry.now low high }
    ensures local { result.global ≡ false }
{
    Arg::new(alloc, name)
        .long(name)
        .value_parser(ValueParser::Signed(low as i64, high as i64))
}

/// The same where the option has to be given.
fn required_number<'a>(alloc: Global, name: &'a str, low: u32, high: u32) -> Arg<'a>
    ensures rule { rule_of result ≡ required (number_rule name.entry.now low high) }
    ensures local { result.global ≡ false }
{
    number_option(alloc, name, low, high).required(true)
}

/// `--NAME`.
fn flag_option<'a>(alloc: Global, name: &'a str) -> Arg<'a>
    ensures rule { rule_of result ≡ flag_rule name.entry.now }
    ensures local { result.global ≡ false }
{
    Arg::new(alloc, name).long(name).action(ArgAction::SetTrue)
}

fn build_command<'a>(alloc: Global) -> Result<Command<'a>, AllocError>
    ensures line { IfOk result (λ c. app_of c ≡ build_line) }
    ensures local { IfOk result (λ c. (fields_of c).has_globals ≡ false) }
{
    let jobs = number_option(alloc, "jobs", 1, MOST_JOBS);
    Command::new(alloc, "build").arg(jobs)
}

fn step_command<'a>(alloc: Global) -> Result<Command<'a>, AllocError>
    ensures line { IfOk result (λ c. app_of c ≡ step_line) }
    ensures local { IfOk result (λ c. (fields_of c).has_globals ≡ false) }
{
    let cycles = required_number(alloc, "cycles", 0, u32::MAX);
    let command = Command::new(alloc, "step").arg(cycles)?;
    command.arg(flag_option(alloc, "vcd"))
}

fn run_command<'a>(alloc: Global) -> Result<Command<'a>, AllocError>
    ensures line { IfOk result (λ c. app_of c ≡ run_line) }
    ensures local { IfOk result (λ c. (fields_of c).has_globals ≡ false) }
{
    let entries = number_option(alloc, "entries", 1, MOST_ENTRIES);
    let command = Command::new(alloc, "run").arg(entries)?;
    command.arg(flag_option(alloc, "journal"))
}

fn walk_command<'a>(alloc: Global) -> Result<Command<'a>, AllocError>
    ensures line { IfOk result (λ c. app_of c ≡ walk_line) }
    ensures local { IfOk result (λ c. (fields_of c).has_globals ≡ false) }
{
    let threads = Arg::new(alloc, "threads").long("threads").required(true);
    Command::new(alloc, "walk").arg(threads)
}

fn check_command<'a>(alloc: Global) -> Result<Command<'a>, AllocError>
    ensures line { IfOk result (λ c. app_of c ≡ check_line) }
    ensures local { IfOk result (λ c. (fields_of c).has_globals ≡ false) }
{
    let steps = number_option(alloc, "run", 1, MOST_STEPS);
    Command::new(alloc, "check").arg(steps)
}

fn sim_command<'a>(alloc: Global) -> Result<Command<'a>, AllocError>
    ensures line { IfOk result (λ c. app_of c ≡ sim_line) }
    ensures local { IfOk result (λ c. (fields_of c).has_globals ≡ false) }
{
    let cycles = required_number(alloc, "cycles", 0, u32::MAX);
    Command::new(alloc, "sim").arg(cycles)
}

fn gen_command<'a>(alloc: Global) -> Result<Command<'a>, AllocError>
    ensures line { IfOk result (λ c. app_of c ≡ gen_line) }
    ensures local { IfOk result (λ c. (fields_of c).has_globals ≡ false) }
{
    let command = Command::new(alloc, "gen").arg(required_number(alloc, "seed", 0, u32::MAX))?;
    let command = command.arg(required_number(alloc, "threads", 1, MOST_THREADS))?;
    let command = command.arg(required_number(alloc, "size", 1, MOST_LINES))?;
    command.arg(number_option(alloc, "steps", 0, u32::MAX))
}

/// Adds a command that has no global argument, where there was memory for it and for what it is added to.
fn with_command<'a>(
    program: Result<Command<'a>, AllocError>,
    command: Result<Command<'a>, AllocError>,
) -> Result<Command<'a>, AllocError>
    requires { IfOk command (λ c. (fields_of c).has_globals ≡ false) }
    ensures { IfOk result (λ c. (before : _) × (added : _) × (program.entry ≡ Ok before) × (command.entry ≡ Ok added) × (app_of c ≡ with_subcommand (app_of before) (app_of added).top)) }
{
    program?.subcommand(command?)
}

/// The program with every command of the table.
fn whole_command<'a>(alloc: Global) -> Result<Command<'a>, AllocError>
    ensures { IfOk result (λ c. app_of c ≡ command_line) }
{
    let program = Ok(Command::new(alloc, "hls").subcommand_required(true));
    let program = with_command(program, build_command(alloc));
    let program = with_command(program, step_command(alloc));
    let program = with_command(program, run_command(alloc));
    let program = with_command(program, Ok(Command::new(alloc, "replay")));
    let program = with_command(program, walk_command(alloc));
    let program = with_command(program, check_command(alloc));
    let program = with_command(program, sim_command(alloc));
    let program = with_command(program, gen_command(alloc));
    with_command(program, Ok(Command::new(alloc, "report")))
}

fn is_given(matches: &ArgMatches<'_>, id: &str) -> bool
    ensures { result ≡ is_some (one_of id.now (rows_of (found_of matches.now))) }
{
    matches.get_str(id).is_some()
}

fn value(matches: &ArgMatches<'_>, id: &str) -> Option<u32>
    ensures { result ≡ option_and_then number_of (one_of id.now (rows_of (found_of matches.now))) }
{
    matches.get_one(id)
}

/// The number of an option, or its default where the option isn't given.
fn number(
    matches: &ArgMatches<'_>,
    id: &str,
    low: u32,
    high: u32,
    default: Option<u32>,
) -> Option<u32>
    ensures { result ≡ number_in low high default (one_of id.now (rows_of (found_of matches.now))) }
{
    if !is_given(matches, id) {
        return default;
    }
    match value(matches, id) {
        Some(n) if low <= n && n <= high => Some(n),
        _ => None,
    }
}

/// Whether a flag is set.
fn is_set(matches: &ArgMatches<'_>, id: &str) -> bool
    ensures { result ≡ is_set (first_of id.now (rows_of (found_of matches.now))) }
{
    match text(matches, id) {
        Some(text) => text == "true",
        None => false,
    }
}

fn step_task(matches: &ArgMatches<'_>) -> Option<Task>
    ensures { result ≡ step_in (rows_of (found_of matches.now)) }
{
    let cycles = number(matches, "cycles", 0, u32::MAX, None)?;
    let vcd = is_set(matches, "vcd");
    if vcd && cycles > MOST_DUMPED {
        return None;
    }
    Some(Task::Step { cycles, vcd })
}

fn text<'a>(matches: &ArgMatches<'a>, id: &str) -> Option<&'a str>
    ensures { option_map (λ t. t.now) result ≡ first_of id.now (rows_of (found_of matches.now)) }
{
    matches.get_str(id)
}

fn run_task(matches: &ArgMatches<'_>) -> Option<Task>
    ensures { result ≡ run_in (rows_of (found_of matches.now)) }
{
    let journal = is_set(matches, "journal");
    let entries = number(matches, "entries", 1, MOST_ENTRIES, Some(USUAL_ENTRIES))?;
    Some(Task::Run { entries, journal })
}

fn walk_task(alloc: Global, matches: &ArgMatches<'_>) -> Result<Option<Task>, AllocError>
    ensures { IfOk result (λ r. r ≡ walk_in (rows_of (found_of matches.now))) }
{
    let Some(list) = text(matches, "threads") else {
        return Ok(None);
    };
    Ok(turns(alloc, list)?.map(Task::Walk))
}

fn check_task(matches: &ArgMatches<'_>) -> Option<Task>
    ensures { result ≡ check_in (rows_of (found_of matches.now)) }
{
    if !is_given(matches, "run") {
        return Some(Task::Check);
    }
    let steps = number(matches, "run", 1, MOST_STEPS, None)?;
    Some(Task::CheckRun { steps })
}

fn gen_task(matches: &ArgMatches<'_>) -> Option<Task>
    ensures { result ≡ gen_in (rows_of (found_of matches.now)) }
{
    let seed = number(matches, "seed", 0, u32::MAX, None)?;
    let threads = number(matches, "threads", 1, MOST_THREADS, None)?;
    let size = number(matches, "size", 1, MOST_LINES, None)?;
    let cycles = number(matches, "steps", 0, u32::MAX, Some(USUAL_CYCLES))?;
    Some(Task::Gen {
        seed,
        threads,
        size,
        cycles,
    })
}

/// What the command of this name asks for with these values.
fn task(alloc: Global, name: &str, matches: &ArgMatches<'_>) -> Result<Option<Task>, AllocError>
    ensures { IfOk result (λ r. r ≡ task_in name.now (rows_of (found_of matches.now))) }
{
    match name {
        "build" => match number(matches, "jobs", 1, MOST_JOBS, Some(1)) {
            Some(jobs) => Ok(Some(Task::Build { jobs })),
            None => Ok(None),
        },
        "step" => Ok(step_task(matches)),
        "run" => Ok(run_task(matches)),
        "replay" => Ok(Some(Task::Replay)),
        "walk" => walk_task(alloc, matches),
        "check" => Ok(check_task(matches)),
        "sim" => match number(matches, "cycles", 0, u32::MAX, None) {
            Some(cycles) => Ok(Some(Task::Sim { cycles })),
            None => Ok(None),
        },
        "gen" => Ok(gen_task(matches)),
        "report" => Ok(Some(Task::Report)),
        _ => Ok(None),
    }
}

/// What matched words ask for, and `Usage` only where they aren't of the table.
fn task_or_usage(alloc: Global, matches: &ArgMatches<'_>) -> Result<Task, WordsError>
    ensures ok { IfOk result (λ r. option_and_then (λ p. task_in p.0 p.1) (subcommand_rows_of matches.now) ≡ Some r) }
    ensures usage { IsErrOf result WordsError.Usage → option_and_then (λ p. task_in p.0 p.1) (subcommand_rows_of matches.now) ≡ None }
{
    let Some((name, inner)) = matches.subcommand() else {
        return Err(WordsError::Usage);
    };
    match task(alloc, name, inner) {
        Ok(Some(task)) => Ok(task),
        Ok(None) => Err(WordsError::Usage),
        Err(_) => Err(WordsError::Mem),
    }
}

/// What clap refuses for another cause than memory, a request for help among it, is `Usage`.
fn refusal(error: &Error) -> WordsError
    ensures { result ≡ WordsError.Usage → kind_of error.now ≢ OutOfMemory }
{
    if error.kind() == ErrorKind::OutOfMemory {
        WordsError::Mem
    } else {
        WordsError::Usage
    }
}

/// What the words ask for, the first of which is the program's name, whatever it is. `Usage` comes only where they
/// aren't of the grammar, and an answer only where they are. `Mem` is the want of memory alone.
pub fn parse(alloc: Global, words: &[String]) -> Result<Task, WordsError>
    ensures ok { IfOk result (λ t. task_of (map string_bytes words.now) ≡ Some t) }
    ensures usage { IsErrOf result WordsError.Usage → task_of (map string_bytes words.now) ≡ None }
    ensures range { IfOk result IsInRange }
{
    let Ok(command) = whole_command(alloc) else {
        return Err(WordsError::Mem);
    };
    match command.try_get_matches_from(words) {
        Ok(matches) => task_or_usage(alloc, &matches),
        Err(error) => Err(refusal(&error)),
    }
}
