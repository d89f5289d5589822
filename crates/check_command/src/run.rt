// The command `check --run`.
ghost use Rattle.std.specs.Prelude.{◌≡◌, ◌++◌, ◌∷◌, [], ℕ, IfOk, IfErr, string_bytes};
ghost use Rattle.c_program.specs.Plain.{program_of};
ghost use Rattle.c_accepted.specs.Profile.{IsAccepted, IsRefused};
ghost use Rattle.c_accepted.specs.declared.refusal.Refusal as refusal;
ghost use Rattle.c_profile.specs.declared.text.ProfileError.TheVariants as error;
ghost use Rattle.turns.specs.Turns.{threads_of};
ghost use Rattle.run_check.specs.Race.{IsFound};
ghost use Rattle.run_check.specs.Verdict.{IsVerdict};
ghost use Rattle.check_command.specs.RunTold as spec;

use c_profile::{ProfileError, accept};
use c_program::tree::Program;
use run_check::race::FoundRace;
use run_check::run::{Reason, RunVerdict, check_run};
use std::alloc::{AllocError, Global};
use thread_semantics::UndefinedCause;
use turns::Turn;

/// What is told of a text by one run of its program.
#[derive(Drop)]
pub enum RunTold {
    /// Main returned after so many steps, and the program is good.
    /// With one output, each interleaving that comes to main's return prints what this run prints.
    Good {
        steps: u32,
        one_output: bool,
    },
    /// Behind these turns two threads race at a global: the offsets of their next steps, and the global's name.
    Race {
        turns: Vec<Turn>,
        first: u32,
        second: u32,
        name: String,
    },
    /// The last step of these turns is undefined: the offset of its statement, operand or closing brace, and the cause.
    Undefined {
        turns: Vec<Turn>,
        offset: u32,
        cause: UndefinedCause,
    },
    /// After so many steps, and why.
    Unknown {
        steps: u32,
        reason: Reason,
    },
}

/// The name of the global of that number; empty where there is none.
fn name_of(alloc: Global, program: &Program, global: u32) -> Result<String, AllocError>
    ensures { IfOk result (λ name. string_bytes name ≡ spec.global_name (program_of program.now) global) }
{
    match program.globals.get(global as usize) {
        None => Ok(String::new(alloc)),
        Some(variable) => variable.name.clone(),
    }
}

/// What is told of a race.
fn race_told(alloc: Global, program: &Program, race: FoundRace) -> Result<RunTold, AllocError>
    requires { IsFound (program_of program.now) race }
    ensures { IfOk result (spec.IsRunTold (program_of program.now)) }
{
    let name = name_of(alloc, program, race.location.global)?;
    Ok(RunTold::Race {
        turns: race.turns,
        first: race.first_offset,
        second: race.second_offset,
        name,
    })
}

/// The turns, and one more step of a thread.
fn with_step(mut turns: Vec<Turn>, thread: u32) -> Result<Vec<Turn>, AllocError>
    ensures { IfOk result (λ more. threads_of more.items ≡ threads_of turns.items ++ thread ∷ []) }
{
    turns.push(Turn { thread, steps: 1 })?;
    Ok(turns)
}

/// What is told of what a run shows.
fn told_of(alloc: Global, program: &Program, verdict: RunVerdict) -> Result<RunTold, AllocError>
    requires program { (text : _) × (w : ℕ) × IsAccepted text (program_of program.now) w }
    requires verdict { IsVerdict (program_of program.now) verdict }
    ensures { IfOk result (spec.IsRunTold (program_of program.now)) }
{
    match verdict {
        RunVerdict::Good { steps, one_output } => Ok(RunTold::Good { steps, one_output }),
        RunVerdict::Race(race) => race_told(alloc, program, race),
        RunVerdict::Undefined {
            turns,
            thread,
            offset,
            cause,
        } => {
            let turns = with_step(turns, thread)?;
            Ok(RunTold::Undefined {
                turns,
                offset,
                cause,
            })
        }
        RunVerdict::Unknown { steps, reason } => Ok(RunTold::Unknown { steps, reason }),
    }
}

/// Runs a program once, and says what is told of it.
fn checked(alloc: Global, program: &Program, steps: u32) -> Result<RunTold, AllocError>
    requires { (text : _) × (w : ℕ) × IsAccepted text (program_of program.now) w }
    ensures { IfOk result (spec.IsRunTold (program_of program.now)) }
{
    let verdict = check_run(alloc, program, steps)?;
    told_of(alloc, program, verdict)
}

/// What one run of at most so many steps tells of the program that a text spells, or the first reason why the text is refused.
pub fn run_text(alloc: Global, text: &[u8], steps: u32) -> Result<RunTold, ProfileError>
    ensures ok { IfOk result (spec.IsRunToldOf text.now) }
    ensures refused { IfErr result (λ e. (r : refusal.Refusal) → e ≡ error.Refused r → IsRefused text.now r) }
{
    let accepted = accept(alloc, text)?;
    match checked(alloc, &accepted.program, steps) {
        Ok(told) => Ok(told),
        Err(_) => Err(ProfileError::Memory),
    }
}
