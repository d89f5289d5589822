//! The compiler from bytes to bytes: the Verilog text of a C text, or why there is none.
//!
//! Its passes, in the order of the data; of each the call, what goes in and comes out, and the law that joins them.
//!
//! | Pass | In | Out | Law |
//! |---|---|---|---|
//! | `c_lexer::lex`, `c_parser::parse` | bytes | tokens, tree | the tokens and the grammar, both ways |
//! | `c_types::resolve` | tree | program | `Spells`; what it spells is resolved (`c_resolved_program`) |
//! | `c_profile::accept` | bytes | program, weight | `IsAccepted`, or the first refusal, `IsRefused` |
//! | `ir_lower::lower_function` | program | code of a thread function | `IsLowered` (`code_following`): the steps of its thread |
//! | `code_merge::merge`, `drop_empty` | code | code with maximal blocks | `IsLowered` still |
//! | `fsm_plan::plan_all` | codes | plans | `ArePlanned`, each of which is right (`IsRightPlan`, `plan_conditions`) |
//! | `global_naming::naming_threads`, `bank_partition::partition` | program | banks | each element of a global has its one word |
//! | `program_cores::wanted` | program, banks | cores | `IsCore` of each (`circuit`) |
//! | `fsm_datapath::module`, by `program_bodies::modules` | code, plan, cores | module of a thread | `RunsCode` (`thread_promise`) |
//! | `top_wiring::wire`, by `net_emitter::verilog` | modules, cores | netlist with `top`, `top_rr` | `IsNet`: one machine (`circuit`) |
//! | `netlist_text::text_of`, `verilog_writer::write` | netlist | Verilog text | the text reads as that netlist |
//! | the whole | program | Verilog text | `PartsAreGood` (`law_net`): it is good Verilog of the program |
#![tactic(auto)]

mod hardware;

ghost use Rattle.std.specs.Prelude.{◌≡◌, None, IfOk, IfErr};
ghost use Rattle.c_limits.specs.Counts.{first_passed};
ghost use Rattle.c_program.specs.Plain.{program_of};
ghost use Rattle.c_program.specs.Resolved.{IsResolved};
ghost use Rattle.c_program.specs.Weight.{thread_functions};
ghost use Rattle.c_accepted.specs.declared.refusal.Refusal as refusal;
ghost use Rattle.c_accepted.specs.Profile.{IsAccepted, IsRefused};
ghost use Rattle.hls_compile.specs.Compiled.{IsCompiled};
ghost use Rattle.hls_compile.specs.Plans.{ArePlans};
ghost use Rattle.hls_compile.specs.Reported.{ReportNamesCores};
ghost use Rattle.hls_compile.specs.declared.CompileError.TheVariants as error;

use c_profile::{Accepted, ProfileError, accept};
use c_program::tree::Program;
use hls_io::Bytes;
use netlist::netlist::Netlist;
use program_bodies::{PlannedFunction, plan_functions};
use sqlite_items::Items;
use std::alloc::{AllocError, Global};
use std::thread::Threads;
use thiserror::Error;

/// What a text compiles to.
#[derive(Drop)]
pub struct Compiled {
    /// The Verilog text.
    pub text: Bytes,
    /// The net that the text reads as.
    pub net: Netlist,
    /// The program that the C text spells.
    pub program: Program,
    /// The weight of the program.
    pub weight: u32,
    /// The thread functions: main, and each start routine that a create names, in the order of their definitions.
    pub plans: Items<PlannedFunction>,
}

/// Why a text does not compile.
#[derive(Clone, Copy, Debug, Error)]
pub enum CompileError {
    /// The text is not of the profile.
    #[error("refused")]
    Refused(c_profile::Refusal),
    #[error("out of memory")]
    Memory,
}

impl From<AllocError> for CompileError {
    ghost from_gives = { λ _ e. e ≡ error.Memory };

    fn from(_error: AllocError) -> CompileError {
        CompileError::Memory
    }
}

/// The program of a text, within all limits, or why there is none.
fn program_in(alloc: Global, text: &[u8]) -> Result<Accepted, CompileError>
    ensures ok { IfOk result (λ a. IsAccepted text.now (program_of a.program) a.weight) }
    ensures refused { IfErr result (λ e. (r : refusal.Refusal) → e ≡ error.Refused r → IsRefused text.now r) }
    ensures resolved { IfOk result (λ a. IsResolved (program_of a.program)) }
    ensures limits { IfOk result (λ a. first_passed (program_of a.program) ≡ None) }
    ensures functions { IfOk result (λ a. a.functions.items ≡ thread_functions (program_of a.program)) }
{
    match accept(alloc, text) {
        Ok(accepted) => Ok(accepted),
        Err(ProfileError::Refused(refusal)) => Err(CompileError::Refused(refusal)),
        Err(ProfileError::Memory) => Err(CompileError::Memory),
    }
}

/// The Verilog of a C text, with its net and the plans that it is made by, which at most `jobs` threads make.
pub fn compile<R: Threads + Sync>(
    rt: &R,
    alloc: Global,
    text: &[u8],
    jobs: u32,
) -> Result<Compiled, CompileError>
    ensures ok { IfOk result (λ c. IsCompiled text.now (program_of c.program) c.weight c.net c.text) }
    ensures plans { IfOk result (λ c. ArePlans (program_of c.program) c.net c.plans) }
    ensures refused { IfErr result (λ e. (r : refusal.Refusal) → e ≡ error.Refused r → IsRefused text.now r) }
{
    let accepted = program_in(alloc, text)?;
    let plans = plan_functions(
        rt,
        alloc,
        &accepted.program,
        &accepted.functions,
        accepted.weight,
        jobs,
    )?;
    let written = hardware::written(
        alloc,
        &accepted.program,
        &accepted.functions,
        plans.as_slice(),
    )?;
    Ok(Compiled {
        text: written.text,
        net: written.net,
        program: accepted.program,
        weight: accepted.weight,
        plans,
    })
}

/// The lines of cores in the report of a net that is compiled are those of the program's names: `core K NAME` says that NAME
/// is the core of `arbiter_K`, in the order of the arbiters. That `pref_K` reaches `arbiter_K` alone is `served` of
/// `IsCompiled`. The function takes and answers nothing: its contract is the law.
pub fn report_names_cores()
    ensures { ReportNamesCores }
{}
