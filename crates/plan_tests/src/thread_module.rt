// The module of a small thread.
use crate::small::Place::{Constant, Local};
use crate::small::Small::Binary;
use crate::small::{Small, add_return, block, with_stages};
use block_ir::code::{Act, ActOperand, Stage, ThreadCode};
use block_ir::plan::{BlockPlan, Planned, StagePlan};
use c_program::tree::BinaryOperator::Multiply;
use fsm_datapath::module::module;
use hls_ints::CType;
use netlist::netlist::{Module, Signal};
use sqlite_items::Items;
use std::alloc::{AllocError, Global};
use std::test::Fail;
use thread_slots::shape::{PrinterPort, Served, Shape};
use verilog_tree::name::Identifier;

/// `x = x * 7;`
const PRODUCT: [Small; 1] = [Binary(Multiply, Local, Constant(7))];

/// `printf("%d", x);`
fn add_print(alloc: Global, stages: &mut Items<Stage>) -> Result<(), AllocError> {
    let values = Items::from_slice(alloc, &[ActOperand::Variable(0, CType::INT)])?;
    stages.push(Stage::Act {
        act: Act::Print { site: 3, values },
        next: 2,
    })
}

/// `x = x * 7; printf("%d", x);`, then a return.
fn code(alloc: Global) -> Result<Box<ThreadCode>, AllocError> {
    let mut stages = Items::new(alloc);
    stages.push(Stage::Run(block(alloc, &PRODUCT, Some(0))?))?;
    add_print(alloc, &mut stages)?;
    add_return(&mut stages)?;
    let code = with_stages(alloc, stages)?;
    Ok(Box::new(alloc, code)?)
}

/// The product in two states.
fn product_plan(alloc: Global) -> Result<BlockPlan, AllocError> {
    let starts = Items::from_slice(alloc, &[0])?;
    let units = Items::from_slice(alloc, &[0])?;
    let registers = Items::from_slice(alloc, &[None])?;
    Ok(BlockPlan {
        starts,
        states: 2,
        units,
        registers,
    })
}

fn planned(alloc: Global) -> Result<Box<Planned>, AllocError> {
    let mut stages = Items::new(alloc);
    stages.push(StagePlan::Run(product_plan(alloc)?))?;
    stages.push(StagePlan::Act)?;
    stages.push(StagePlan::Act)?;
    let planned = Planned {
        stages,
        registers: 0,
    };
    Ok(Box::new(alloc, planned)?)
}

fn shape(alloc: Global) -> Result<Box<Shape>, AllocError> {
    let served = Served {
        mutexes: 0,
        barriers: 0,
        thread_ids: false,
        printer: PrinterPort {
            site_width: 4,
            values: 2,
        },
    };
    let shape = Shape {
        name: Identifier::from_text(alloc, "fn_main")?,
        is_main: true,
        globals: Items::new(alloc),
        spreads: Items::new(alloc),
        served,
    };
    Ok(Box::new(alloc, shape)?)
}

fn built(alloc: Global) -> Result<Box<Module>, AllocError> {
    let shape = shape(alloc)?;
    let code = code(alloc)?;
    let planned = planned(alloc)?;
    let module = module(alloc, &shape, &code, &planned)?;
    Ok(Box::new(alloc, module)?)
}

/// Inputs stand first: the clock, whether it is enabled, and whether the printer grants. Then the registers: a stage of
/// seven numbers, of which three are those of meetings, a state of two, the beat and the variable. Done stands last.
fn are_in_order(signals: &[Signal]) -> bool {
    match signals {
        [_, enabled, _, stage, state, beat, variable, .., done] => {
            enabled.name.as_str() == "en"
                && stage.width == 3
                && state.width == 1
                && beat.name.as_str() == "beat"
                && variable.width == 32
                && done.name.as_str() == "done"
        }
        _ => false,
    }
}

fn output_count(signals: &[Signal]) -> usize {
    let mut count = 0_usize;
    for signal in signals {
        if signal.is_output {
            count = count.saturating_add(1);
        }
    }
    count
}

/// Outputs are whether the printer is asked, the site and both values, need and done.
#[test]
fn ports_and_registers(rt: HostRuntime) -> Result<(), Fail> {
    let built = built(rt.alloc())?;
    assert!(rt; built.name.as_str() == "fn_main");
    assert!(rt; are_in_order(built.signals.as_slice()));
    assert!(rt; output_count(built.signals.as_slice()) == 6);
    assert!(rt; built.actions.len() == 4);
    assert!(rt; built.instances.len() == 0);
    Ok(())
}
