// The functional units of a thread.

ghost use Rattle.std.specs.Prelude.{◌≡◌, ◌<◌, ◌≤◌, true, false, length, IfOk, OnOk};
ghost use Rattle.unit_datapath.specs.Kinds.{is_of};
ghost use Rattle.unit_datapath.specs.Counts.{IsCountOf, CodeHas};
ghost use Rattle.unit_datapath.specs.Units.{LaysInputs, LaysResults, LaysMore, LaysAll, AreCountsOf};

use crate::counts::{greater, unit_count};
use crate::inputs::UnitInputs;
use crate::kinds::{UnitKind, is_of};
use crate::links::link_stages;
use crate::results::unit_results;
use block_datapath::registers::{Registers, UnitResults};
use block_ir::code::ThreadCode;
use block_ir::plan::Planned;
use c_program::tree::BinaryOperator;
use hls_ints::CType;
use operator_wires::wires::Wires;
use sqlite_items::Items;
use std::alloc::AllocError;

/// The functional units of a thread, shared by the operations of all its blocks: multipliers and dividers of 32 and of 64
/// bits. There is a list of results for each operator and type of which an operation is, and none other.
pub fn lay_units(
    wires: &mut Wires,
    registers: &Registers,
    code: &ThreadCode,
    planned: &Planned,
) -> Result<Items<UnitResults>, AllocError>
    ensures { IfOk result (LaysAll code.now registers.now planned.now wires.old.signals wires.new.signals) }
{
    let short = multipliers(CType::UNSIGNED_INT);
    let long = multipliers(CType::UNSIGNED_LONG);
    let ints = dividers(CType::INT);
    let unsigned_ints = dividers(CType::UNSIGNED_INT);
    let longs = dividers(CType::LONG);
    let unsigned_longs = dividers(CType::UNSIGNED_LONG);
    let mut all = Items::new(wires.alloc);
    lay_kind(wires, &mut all, registers, code, planned, &short)?;
    lay_kind(wires, &mut all, registers, code, planned, &long)?;
    lay_kind(wires, &mut all, registers, code, planned, &ints)?;
    lay_kind(wires, &mut all, registers, code, planned, &unsigned_ints)?;
    lay_kind(wires, &mut all, registers, code, planned, &longs)?;
    lay_kind(wires, &mut all, registers, code, planned, &unsigned_longs)?;
    Ok(all)
}

fn multipliers(ty: CType) -> UnitKind
    ensures { result ≡ record { divides = false; ty = ty } }
{
    UnitKind { divides: false, ty }
}

fn dividers(ty: CType) -> UnitKind
    ensures { result ≡ record { divides = true; ty = ty } }
{
    UnitKind { divides: true, ty }
}

/// How many units of a kind there are for each operator.
#[derive(Clone, Copy)]
pub struct UnitCounts {
    pub products: usize,
    pub quotients: usize,
    pub remainders: usize,
    /// The greatest of them.
    pub most: usize,
}

/// The units of a kind behind those that are there.
fn lay_kind(
    wires: &mut Wires,
    all: &mut Items<UnitResults>,
    registers: &Registers,
    code: &ThreadCode,
    planned: &Planned,
    kind: &UnitKind,
) -> Result<(), AllocError>
    ensures { OnOk result (LaysMore code.now registers.now planned.now kind.now wires.old.signals wires.new.signals all.old all.new) }
{
    let counts = kind_counts(code, planned, kind);
    if counts.most == 0 {
        return Ok(());
    }
    let inputs = lay_inputs(wires, registers, code, planned, kind, counts.most)?;
    let ty = kind.ty;
    lay_results(
        wires,
        all,
        &inputs,
        BinaryOperator::Multiply,
        ty,
        counts.products,
    )?;
    lay_results(
        wires,
        all,
        &inputs,
        BinaryOperator::Divide,
        ty,
        counts.quotients,
    )?;
    lay_results(
        wires,
        all,
        &inputs,
        BinaryOperator::Remainder,
        ty,
        counts.remainders,
    )
}

fn kind_counts(code: &ThreadCode, planned: &Planned, kind: &UnitKind) -> UnitCounts
    ensures { AreCountsOf code.now planned.now kind.now result }
{
    let products = operator_count(code, planned, kind, BinaryOperator::Multiply);
    let quotients = operator_count(code, planned, kind, BinaryOperator::Divide);
    let remainders = operator_count(code, planned, kind, BinaryOperator::Remainder);
    let most = greater(greater(products, quotients), remainders);
    UnitCounts {
        products,
        quotients,
        remainders,
        most,
    }
}

/// How many units of a kind there are for an operator: none, if it is not of the kind.
fn operator_count(
    code: &ThreadCode,
    planned: &Planned,
    kind: &UnitKind,
    operator: BinaryOperator,
) -> usize
    ensures kind { 0 < result → is_of kind.now operator kind.now.ty ≡ true }
    ensures count { is_of kind.now operator kind.now.ty ≡ true → IsCountOf (CodeHas operator kind.now.ty code.now planned.now (length code.now.stages)) result }
{
    if is_of(kind, operator, kind.ty) {
        unit_count(code, planned, operator, kind.ty)
    } else {
        0
    }
}

/// The operands of the units of a kind.
fn lay_inputs(
    wires: &mut Wires,
    registers: &Registers,
    code: &ThreadCode,
    planned: &Planned,
    kind: &UnitKind,
    count: usize,
) -> Result<UnitInputs, AllocError>
    ensures { IfOk result (LaysInputs code.now registers.now planned.now kind.now count wires.old.signals wires.new.signals) }
{
    let width = u64::from(kind.ty.bits());
    let mut inputs = UnitInputs::begin(wires, count, width)?;
    link_stages(wires, &mut inputs, registers, code, planned, kind)?;
    Ok(inputs)
}

/// The results of the first units for an operator, if there are any.
fn lay_results(
    wires: &mut Wires,
    all: &mut Items<UnitResults>,
    inputs: &UnitInputs,
    operator: BinaryOperator,
    ty: CType,
    count: usize,
) -> Result<(), AllocError>
    requires lefts { count ≤ length inputs.now.lefts }
    requires rights { count ≤ length inputs.now.rights }
    ensures { OnOk result (LaysResults inputs.now operator ty count wires.old.signals wires.new.signals all.old all.new) }
{
    if count == 0 {
        return Ok(());
    }
    let places = unit_results(wires, inputs, operator, ty, count)?;
    all.push(UnitResults {
        operator,
        ty,
        places,
    })
}
