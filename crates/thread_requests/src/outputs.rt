// The output ports.

ghost use Rattle.std.specs.Prelude.{◌≡◌, ◌∷◌, [], ◌++◌, ℕ, ◌+◌, ◌≤◌, ◌^◌, Some, slice_get, slice_index, length, IfOk, OnOk};
ghost use Rattle.thread_slots.specs.Wired.{Behind, IsNamedOutput, field_width};
ghost use Rattle.thread_requests.specs.Outputs.{LaysRows, LaysDone, LaysOutputs, AreNumbered};
ghost use Rattle.thread_requests.specs.Outputs.{joined, row_of, request_row, bank_rows, rows_from, fields_from, act_rows, acts_from, rows_of};

use block_datapath::registers::{Held, place_at};
use block_datapath::requests::BankRequests;
use block_ir::service::Service;
use operator_wires::wires::{Role, Wires};
use sqlite_items::Items;
use std::alloc::{AllocError, Global};
use thread_slots::requests::{Request, Requests};
use thread_slots::shape::Served;

/// An output port: what it is for, its width, and the signal that it copies.
#[derive(Clone, Copy)]
pub struct Row {
    pub role: Role,
    pub width: u64,
    pub source: usize,
}

/// The requests at banks, with words as wide as these inputs, and at the cores that acts ask; whether a core is needed, and
/// whether the thread is at its end.
pub fn lay_outputs(
    wires: &mut Wires,
    served: Served,
    words: &[Held],
    asks: &[usize],
    requests: &Requests,
    needs: usize,
    done: usize,
) -> Result<(), AllocError>
    ensures lays { OnOk result (LaysOutputs served wires.old.signals wires.new.signals words.now asks.now requests.now needs done) }
    ensures named { OnOk result (Behind (IsNamedOutput (length wires.new.signals)) wires.old.signals wires.new.signals) }
    ensures few { OnOk result (length wires.new.signals ≤ 2 ^ 64) }
{
    let rows = request_rows(wires.alloc, served, words, asks, requests)?;
    lay_rows(wires, rows.as_slice())?;
    wires.output(Role::Need, 1, needs)?;
    lay_done(wires, done)
}

fn lay_done(wires: &mut Wires, done: usize) -> Result<(), AllocError>
    ensures lays { OnOk result (LaysDone wires.old.signals wires.new.signals done) }
    ensures named { OnOk result (Behind (IsNamedOutput (length wires.old.signals + 1)) wires.old.signals wires.new.signals) }
    ensures few { OnOk result (length wires.new.signals ≤ 2 ^ 64) }
{
    wires.output(Role::Done, 1, done)?;
    Ok(())
}

/// An output port for each row.
fn lay_rows(wires: &mut Wires, rows: &[Row]) -> Result<(), AllocError>
    ensures lays { OnOk result (LaysRows wires.old.signals wires.new.signals rows.now (length rows.now)) }
    ensures named { OnOk result ((n : ℕ) → AreNumbered rows.now → Behind (IsNamedOutput n) wires.old.signals wires.new.signals) }
{
    for row in rows {
        wires.output(row.role, row.width, row.source)?;
    }
    Ok(())
}

/// What cores are asked, one behind the other: the banks, then those that acts ask.
fn request_rows(
    alloc: Global,
    served: Served,
    words: &[Held],
    asks: &[usize],
    requests: &Requests,
) -> Result<Items<Row>, AllocError>
    ensures { IfOk result (λ rows. rows ≡ joined (rows_of served words.now asks.now requests.now)) }
{
    let services = served.services(alloc)?;
    let mut rows = Items::new(alloc);
    add_banks(&mut rows, words, asks, &requests.banks)?;
    let kinds = services.as_slice();
    add_acts(&mut rows, served, kinds, asks, words.len(), requests)?;
    Ok(rows)
}

/// The cores that acts ask, of these kinds, behind so many banks.
fn add_acts(
    rows: &mut Items<Row>,
    served: Served,
    services: &[Service],
    asks: &[usize],
    banks: usize,
    requests: &Requests,
) -> Result<(), AllocError>
    ensures { OnOk result (rows.new ≡ rows.old ++ joined (acts_from served asks.now requests.now banks services.now)) }
{
    for (number, service) in services.iter().enumerate() {
        let ask = ask_behind(asks, banks, number);
        add_act(rows, served, *service, ask, requests)?;
    }
    Ok(())
}

fn ask_behind(asks: &[usize], banks: usize, number: usize) -> usize
    ensures { result ≡ slice_index asks.now (banks + number) }
{
    match banks.checked_add(number) {
        Some(at) => place_at(asks, at),
        None => 0,
    }
}

/// What a core of this kind is asked.
fn add_act(
    rows: &mut Items<Row>,
    served: Served,
    service: Service,
    ask: usize,
    requests: &Requests,
) -> Result<(), AllocError>
    ensures { OnOk result (rows.new ≡ rows.old ++ act_rows served ask requests.now service) }
{
    let site_width = served.printer.site_width;
    match service {
        Service::Mutex => add_request(rows, 2, ask, &requests.mutex),
        Service::Barrier => add_request(rows, 2, ask, &requests.barrier),
        Service::ThreadIds => add_request(rows, 2, ask, &requests.thread_ids),
        Service::Printer => add_request(rows, site_width, ask, &requests.printer),
    }
}

fn add_banks(
    rows: &mut Items<Row>,
    words: &[Held],
    asks: &[usize],
    banks: &BankRequests,
) -> Result<(), AllocError>
    ensures { OnOk result (rows.new ≡ rows.old ++ joined (rows_from asks.now banks.now 0 words.now)) }
{
    for (number, word) in words.iter().enumerate() {
        let ask = place_at(asks, number);
        let writes = place_at(banks.writes.as_slice(), number);
        let address = place_at(banks.addresses.as_slice(), number);
        let value = place_at(banks.values.as_slice(), number);
        add_bank(rows, word.width, ask, writes, address, value)?;
    }
    Ok(())
}

/// Whether a bank is asked, whether it is to write, the address, and what it writes.
fn add_bank(
    rows: &mut Items<Row>,
    width: u64,
    ask: usize,
    writes: usize,
    address: usize,
    value: usize,
) -> Result<(), AllocError>
    ensures { OnOk result (rows.new ≡ rows.old ++ bank_rows width ask writes address value) }
{
    add(rows, Role::Ask, 1, ask)?;
    add(rows, Role::Field, 1, writes)?;
    add(rows, Role::Field, 64, address)?;
    add(rows, Role::Field, width, value)
}

/// Whether a core is asked, and the fields of the request.
fn add_request(
    rows: &mut Items<Row>,
    first: u64,
    ask: usize,
    request: &Request,
) -> Result<(), AllocError>
    ensures { OnOk result (rows.new ≡ rows.old ++ request_row ask ∷ fields_from first 0 request.now.fields) }
{
    add(rows, Role::Ask, 1, ask)?;
    add_fields(rows, first, request.fields.as_slice())
}

/// The fields of a request, the first of which is so wide.
fn add_fields(rows: &mut Items<Row>, first: u64, fields: &[usize]) -> Result<(), AllocError>
    ensures { OnOk result (rows.new ≡ rows.old ++ fields_from first 0 fields.now) }
{
    for (number, field) in fields.iter().enumerate() {
        let width = width_of_field(first, number);
        add(rows, Role::Field, width, *field)?;
    }
    Ok(())
}

fn add(rows: &mut Items<Row>, role: Role, width: u64, source: usize) -> Result<(), AllocError>
    ensures { OnOk result (rows.new ≡ rows.old ++ row_of role width source ∷ []) }
{
    rows.push(Row {
        role,
        width,
        source,
    })
}

fn width_of_field(first: u64, number: usize) -> u64
    ensures { result ≡ field_width first number }
{
    if number == 0 { first } else { 64 }
}
