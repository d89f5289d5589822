// What is asked of cores: links of wires that read registers alone, one for each stage that asks.

ghost use Rattle.std.specs.Prelude.{◌≡◌, ◌∷◌, replicate, IfOk, OnOk};
ghost use Rattle.thread_slots.specs.Requests.{BeginsRequest, WantsRequest, BitIsLinked};
ghost use Rattle.thread_slots.specs.Requests.{BeginsAsking, BeginsLinked};

use crate::shape::Served;
use block_datapath::requests::{BankRequests, zeros};
use operator_wires::wires::Wires;
use sqlite_items::Items;
use std::alloc::{AllocError, Global};

/// What is asked of the cores of one kind: the last links so far.
#[derive(Drop)]
pub struct Request {
    /// Whether this state asks one of them.
    pub wants: usize,
    /// Which one, where there are several.
    pub object: usize,
    /// The number that says what is asked, then the values.
    pub fields: Items<usize>,
}

impl Request {
    /// Nothing is asked, by a number of this width and so many values, each of 64 bits.
    fn begin(wires: &mut Wires, width: u64, values: usize) -> Result<Request, AllocError>
        ensures { IfOk result (BeginsRequest wires.old.signals wires.new.signals width values) }
    {
        let wants = wires.constant(1, 0)?;
        let object = wires.constant(64, 0)?;
        let widths = field_widths(wires.alloc, width, values)?;
        let fields = zeros(wires, widths.as_slice())?;
        Ok(Request {
            wants,
            object,
            fields,
        })
    }

    /// Where the condition holds one is asked.
    pub fn want(&mut self, wires: &mut Wires, condition: usize) -> Result<(), AllocError>
        ensures asks { OnOk result (WantsRequest wires.old.signals wires.new.signals self.old self.new condition) }
        ensures wired { OnOk result (BitIsLinked wires.old.signals wires.new.signals self.old self.new condition) }
    {
        let wants = wires.either(self.wants, condition)?;
        self.wants = wants;
        Ok(())
    }
}

/// The widths of the fields of a request: of the number, then of each value.
fn field_widths(alloc: Global, width: u64, values: usize) -> Result<Items<u64>, AllocError>
    ensures { IfOk result (λ widths. widths ≡ width ∷ replicate values 64) }
{
    let mut widths = Items::from_slice(alloc, &[width])?;
    widths.append(Items::from_vec(vec![in alloc; 64; values]?))?;
    Ok(widths)
}

/// What is asked of all cores.
#[derive(Drop)]
pub struct Requests {
    pub mutex: Request,
    pub barrier: Request,
    pub thread_ids: Request,
    pub printer: Request,
    /// What each bank is asked.
    pub banks: BankRequests,
}

impl Requests {
    /// Nothing is asked: of the cores that acts ask, and of banks with words of these widths.
    pub fn begin(wires: &mut Wires, served: Served, words: &[u64]) -> Result<Requests, AllocError>
        ensures begins { IfOk result (BeginsAsking wires.old.signals wires.new.signals served words.now) }
        ensures wired { IfOk result (BeginsLinked wires.old.signals wires.new.signals served words.now) }
    {
        let mutex = Request::begin(wires, 2, 0)?;
        let barrier = Request::begin(wires, 2, 1)?;
        let thread_ids = Request::begin(wires, 2, 2)?;
        let port = served.printer;
        let printer = Request::begin(wires, port.site_width, port.values)?;
        let banks = BankRequests::begin(wires, words)?;
        Ok(Requests {
            mutex,
            barrier,
            thread_ids,
            printer,
            banks,
        })
    }
}
