// What surrounds the module of a thread: its place in the net.

ghost use Rattle.std.specs.Prelude.{◌≡◌, IfOk};
ghost use Rattle.thread_slots.specs.Services.{services as services_of};

use bank_partition::banks::Spread;
use block_ir::service::Service;
use hls_ints::CType;
use sqlite_items::Items;
use std::alloc::{AllocError, Global};
use verilog_tree::name::Identifier;

/// What the printer is asked, which writes the output.
#[derive(Clone, Copy)]
pub struct PrinterPort {
    /// The width of a site's number.
    pub site_width: u64,
    /// How many values it takes with a site, each of 64 bits.
    pub values: usize,
}

/// The cores that acts ask.
#[derive(Clone, Copy)]
pub struct Served {
    /// How many mutexes there are.
    pub mutexes: usize,
    /// How many barriers there are.
    pub barriers: usize,
    /// Whether there is a core of the thread ids.
    pub thread_ids: bool,
    pub printer: PrinterPort,
}

impl Served {
    /// Of each core that acts ask its kind, in the order of the cores.
    pub fn services(self, alloc: Global) -> Result<Items<Service>, AllocError>
        ensures { IfOk result (λ services. services ≡ services_of self) }
    {
        let mut services = Items::from_vec(vec![in alloc; Service::Mutex; self.mutexes]?);
        let barriers = Items::from_vec(vec![in alloc; Service::Barrier; self.barriers]?);
        services.append(barriers)?;
        if self.thread_ids {
            services.push(Service::ThreadIds)?;
        }
        services.push(Service::Printer)?;
        Ok(services)
    }
}

/// The thread's name and kind, and the cores that it asks.
#[derive(Drop)]
pub struct Shape {
    /// The name of the module.
    pub name: Identifier,
    /// Whether the thread is main. Another one begins when it is created.
    pub is_main: bool,
    /// The types of the elements of the globals.
    pub globals: Items<CType>,
    /// Where the banks of each global stand among all banks.
    pub spreads: Items<Spread>,
    /// The cores that acts ask.
    pub served: Served,
}
