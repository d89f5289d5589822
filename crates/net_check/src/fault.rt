// What breaks a rule of well-formed nets.

ghost use Rattle.std.specs.Prelude.{◌≡◌};
ghost use Rattle.net_check.specs.declared.fault.NetFault.TheVariants.{Mem};

use std::alloc::AllocError;
use thiserror::Error;

/// A part of a module, in the text's order.
#[derive(Clone, Copy, Debug, PartialEq)]
pub enum ModulePart {
    /// Its name and its ports as a whole, and where it stands in the net.
    Head,
    /// The port with this number, counted from 0.
    Port(usize),
    /// The item with this number, counted from 0.
    Item(usize),
}

/// A part of a net.
#[derive(Clone, Copy, Debug, PartialEq)]
pub enum NetPart {
    /// The list of modules, which is empty.
    Modules,
    /// A part of the module with this number, counted from 0.
    Module { number: usize, part: ModulePart },
}

/// Why a net is not shown to be well formed.
#[derive(Clone, Copy, Debug, Error)]
pub enum NetFault {
    /// The part breaks a rule, and no part before it breaks one.
    #[error("a part of the net breaks a rule")]
    BadNet(NetPart),
    #[error("out of memory")]
    Mem,
}

impl From<AllocError> for NetFault {
    ghost from_gives = { λ _ e. e ≡ Mem };

    fn from(_error: AllocError) -> Self {
        NetFault::Mem
    }
}
