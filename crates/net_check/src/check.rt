// The check of a net.

ghost use Rattle.std.specs.Prelude.{IfErr, OnOk};
ghost use Rattle.verilog_tree.specs.WellFormed.{IsWellFormed};
ghost use Rattle.net_check.specs.Checks.{TellsFirst, IsNoNet};

use crate::fault::NetFault;
use crate::search::first_of;
use std::alloc::Global;
use verilog_tree::tree::Net;

/// Checks that a net is well formed.
///
/// Errors: `BadNet` with the first part in the text's order that breaks a rule, exactly where the net is not well
/// formed; `Mem`, which may stand in the place of either answer.
pub fn check_net(alloc: Global, net: &Net) -> Result<(), NetFault>
    ensures well_formed { OnOk result (IsWellFormed net.now) }
    ensures bad { IfErr result (IsNoNet net.now) }
    ensures first { IfErr result (TellsFirst net.now) }
{
    match first_of(alloc, net)? {
        None => Ok(()),
        Some(part) => Err(NetFault::BadNet(part)),
    }
}
