// The check of a net that counts up to 2, and of the same with one rule broken.

use crate::small::{counter, parsed};
use grammar::Fault;
use net_check::check::check_net;
use net_check::fault::{ModulePart, NetFault, NetPart};
use sqlite_items::Items;
use std::alloc::{AllocError, Global};
use std::process::Abort;
use std::test::Fail;
use verilog_tree::name::Identifier;
use verilog_tree::tree::{Assign, Expression, Item, Net};

/// What the check finds in a net: a part that breaks a rule, or nothing.
type Finding = Option<NetPart>;

fn finds(alloc: Global, net: &Net, expected: Finding) -> bool {
    match (check_net(alloc, net), expected) {
        (Ok(()), None) => true,
        (Err(NetFault::BadNet(found)), Some(part)) => found == part,
        _ => false,
    }
}

/// Whether the check finds this in the tree of the text that these parts make.
fn finds_in_text(alloc: Global, parts: &[&str], expected: Finding) -> Result<bool, Fault> {
    let mut text = String::new(alloc);
    for part in parts {
        text.push_str(part)?;
    }
    let net = parsed(alloc, text.as_str())?;
    Ok(finds(alloc, &net, expected))
}

fn in_module(number: usize, part: ModulePart) -> Finding {
    Some(NetPart::Module { number, part })
}

fn top() -> &'static str {
    "module top(input wire clk, input wire en, output wire done); counter u(.clk(clk), .en(en), .done(done)); endmodule "
}

/// A net is well formed, but not with two modules of one name.
#[test]
fn nets(rt: HostRuntime) -> Result<(), Fail> {
    let twice = [counter(), top(), counter()];
    let holds = finds_in_text(rt.alloc(), &[counter(), top()], None)?
        && finds_in_text(rt.alloc(), &twice, in_module(2, ModulePart::Head))?;
    assert!(rt; holds);
    Ok(())
}

const PORTS: &str = "input wire clk, input wire en, output wire done";

/// The eight items of the counter, and a space.
fn items() -> &'static str {
    "reg [1:0] q_0; wire [1:0] n_1; wire [1:0] c_2; assign n_1 = q_0 + c_2; assign c_2 = 2'd1; assign done = q_0[1]; \
    initial begin q_0 = 2'd0; end always @(posedge clk) begin q_0 <= n_1; end "
}

const NINTH: ModulePart = ModulePart::Item(8);

const FOURTH: ModulePart = ModulePart::Port(3);

/// A broken rule, the ports, what stands behind the items, and the part that breaks the rule.
const CHANGES: [(&str, &str, &str, ModulePart); 13] = [
    ("declared twice", PORTS, "wire [1:0] c_2;", NINTH),
    ("driven twice", PORTS, "assign done = q_0[1];", NINTH),
    ("given twice", PORTS, "initial begin q_0 = 2'd0; end", NINTH),
    (
        "written by two blocks",
        PORTS,
        "always @(posedge clk) begin q_0 <= n_1; end",
        NINTH,
    ),
    ("without a driver", PORTS, "wire other_4;", NINTH),
    ("not declared", PORTS, "assign other_4 = done;", NINTH),
    (
        "an instance of the module itself",
        PORTS,
        "counter u(.clk(clk), .en(en), .done(done));",
        NINTH,
    ),
    (
        "a port declared twice",
        "input wire clk, input wire en, output wire done, input wire clk",
        "",
        FOURTH,
    ),
    (
        "a port wider than 64 bits",
        "input wire clk, input wire en, output wire done, input wire [64:0] other_4",
        "",
        FOURTH,
    ),
    (
        "an output without a driver",
        "input wire clk, input wire en, output wire done, output wire other_4",
        "",
        FOURTH,
    ),
    (
        "clk that is an output",
        "output wire clk",
        "",
        ModulePart::Port(0),
    ),
    ("without clk", "output wire done", "", ModulePart::Head),
    (
        "a $write in a module that is not top and has no instance",
        PORTS,
        "always @(posedge clk) begin $write(\"%%\\n\"); end",
        ModulePart::Head,
    ),
];

fn changes() -> &'static [(&'static str, &'static str, &'static str, ModulePart)] {
    &CHANGES
}

#[test]
fn broken_rules(rt: HostRuntime) -> Result<(), Fail> {
    for (rule, ports, item, part) in changes() {
        let parts = [
            "module counter(",
            *ports,
            "); ",
            items(),
            *item,
            " endmodule",
        ];
        if !finds_in_text(rt.alloc(), &parts, in_module(0, *part))? {
            rt.panic(*rule);
        }
    }
    Ok(())
}

/// A list that no text leaves without parts.
#[derive(Clone, Copy)]
enum Emptied {
    Modules,
    Ports,
    Concatenation,
}

/// An assignment of a concatenation without parts.
fn nothing(alloc: Global) -> Result<Item, AllocError> {
    let target = Identifier::from_text(alloc, "other_4")?;
    Ok(Item::Assign(Assign {
        target,
        value: Expression::Concatenation(Items::new(alloc)),
    }))
}

/// The net of the counter with a list without parts. The concatenation is the right side of an assignment behind its items.
fn without_parts(alloc: Global, list: Emptied) -> Result<Net, Fault> {
    let mut net = parsed(alloc, counter())?;
    if let Some(mut counter) = net.modules.pop() {
        match list {
            Emptied::Modules => return Ok(net),
            Emptied::Ports => counter.ports = Items::new(alloc),
            Emptied::Concatenation => counter.items.push(nothing(alloc)?)?,
        }
        net.modules.push(counter)?;
    }
    Ok(net)
}

#[test]
fn lists_without_parts(rt: HostRuntime) -> Result<(), Fail> {
    for (list, part) in [
        (Emptied::Modules, Some(NetPart::Modules)),
        (Emptied::Ports, in_module(0, ModulePart::Head)),
        (Emptied::Concatenation, in_module(0, NINTH)),
    ] {
        let net = without_parts(rt.alloc(), list)?;
        assert!(rt; finds(rt.alloc(), &net, part));
    }
    Ok(())
}
