// The three nets, as Verilog texts.

ghost use Rattle.std.specs.Prelude.{◌≡◌, IfOk};
ghost use Rattle.netlist.specs.NetlistOf.{netlist_of};
ghost use Rattle.cycle_sim.specs.Opened.{IsOpenable};

use net_netlist::netlist;
use netlist::netlist::Netlist;
use std::alloc::{AllocError, Global};
use verilog_reader::read::{ReadError, read};
use verilog_tree::tree::Net;

/// `left` reads `right`, which reads `left`; `ready`, which stands before both, reads nothing.
pub fn looped() -> &'static str {
    "module top(input wire clk, output wire done); wire ready; wire left; wire right; assign ready = 1'd1; assign left = ~right; assign right = left; \
    assign done = right; endmodule"
}

/// Done is shown after two cycles, of which each writes `en` and `pref_0`. The global `x` is 7, 9, 11, 13 in two banks, and an edge makes the last two of
/// them 1.
pub fn counter() -> &'static str {
    "module bank(input wire clk); reg [3:0] bank_x_0 [0:1]; reg [3:0] bank_x_1 [0:1]; wire [3:0] one; assign one = 4'd1; \
    initial begin bank_x_0[0] = 4'd7; bank_x_0[1] = 4'd11; bank_x_1[0] = 4'd9; bank_x_1[1] = 4'd13; end \
    always @(posedge clk) begin bank_x_0[one] <= one; bank_x_1[one] <= one; end endmodule \
    module top(input wire clk, input wire [1:0] en, input wire [3:0] pref_0, output wire done); reg [1:0] count; wire [1:0] one; wire [1:0] next; \
    assign one = 2'd1; assign next = count + one; assign done = count[1]; initial begin count = 2'd0; end \
    always @(posedge clk) begin count <= next; $write(\"%0d,%0d;\", en, pref_0); end bank u_x_0(.clk(clk)); bank u_x_1(.clk(clk)); endmodule"
}

/// `q_0`, of two bits, counts from 0, and `done` is its higher bit.
pub fn dumped() -> &'static str {
    "module top(input wire clk, input wire en, output wire done); reg [1:0] q_0; wire [1:0] n_1; wire [1:0] c_2; assign c_2 = 2'd1; \
    assign n_1 = q_0 + c_2; assign done = q_0[1]; initial begin q_0 = 2'd0; end always @(posedge clk) begin q_0 <= n_1; end endmodule"
}

fn boxed(alloc: Global, net: &Net) -> Result<Box<Netlist>, AllocError>
    ensures { IfOk result (λ n. n.value ≡ netlist_of net.now) }
{
    let made = netlist(alloc, net)?;
    let held = Box::new(alloc, made)?;
    Ok(held)
}

/// The netlist of the net that the text spells, which a simulator can open.
#[tactic(auto, using(crate::proofs::Opens::opens))]
pub fn net_of(alloc: Global, text: &str) -> Result<Box<Netlist>, ReadError>
    ensures { IfOk result (λ n. IsOpenable n.value.modules) }
{
    let net = read(alloc, text.as_bytes())?;
    let held = boxed(alloc, &net)?;
    Ok(held)
}
