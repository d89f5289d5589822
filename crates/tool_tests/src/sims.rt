// What is read as Verilog.

use crate::call::{Asked, SURE, told};
use hls_tool::Status;
use std::test::Fail;

/// A net of which `a_0` depends on itself.
fn circle() -> &'static str {
    "module top(input wire clk, output wire done); wire a_0; assign a_0 = ~a_0; assign done = a_0 == a_0; endmodule"
}

/// `done` after two cycles.
pub const CLIMBING: &str =
    "module top(input wire clk, input wire en, output wire done); reg [1:0] q_0; wire [1:0] n_1; wire [1:0] c_2; assign c_2 = 2'd1; \
    assign n_1 = q_0 + c_2; assign done = q_0[1]; initial begin q_0 = 2'd0; end always @(posedge clk) begin q_0 <= n_1; end endmodule";

#[test]
fn names_the_signal_of_a_loop(rt: HostRuntime) -> Result<(), Fail> {
    let told = told(
        &rt,
        rt.alloc(),
        circle().as_bytes(),
        Asked::Sim { cycles: 2 },
        &SURE,
    )?;
    let is_right = match &told.outcome.status {
        Status::Loop { signal } => signal.as_str() == "a_0",
        _ => false,
    };
    assert!(rt; is_right);
    Ok(())
}
