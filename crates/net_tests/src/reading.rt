// Reads of small texts.

use std::alloc::{AllocError, Global};
use std::process::Abort;
use std::test::Fail;
use verilog_reader::read::{ReadError, read};

/// A text with a mark `^` where it is no net, without that mark, and the mark's offset.
fn marked(alloc: Global, text: &str) -> Result<(Vec<u8>, Option<usize>), AllocError> {
    let mut bytes = Vec::new(alloc);
    let mut place = None;
    for (offset, b) in text.as_bytes().iter().enumerate() {
        if *b == b'^' {
            place = Some(offset);
        } else {
            bytes.push(*b)?;
        }
    }
    Ok((bytes, place))
}

/// Whether the text without the mark is no net at the mark, or a net where it has no mark.
fn is_as_marked(alloc: Global, text: &str) -> Result<bool, AllocError> {
    let (bytes, place) = marked(alloc, text)?;
    Ok(match (read(alloc, bytes.as_slice()), place) {
        (Ok(_), None) => true,
        (Err(ReadError::NotNet { offset }), Some(place)) => offset == place,
        _ => false,
    })
}

/// Nets, and texts that are none.
const TEXTS: [&str; 68] = [
    // Texts at which no sentence goes on, or whose bytes make no token.
    "^",
    "  // nothing\n ^",
    "module top(^); endmodule",
    "module top(input wire clk, output ^reg done); assign done = 1'd1; endmodule",
    "module top(input wire clk, output wire done); assign done = clk ^/ clk; endmodule",
    "module top(input wire clk, output wire done); assign done = 1'd1; endmodule ^#",
    "module top(input wire clk, output wire done); assign done = 1'd1; endmodule ^end",
    "module top(input wire clk, output wire done); assign done = 1'd1; ^",
    "module top(input wire clk, output wire done); assign done = 1'd^007; endmodule",
    "module top(input wire clk, output wire done); assign done = 64'd^18446744073709551616; endmodule",
    "module top(input wire clk, output wire done); assign ^wire = 1'd1; endmodule",
    "module top(input wire clk, output wire done); reg m ^[0:3]; endmodule",
    "module top(input wire clk, output wire done); reg [7:^1] m; endmodule",
    "module top(input wire clk, output wire done); assign done = (a == 8'd0) ? 8'd0 : ^$signed(a) / $signed(a); endmodule",
    "module top(input wire clk, output wire done); always @(posedge clk) begin $write(^\"%0d); end endmodule",
    "module top(input wire clk, output wire done); always @(posedge ^done) begin end endmodule",
    "module top(input wire clk, output wire done); reg q; initial begin q = 1'd0; \
        end always @(posedge clk) begin if (q) begin if (q) begin q <= q; $write(\"%0d\\n\", q, $signed(q^; end end end assign done = q; endmodule",
    // Nets, and nets of which one part breaks a rule.
    "module top(input wire clk, input wire en, output wire done); reg [1:0] q_0; wire [1:0] n_1; wire [1:0] c_2; assign c_2 = 2'd1; \
        assign n_1 = q_0 + c_2; assign done = q_0[1]; initial begin q_0 = 2'd0; end always @(posedge clk) begin q_0 <= n_1; end endmodule",
    "module top(input wire clk, output wire done); wire a_0; assign a_0 = ~a_0; assign done = a_0 == a_0; endmodule",
    "module a(input wire x); endmodule module ^a(input wire x); endmodule module top(input wire clk, output wire done); assign done = 1'd1; endmodule",
    "module ^clk(input wire a); endmodule module top(input wire clk, input wire x, output wire done); assign done = 1'd1; endmodule",
    "module ^a(output wire y); reg q; initial begin q = 1'd0; end always @(posedge clk) begin q <= q; end assign y = q; endmodule \
        module top(input wire clk, output wire done); a u(.y(done)); endmodule",
    "module ^a(input wire clk); always @(posedge clk) begin $write(\"x\"); end endmodule module top(input wire clk, output wire done); assign done = 1'd1; endmodule",
    "module top(input wire clk, output wire done); assign done = 1'd1; wire a; assign a = 1'd1; ^wire a; endmodule",
    "module top(input wire clk, output wire done); assign done = 1'd1; ^wire clk; endmodule",
    "module a(input wire x); endmodule module top(input wire clk, output wire done); assign done = 1'd1; ^a done(.x(done)); endmodule",
    "module top(input wire clk, output wire done); assign done = 1'd1; ^wire [64:0] a; endmodule",
    "module top(input wire clk, output wire done); assign done = 1'd1; ^wire a; endmodule",
    "module top(input wire clk, output wire done); assign done = 1'd1; ^reg q; initial begin q = 1'd0; end endmodule",
    "module top(input wire clk, output wire done); assign done = 1'd1; ^reg q; always @(posedge clk) begin q <= q; end endmodule",
    "module top(input wire clk, output wire done); assign done = 1'd1; reg q; initial begin q = 1'd0; end ^initial begin q = 1'd1; end \
        always @(posedge clk) begin q <= q; end endmodule",
    "module top(input wire clk, output wire done); assign done = 1'd1; reg q; initial begin q = 1'd0; end always @(posedge clk) begin q <= q; end \
        ^always @(posedge clk) begin q <= done; end endmodule",
    "module top(input wire clk, output wire done); assign done = 1'd1; ^reg [0:0] m [0:1]; initial begin m[0] = 1'd0; end endmodule",
    "module top(input wire clk, output wire done); assign done = 1'd1; reg [0:0] m [0:0]; initial begin m[0] = 1'd0; end ^initial begin m[1] = 1'd0; end endmodule",
    "module top(input wire clk, output wire done); assign done = 1'd1; ^assign done = 1'd1; endmodule",
    "module top(input wire clk, output wire done); ^assign done = clk; endmodule",
    "module top(input wire clk, output wire done); ^assign done = 1'd2; endmodule",
    "module top(input wire clk, output wire done); wire [1:0] a; assign a = 2'd1; ^assign done = a; endmodule",
    "module top(input wire clk, output wire done); wire [1:0] a; assign a = 2'd1; ^assign done = a[2]; endmodule",
    "module top(input wire clk, output wire done); wire a; assign a = 1'd1; ^assign done = a[0]; endmodule",
    "module top(input wire clk, output wire done); wire a; assign a = 1'd1; wire b; assign b = 1'd1; ^assign done = (a == 1'd0) ? 1'd0 : a / b; endmodule",
    "module top(input wire clk, output wire done); wire a; assign a = 1'd1; reg [0:0] m [0:0]; initial begin m[0] = 1'd0; end \
        ^assign done = (a < 1'd0) ? m[a] : 1'd0; endmodule",
    "module top(input wire clk, output wire done); reg [0:0] m [0:0]; initial begin m[0] = 1'd0; end ^assign done = m; endmodule",
    "module top(input wire clk, output wire done); assign done = 1'd1; ^always @(posedge clk) begin if (done) begin done <= done; end end endmodule",
    "module top(input wire clk, output wire done); assign done = 1'd1; ^always @(posedge clk) begin $write(\"%d\"); end endmodule",
    "module top(input wire clk, output wire done); assign done = 1'd1; ^always @(posedge clk) begin $write(\"%0d%0d\", done); end endmodule",
    "module top(input wire clk, output wire done); assign done = 1'd1; always @(posedge clk) begin $write(\"x\"); end \
        ^always @(posedge clk) begin $write(\"y\"); end endmodule",
    "module a(input wire clk); always @(posedge clk) begin $write(\"x\"); end endmodule module top(input wire clk, output wire done); assign done = 1'd1; \
        a u(.clk(clk)); ^a v(.clk(clk)); endmodule",
    "module top(input wire clk, output wire done); assign done = 1'd1; ^a u(.x(done)); endmodule module a(input wire x); endmodule",
    "module a(input wire x, input wire y); endmodule module top(input wire clk, output wire done); assign done = 1'd1; ^a u(.x(done)); endmodule",
    "module a(input wire [1:0] x); endmodule module top(input wire clk, output wire done); assign done = 1'd1; ^a u(.x(done)); endmodule",
    "module a(input wire clk); endmodule module top(input wire clk, output wire done); assign done = 1'd1; ^a u(.clk(done)); endmodule",
    "module a(input wire x); endmodule module top(input wire clk, output wire done); assign done = 1'd1; ^a u(.x(clk)); endmodule",
    "module sub(input wire a, output wire b); assign b = a; endmodule module top(input wire clk, output wire done); wire c; \
        assign c = 1'd1; ^sub s(.a(c), .b(done), .b(done)); endmodule",
    "module top(input wire clk, ^output wire done); reg [0:0] m [0:3]; wire [1:0] a; endmodule",
    "module top(input wire clk, input wire en, ^input wire en, output wire done); assign done = 1'd1; endmodule",
    "module top(input wire clk, ^input wire [64:0] en, output wire done); assign done = 1'd1; endmodule",
    // Nets, and nets whose `top` is none that is run.
    "module ^top(output wire done); assign done = 1'd1; endmodule",
    "module ^top(input wire clk); endmodule",
    "module tip(input wire clk, output wire done); assign done = 1'd1; endmodule^",
    "module top(input wire clk, input wire [3:0] pref_0, ^input wire [3:0] pref_2, output wire done); assign done = 1'd1; endmodule",
    "module top(input wire clk, input wire [5:0] pref_1, input wire [3:0] pref_0, output wire done); assign done = 1'd1; endmodule",
    "module top(input wire clk, ^input wire [2:0] pref_0, output wire done); assign done = 1'd1; endmodule",
    "module top(input wire clk, ^input wire [3:0] pref_00, output wire done); assign done = 1'd1; endmodule",
    "module top(input wire clk, ^input wire other, output wire done); assign done = 1'd1; endmodule",
    "module top(^output wire clk, output wire done); assign clk = 1'd1; assign done = 1'd1; endmodule",
    "module top(input wire clk, ^output wire en, output wire done); assign en = 1'd1; assign done = 1'd1; endmodule",
    "module top(input wire clk, ^output wire [1:0] done); assign done = 2'd1; endmodule",
];

fn texts() -> &'static [&'static str] {
    &TEXTS
}

#[test]
fn texts_are_as_marked(rt: HostRuntime) -> Result<(), Fail> {
    for text in texts() {
        if !is_as_marked(rt.alloc(), text)? {
            rt.panic(*text);
        }
    }
    Ok(())
}
