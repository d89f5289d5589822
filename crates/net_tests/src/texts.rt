// Netlists laid out, and their texts, compared with texts by hand.

use crate::small::{counter, laid, parsed};
use std::alloc::{AllocError, Global};
use std::test::Fail;
use verilog_tree::name::Quoted;
use verilog_tree::tree::{Module, Net};
use verilog_writer::write;

fn is_counter(modules: &[Module]) -> bool {
    match modules {
        [laid] => {
            laid.name.as_str() == "counter" && laid.ports.len() == 3 && laid.items.len() == 8
        }
        _ => false,
    }
}

#[test]
fn lays_a_counter_out(rt: HostRuntime) -> Result<(), Fail> {
    let net = laid(rt.alloc(), counter())?;
    assert!(rt; is_counter(net.modules.as_slice()));
    Ok(())
}

fn each_form() -> &'static str {
    "module bank(input wire clk, input wire [7:0] value);
endmodule
module forms(input wire clk, input wire [7:0] x, input wire [7:0] x_0);
  wire [7:0] x_1;
  wire x_2;
  wire [7:0] x_3;
  wire [7:0] x_4;
  wire [7:0] x_5;
  wire [15:0] x_6;
  wire [31:0] x_7;
  wire [4:0] x_8;
  wire [7:0] x_9;
  reg [7:0] words[0:3];
  assign x_1 = (x_0 == 8'd0) ? 8'sd0 : $signed(x) % $signed(x_0);
  assign x_2 = $signed(x) < $signed(x_0);
  assign x_3 = $signed(x) >>> x_0;
  assign x_4 = (x_0 == 8'd0) ? 8'd0 : x / x_0;
  assign x_5 = (x < 8'd4) ? words[x] : 8'd0;
  assign x_6 = {x, x_0};
  assign x_7 = {4{x}};
  assign x_8 = x[6:2];
  assign x_9 = ~x;
  initial begin
    words[0] = 8'd0;
    words[1] = 8'd1;
    words[2] = 8'd2;
    words[3] = 8'd255;
  end
  bank u_x_0(.clk(clk), .value(x));
endmodule
"
}

/// A block with a condition round two statements.
fn printing() -> &'static str {
    "module printing(input wire clk);
  always @(posedge clk) begin
    if (x_2) begin
      $write(\"%0d, %0d\\n\", x, $signed(x_0));
      words[x] <= x_0;
    end
  end
endmodule
"
}

fn is_written_as(alloc: Global, net: &Net, text: &str) -> Result<bool, AllocError> {
    let written = write(alloc, net)?;
    Ok(written.as_slice() == text.as_bytes())
}

/// What is laid out of a netlist is written as the text that has it, and so is the tree of a text.
#[test]
fn writes_the_text_that_was_read(rt: HostRuntime) -> Result<(), Fail> {
    for text in [counter(), each_form()] {
        let net = laid(rt.alloc(), text)?;
        assert!(rt; is_written_as(rt.alloc(), &net, text)?);
    }
    let net = parsed(rt.alloc(), printing())?;
    assert!(rt; is_written_as(rt.alloc(), &net, printing())?);
    Ok(())
}

/// A string is kept as it stands between its quotes.
#[test]
fn a_string_keeps_its_escapes(rt: HostRuntime) -> Result<(), Fail> {
    let text = Quoted::from_text(rt.alloc(), "%0d, %0d\\n")?;
    assert!(rt; text.as_str() == "%0d, %0d\\n");
    Ok(())
}
