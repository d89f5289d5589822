// A module that counts up to 2, trees of texts, and what is laid out of their netlists.

use grammar::Fault;
use net_netlist::netlist;
use netlist::netlist::Signal;
use netlist_text::text_of;
use sqlite_items::Items;
use std::alloc::Global;
use verilog_expressions::cursor::Cursor;
use verilog_lexer::tokens::lex;
use verilog_parser::modules::net;
use verilog_tree::tree::Net;

/// Three ports, one register, two wires, three assigns, the initial block and the always block.
pub fn counter() -> &'static str {
    "module counter(input wire clk, input wire en, output wire done);
  reg [1:0] q_0;
  wire [1:0] n_1;
  wire [1:0] c_2;
  assign n_1 = q_0 + c_2;
  assign c_2 = 2'd1;
  assign done = q_0[1];
  initial begin
    q_0 = 2'd0;
  end
  always @(posedge clk) begin
    q_0 <= n_1;
  end
endmodule
"
}

/// The tree of a text, well formed or not.
pub fn parsed(alloc: Global, text: &str) -> Result<Net, Fault> {
    let lexed = lex(alloc, text.as_bytes())?;
    let mut cursor = Cursor::new(lexed.tokens.as_slice());
    net(alloc, &mut cursor, 9)
}

/// The tree that is laid out of the netlist of a text.
pub fn laid(alloc: Global, text: &str) -> Result<Net, Fault> {
    let net = parsed(alloc, text)?;
    let netlist = netlist(alloc, &net)?;
    Ok(text_of(alloc, &netlist)?)
}

/// The name of the signal at a place, or nothing.
pub fn name_at(signals: &Items<Signal>, place: usize) -> &str {
    match signals.get(place) {
        Some(signal) => signal.name.as_str(),
        None => "",
    }
}
