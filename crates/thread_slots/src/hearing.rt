// Words that banks tell, heard where a core is needed.

ghost use Rattle.std.specs.Prelude.{length, IfOk};
ghost use Rattle.thread_slots.specs.Hearing.{HearsWords, AddsHeard};

use block_datapath::registers::Held;
use netlist::netlist::Value;
use operator_wires::wires::Wires;
use sqlite_items::Items;
use std::alloc::AllocError;

/// For each bank a wire that shows the word which the bank tells where a core is needed, and 0 elsewhere.
pub fn hear(wires: &mut Wires, need: usize, words: &[Held]) -> Result<Items<Held>, AllocError>
    ensures shows { IfOk result (HearsWords wires.old.signals wires.new.signals need words.now (length words.now)) }
    ensures wired { IfOk result (AddsHeard wires.old.signals wires.new.signals need words.now) }
{
    let mut heard = Items::new(wires.alloc);
    for word in words {
        let width = word.width;
        let silence = wires.wire(width, Value::Constant(0))?;
        let right = Value::Conditional {
            condition: need,
            if_true: word.register,
            if_false: silence,
        };
        let register = wires.wire(width, right)?;
        heard.push(Held { register, width })?;
    }
    Ok(heard)
}
