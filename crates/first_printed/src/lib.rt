//! What the hardware of the first example prints: of each text that is good Verilog of it, the bytes and the end of a run.
#![tactic(auto)]

ghost use Rattle.first_printed.specs.Printed.{FirstPrints, RoundsPrint};

/// The hardware of the first example, whatever text it is written as, prints 42 and is done.
pub fn first_prints()
    // Within 3,136 cycles in which its thread is enabled, whomever the arbiters prefer.
    ensures prints { FirstPrints }
    // Under the choices of `top_rr` in particular.
    ensures rounds { RoundsPrint }
{}
