// Kinds and widths of declared names.

ghost use Rattle.std.specs.Prelude.{◌≡◌, ◌==◌, nat_lt};
ghost use Rattle.verilog_tree.specs.Scope as declared;
ghost use Rattle.verilog_tree.specs.WellFormed.{is_input};

use verilog_tree::kind::{Kind, SignalClass};
use verilog_tree::name::Identifier;
use verilog_tree::tree::{Direction, Port};

/// The width of a declaration: one bit without a range, and 0 where the range is wider than 64 bits.
pub fn width_of(high: Option<u64>) -> u64
    ensures { result ≡ declared.width_of high }
{
    match high {
        None => 1,
        Some(high) => { if high < 64 { high + 1 } else { 0 } }
    }
}

/// Whether it is the name of the clock, `clk`.
pub fn is_clk(name: &Identifier) -> bool
    ensures { result ≡ declared.is_clk name.now }
{
    name.as_str() == "clk"
}

/// Whether a port of this direction is an input.
pub fn is_input(direction: Direction) -> bool
    ensures { result ≡ is_input direction }
{
    match direction {
        Direction::Input => true,
        Direction::Output => false,
    }
}

/// A signal that is declared with this range.
pub fn signal(class: SignalClass, high: Option<u64>) -> Kind
    ensures { result ≡ declared.signal class high }
{
    Kind::Signal {
        class,
        width: width_of(high),
        has_range: high.is_some(),
    }
}

/// What a port is declared as.
pub fn port_kind(port: &Port) -> Kind
    ensures { (port.now.name, result) ≡ declared.port_declaration port.now }
{
    if is_clk(&port.name) {
        return Kind::Clock;
    }
    match port.direction {
        Direction::Input => signal(SignalClass::Input, port.high),
        Direction::Output => signal(SignalClass::Output, port.high),
    }
}

// Of a name that is not declared, or is of another kind, a width is 0.

/// The width of a name that an expression may read.
pub fn read_width(kind: Option<Kind>) -> u64
    ensures { result ≡ declared.read_width kind }
{
    match kind {
        Some(Kind::Signal { width, .. }) => width,
        _ => 0,
    }
}

/// The width of a name with a range that an expression may read.
pub fn ranged_width(kind: Option<Kind>) -> u64
    ensures { result ≡ declared.ranged_width kind }
{
    match kind {
        Some(
            Kind::Signal {
                width,
                has_range,
                ..
            },
        ) => { if has_range { width } else { 0 } }
        _ => 0,
    }
}

/// The width of a name that an assign or an instance's output may drive.
pub fn driven_width(kind: Option<Kind>) -> u64
    ensures { result ≡ declared.driven_width kind }
{
    match kind {
        Some(Kind::Signal { class, width, .. }) => match class {
            SignalClass::Wire | SignalClass::Output => width,
            SignalClass::Input | SignalClass::Register => 0,
        },
        _ => 0,
    }
}

/// The width of a register.
pub fn register_width(kind: Option<Kind>) -> u64
    ensures { result ≡ declared.register_width kind }
{
    match kind {
        Some(Kind::Signal { class, width, .. }) => match class {
            SignalClass::Register => width,
            _ => 0,
        },
        _ => 0,
    }
}

/// The width of a memory's words.
pub fn memory_width(kind: Option<Kind>) -> u64
    ensures { result ≡ declared.memory_width kind }
{
    match kind {
        Some(Kind::Memory { width, .. }) => width,
        _ => 0,
    }
}

/// Whether a memory has this number of words; what is no memory has none.
pub fn has_words(kind: Option<Kind>, count: u64) -> bool
    ensures { result ≡ (count == declared.words_of kind) }
{
    match kind {
        Some(Kind::Memory { last, .. }) => count > 0 && count - 1 == last,
        _ => count == 0,
    }
}

/// Whether a memory has a word with this number.
pub fn has_word(kind: Option<Kind>, word: u64) -> bool
    ensures { result ≡ nat_lt word (declared.words_of kind) }
{
    match kind {
        Some(Kind::Memory { last, .. }) => word <= last,
        _ => false,
    }
}

/// Whether the name is declared as the clock.
pub fn is_clock(kind: Option<Kind>) -> bool
    ensures { result ≡ declared.is_clock kind }
{
    matches!(kind, Some(Kind::Clock))
}
