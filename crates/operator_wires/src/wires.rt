// Signals of a module that is being put together: inputs, then registers, then wires, each of which reads signals before it.

ghost use Rattle.std.specs.Prelude.{◌≡◌, ◌∷◌, [], true, false, nat_eq, if◌then◌else◌, IfOk};
ghost use Rattle.verilog_tree.specs.Spelling.{is_name};
ghost use Rattle.netlist.specs.declared.netlist.Source.TheVariants as source;
ghost use Rattle.netlist.specs.declared.netlist.Value.TheVariants as right_side;
ghost use Rattle.verilog_tree.specs.declared.tree.BinaryOperator.TheVariants as gate;
ghost use Rattle.operator_wires.specs.declared.wires.Role.TheVariants as role_of;
ghost use Rattle.hls_ints.specs.Words.{word_complement, word_and, word_inclusive_or, word_equal};
ghost use Rattle.circuit.specs.Readings.{width, value, binary, joined};
ghost use Rattle.operator_wires.specs.Gives.{Stands, Gives};
ghost use Rattle.operator_wires.specs.Built.{stem_of, is_single, name_at, Lays};
ghost use Rattle.operator_wires.specs.Added.{IsAdded, ConstantAdds, NotAdds, BinaryAdds, BothAdds, NumberAdds, ChoiceAdds, BesideAdds};

use netlist::netlist::{Signal, Source, Value};
use sqlite_items::Items;
use std::alloc::{AllocError, Global};
use verilog_tree::name::Identifier;
use verilog_tree::tree::BinaryOperator;

/// What a signal is for.
#[derive(Clone, Copy)]
pub enum Role {
    /// The input `clk`.
    Clock,
    /// The input `en`.
    Enable,
    /// The output `need`.
    Need,
    /// The output `done`.
    Done,
    /// The register `beat`.
    Beat,
    /// An input: whether a core grants.
    Grant,
    /// An input: what a core tells.
    Told,
    /// An output: whether a core is asked.
    Ask,
    /// An output: what it is asked for.
    Field,
    /// The register of the stage.
    Stage,
    /// The register of the state within the stage.
    State,
    /// A register that remembers a grant.
    Granted,
    /// The register of a variable.
    Variable,
    /// A register for values of operations.
    Kept,
    /// Any other wire.
    Wire,
}

impl Role {
    fn stem(self) -> &'static str
        ensures name { is_name result.now ≡ true }
        ensures stem { result.now ≡ stem_of self }
    {
        match self {
            Role::Clock => "clk",
            Role::Enable => "en",
            Role::Need => "need",
            Role::Done => "done",
            Role::Beat => "beat",
            Role::Grant => "grant",
            Role::Told => "told",
            Role::Ask => "ask",
            Role::Field => "field",
            Role::Stage => "stage",
            Role::State => "state",
            Role::Granted => "granted",
            Role::Variable => "variable",
            Role::Kept => "kept",
            Role::Wire => "w",
        }
    }

    /// Whether a module has one signal of it, whose name has no number.
    fn is_single(self) -> bool
        ensures { result ≡ is_single self }
    {
        matches!(
            self,
            Role::Clock | Role::Enable | Role::Need | Role::Done | Role::Beat
        )
    }

    /// The name of the signal at a place.
    fn name(self, alloc: Global, place: usize) -> Result<Identifier, AllocError>
        ensures { IfOk result (λ name. name ≡ name_at self place) }
    {
        let stem = Identifier::from_text(alloc, self.stem())?;
        if self.is_single() {
            Ok(stem)
        } else {
            stem.with_number(alloc, place as u64)
        }
    }
}

/// The signals so far.
#[derive(Drop)]
pub struct Wires {
    pub alloc: Global,
    pub signals: Items<Signal>,
}

impl Wires {
    /// No signals so far.
    pub fn new(alloc: Global) -> Wires
        ensures { result.signals ≡ [] }
    {
        Wires {
            alloc,
            signals: Items::new(alloc),
        }
    }

    /// A signal behind all others. Answers its place.
    fn push(
        &mut self,
        role: Role,
        bits: u64,
        is_output: bool,
        driver: Source,
    ) -> Result<usize, AllocError>
        ensures stands { IfOk result (Stands self.old.signals self.new.signals bits driver) }
        ensures laid { IfOk result (Lays self.old.signals self.new.signals role bits is_output driver) }
    {
        let place = self.signals.len();
        let name = role.name(self.alloc, place)?;
        self.signals.push(Signal {
            name,
            width: bits,
            is_output,
            source: driver,
        })?;
        Ok(place)
    }

    /// An input of `bits` bits.
    pub fn input(&mut self, role: Role, bits: u64) -> Result<usize, AllocError>
        ensures stands { IfOk result (Stands self.old.signals self.new.signals bits source.Input) }
        ensures laid { IfOk result (Lays self.old.signals self.new.signals role bits false source.Input) }
    {
        self.push(role, bits, false, Source::Input)
    }

    /// A register of `bits` bits that begins with a number.
    pub fn register(&mut self, role: Role, bits: u64, initial: u64) -> Result<usize, AllocError>
        ensures stands { IfOk result (Stands self.old.signals self.new.signals bits (source.Register initial)) }
        ensures laid { IfOk result (Lays self.old.signals self.new.signals role bits false (source.Register initial)) }
    {
        self.push(role, bits, false, Source::Register(initial))
    }

    /// An output that copies a signal of its width.
    pub fn output(&mut self, role: Role, bits: u64, of: usize) -> Result<usize, AllocError>
        ensures stands { IfOk result (Stands self.old.signals self.new.signals bits (source.Assigned (right_side.Copy of))) }
        ensures laid { IfOk result (Lays self.old.signals self.new.signals role bits true (source.Assigned (right_side.Copy of))) }
    {
        self.push(role, bits, true, Source::Assigned(Value::Copy(of)))
    }

    /// A wire of `bits` bits.
    pub fn wire(&mut self, bits: u64, right: Value) -> Result<usize, AllocError>
        ensures shows { IfOk result (λ place. Gives self.old.signals self.new.signals place bits (λ m r. value m r right)) }
        ensures laid { IfOk result (Lays self.old.signals self.new.signals role_of.Wire bits false (source.Assigned right)) }
        ensures wired { IfOk result (IsAdded self.old.signals self.new.signals bits right) }
    {
        self.push(Role::Wire, bits, false, Source::Assigned(right))
    }

    /// A number of `bits` bits.
    pub fn constant(&mut self, bits: u64, number: u64) -> Result<usize, AllocError>
        ensures shows { IfOk result (λ place. Gives self.old.signals self.new.signals place bits (λ m r. number)) }
        ensures wired { IfOk result (ConstantAdds self.old.signals self.new.signals bits number) }
    {
        self.wire(bits, Value::Constant(number))
    }

    /// The complement of a signal, in `bits` bits.
    pub fn not(&mut self, bits: u64, of: usize) -> Result<usize, AllocError>
        ensures shows { IfOk result (λ place. Gives self.old.signals self.new.signals place bits (λ m r. word_complement (width m of) (r.signal of))) }
        ensures wired { IfOk result (NotAdds self.old.signals self.new.signals bits of) }
    {
        self.wire(bits, Value::BitwiseNot(of))
    }

    /// An operator whose result has `bits` bits.
    pub fn binary(
        &mut self,
        bits: u64,
        operator: BinaryOperator,
        left: usize,
        right: usize,
    ) -> Result<usize, AllocError>
        ensures shows { IfOk result (λ place. Gives self.old.signals self.new.signals place bits (λ m r. binary operator (width m left) (r.signal left) (r.signal right))) }
        ensures laid { IfOk result (Lays self.old.signals self.new.signals role_of.Wire bits false (source.Assigned (right_side.Binary operator left right))) }
        ensures wired { IfOk result (BinaryAdds self.old.signals self.new.signals operator bits left right) }
    {
        self.wire(
            bits,
            Value::Binary {
                operator,
                left,
                right,
            },
        )
    }

    /// Both of two bits.
    pub fn both(&mut self, left: usize, right: usize) -> Result<usize, AllocError>
        ensures shows { IfOk result (λ place. Gives self.old.signals self.new.signals place 1 (λ m r. word_and (width m left) (r.signal left) (r.signal right))) }
        ensures laid { IfOk result (Lays self.old.signals self.new.signals role_of.Wire 1 false (source.Assigned (right_side.Binary gate.And left right))) }
        ensures wired { IfOk result (BothAdds self.old.signals self.new.signals left right) }
    {
        self.binary(1, BinaryOperator::And, left, right)
    }

    /// One of two bits.
    pub fn either(&mut self, left: usize, right: usize) -> Result<usize, AllocError>
        ensures shows { IfOk result (λ place. Gives self.old.signals self.new.signals place 1 (λ m r. word_inclusive_or (width m left) (r.signal left) (r.signal right))) }
        ensures wired { IfOk result (BothAdds self.old.signals self.new.signals left right) }
    {
        self.binary(1, BinaryOperator::Or, left, right)
    }

    /// Whether a signal has a number.
    pub fn is_number(&mut self, bits: u64, of: usize, number: u64) -> Result<usize, AllocError>
        ensures shows { IfOk result (λ place. Gives self.old.signals self.new.signals place 1 (λ m r. word_equal (width m of) (r.signal of) number)) }
        ensures wired { IfOk result (NumberAdds self.old.signals self.new.signals bits of number) }
    {
        let constant = self.constant(bits, number)?;
        self.binary(1, BinaryOperator::Equal, of, constant)
    }

    /// One of two signals, by whether a condition is 0.
    pub fn choice(
        &mut self,
        bits: u64,
        condition: usize,
        if_true: usize,
        if_false: usize,
    ) -> Result<usize, AllocError>
        ensures shows { IfOk result (λ place. Gives self.old.signals self.new.signals place bits (λ m r. if nat_eq (r.signal condition) 0 then r.signal if_false else r.signal if_true)) }
        ensures wired { IfOk result (ChoiceAdds self.old.signals self.new.signals bits condition if_true if_false) }
    {
        self.wire(
            bits,
            Value::Conditional {
                condition,
                if_true,
                if_false,
            },
        )
    }

    /// Two signals beside each other, the first with the higher bits.
    pub fn beside(&mut self, bits: u64, high: usize, low: usize) -> Result<usize, AllocError>
        ensures shows { IfOk result (λ place. Gives self.old.signals self.new.signals place bits (λ m r. joined m r (high ∷ low ∷ []) 0)) }
        ensures wired { IfOk result (BesideAdds self.old.signals self.new.signals bits high low) }
    {
        let parts = Items::from_slice(self.alloc, &[high, low])?;
        self.wire(bits, Value::Concatenation(parts))
    }
}
