//! The lines of a worker, and how they are drawn from a number.

ghost use Rattle.std.specs.Prelude.{◌≡◌, ◌≤◌};
ghost use Rattle.generated_text.specs.Draws as spec;

/// A variable of a worker.
#[derive(Clone, Copy)]
pub enum Letter {
    A,
    B,
    C,
    D,
}

/// What a line of a worker does with its three variables.
#[derive(Clone, Copy)]
pub enum Kind {
    Sum,
    Difference,
    Product,
    ExclusiveOr,
    /// The divisor has its lowest bit set.
    Quotient,
    /// The target is one more than the left operand, where that is less than the right one.
    Raise,
    /// The target goes to the worker's own element.
    Publish,
    /// The target is added to the sum, under its mutex.
    Add,
}

/// A line of a worker. All of its variables are drawn, whether its kind names them or not.
#[derive(Clone, Copy)]
pub struct Line {
    pub kind: Kind,
    pub target: Letter,
    pub left: Letter,
    pub right: Letter,
}

/// The number from which the next draw is made.
#[derive(Drop)]
pub struct Draws {
    number: u32,
}

impl Draws {
    /// The draws that begin with a seed.
    pub fn new(seed: u32) -> Self
        ensures { result.number ≡ seed }
    {
        Draws { number: seed }
    }

    /// A number below `count`.
    fn draw(&mut self, count: u32) -> u32
        requires { 1 ≤ count }
        ensures number { self.new.number ≡ spec.drawn self.old.number }
        ensures drawn { result ≡ spec.from_draw (spec.drawn self.old.number) count }
    {
        self.number = ((self.number as u64 * 1664525 + 1013904223) % 4294967296) as u32;
        self.number / 65536 % count
    }

    /// A variable.
    fn letter(&mut self) -> Letter
        ensures number { self.new.number ≡ spec.drawn self.old.number }
        ensures letter { result ≡ spec.letter_of (spec.from_draw (spec.drawn self.old.number) 4) }
    {
        match self.draw(4) {
            0 => Letter::A,
            1 => Letter::B,
            2 => Letter::C,
            _ => Letter::D,
        }
    }

    /// A kind of line.
    fn kind(&mut self) -> Kind
        ensures number { self.new.number ≡ spec.drawn self.old.number }
        ensures kind { result ≡ spec.kind_of (spec.from_draw (spec.drawn self.old.number) 8) }
    {
        match self.draw(8) {
            0 => Kind::Sum,
            1 => Kind::Difference,
            2 => Kind::Product,
            3 => Kind::ExclusiveOr,
            4 => Kind::Quotient,
            5 => Kind::Raise,
            6 => Kind::Publish,
            _ => Kind::Add,
        }
    }

    /// The next line: its kind, then its variables.
    pub fn line(&mut self) -> Line
        ensures number { self.new.number ≡ spec.behind_line self.old.number }
        ensures line { result ≡ spec.line_at self.old.number }
    {
        let kind = self.kind();
        let target = self.letter();
        let left = self.letter();
        let right = self.letter();
        Line {
            kind,
            target,
            left,
            right,
        }
    }
}
