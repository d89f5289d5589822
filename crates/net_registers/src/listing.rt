// A dump's head and the registers that it names, while they grow.

ghost use Rattle.std.specs.Prelude.{◌≡◌, ◌++◌, ◌∷◌, [], ◌<◌, ◌^◌, codes, length, is_ok, OnOk, IfOk, if◌then◌else◌};
ghost use Rattle.sim_layout.specs.Placed.{is_register};
ghost use Rattle.vcd_text.specs.Recover.{IsHeadLine};
ghost use Rattle.net_registers.specs.Heads as heads;
ghost use Rattle.net_registers.specs.Walks.{first_listing};

use hls_io::{Bytes, put_dec};
use netlist::netlist::{Signal, Source};
use sim_layout::wires::further;
use sqlite_items::Items;
use std::alloc::{AllocError, Global};
use vcd_text::put_id;
use verilog_tree::name::Identifier;

/// The head of a dump, and of each register that it names where its number stands among a simulator's words, and its width in bits.
#[derive(Drop)]
pub struct Listing {
    pub head: Bytes,
    pub places: Items<usize>,
    pub widths: Items<u64>,
}

fn put_scope(head: &mut Bytes, name: &Identifier) -> Result<(), AllocError>
    ensures head { OnOk result (head.new ≡ head.old ++ (heads.scope_line name.now ++ 10 ∷ [])) }
    ensures line { OnOk result (IsHeadLine (heads.scope_line name.now)) }
{
    head.put(b"$scope module ")?;
    head.put(name.as_str().as_bytes())?;
    head.put(b" $end\n")?;
    Ok(())
}

fn put_register(head: &mut Bytes, number: usize, signal: &Signal) -> Result<(), AllocError>
    ensures head { OnOk result (head.new ≡ head.old ++ (heads.register_line number signal.now ++ 10 ∷ [])) }
    ensures line { OnOk result (IsHeadLine (heads.register_line number signal.now)) }
{
    head.put(b"$var reg ")?;
    put_dec(head, signal.width as i128)?;
    head.push(b' ')?;
    put_id(head, number as u64)?;
    head.push(b' ')?;
    head.put(signal.name.as_str().as_bytes())?;
    head.put(b" $end\n")?;
    Ok(())
}

fn is_register(source: &Source) -> bool
    ensures { result ≡ is_register source.now }
{
    matches!(source, Source::Register(_))
}

impl Listing {
    /// The first line of a head, and no registers.
    pub fn new(alloc: Global) -> Result<Listing, AllocError>
        ensures { IfOk result (λ l. l ≡ first_listing) }
    {
        let mut head = Bytes::new(alloc);
        head.put(b"$timescale 1 ns $end\n")?;
        Ok(Listing {
            head,
            places: Items::new(alloc),
            widths: Items::new(alloc),
        })
    }

    /// How many registers there are.
    pub fn count(&self) -> usize
        ensures count { result ≡ length self.now.widths }
        ensures few { length self.now.widths < 2 ^ 64 }
    {
        self.widths.len()
    }

    /// Begins the scope of an instance of this name.
    pub fn enter(&mut self, name: &Identifier) -> Result<(), AllocError>
        ensures { OnOk result (heads.HasLine self.old self.new (heads.scope_line name.now)) }
    {
        put_scope(&mut self.head, name)?;
        Ok(())
    }

    /// Ends a scope.
    pub fn leave(&mut self) -> Result<(), AllocError>
        ensures { OnOk result (heads.HasLine self.old self.new heads.end_line) }
    {
        self.head.put(b"$upscope $end\n")?;
        Ok(())
    }

    /// Ends the head.
    pub fn finish(&mut self) -> Result<(), AllocError>
        ensures { OnOk result (heads.HasLine self.old self.new (codes "$enddefinitions $end")) }
    {
        self.head.put(b"$enddefinitions $end\n")?;
        Ok(())
    }

    /// Adds a register whose number stands at a place.
    fn add(&mut self, place: usize, signal: &Signal) -> Result<(), AllocError>
        ensures { OnOk result (heads.HasRegister self.old self.new place signal.now) }
    {
        put_register(&mut self.head, self.places.len(), signal)?;
        self.places.push(place)?;
        self.widths.push(signal.width)?;
        Ok(())
    }

    /// Adds a signal of an instance whose words stand from a base on, if the signal is a register.
    fn add_signal(&mut self, base: usize, number: usize, signal: &Signal) -> Result<(), AllocError>
        ensures { OnOk result (heads.HasSignal self.old self.new base number signal.now) }
    {
        if !is_register(&signal.source) {
            return Ok(());
        }
        let place = further(base, number)?;
        self.add(place, signal)?;
        Ok(())
    }

    /// Adds the registers among the signals of an instance whose words stand from a base on.
    pub fn add_signals(&mut self, base: usize, signals: &[Signal]) -> Result<(), AllocError>
        ensures { OnOk result (heads.HasOwn self.old self.new base signals.now) }
    {
        for number in 0..signals.len() {
            self.add_signal(base, number, &signals[number])?;
        }
        Ok(())
    }
}
