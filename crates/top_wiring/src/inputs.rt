// What the inputs of the instances of `top` are connected to.

ghost use Rattle.std.specs.Prelude.{◌≡◌, ℕ, ◌+◌, ◌*◌, ◌^◌, ◌<◌, ◌≤◌, ◌++◌, length, slice_index, IfOk, OnOk};
ghost use Rattle.circuit.specs.Rows.{spread, EachOf};
ghost use Rattle.top_parts.specs.Parts.{group_widths, flat_from, flat_spread};
ghost use Rattle.top_wiring.specs.Top.{run, grant_places, told_places, thread_inputs, group_places, core_inputs, arbiter_inputs, HasFewTold, IsFewGroup};

use crate::places::Places;
use sqlite_items::Items;
use std::alloc::{AllocError, Global};
use top_parts::layout::{Core, Group};
use top_parts::parts::push_copies;

/// So many places from a first one on.
pub fn push_run(places: &mut Items<usize>, first: usize, count: usize) -> Result<(), AllocError>
    requires { first + count < 2 ^ 64 }
    ensures { OnOk result (places.new ≡ places.old ++ run first count) }
{
    for number in 0..count {
        places.push(first + number)?;
    }
    Ok(())
}

impl Places {
    /// The place of the first wire of an instance.
    pub fn start(&self, instance: usize) -> usize
        ensures start { result ≡ slice_index self.now.starts instance }
        ensures low { result < 2 ^ 33 }
    {
        self.starts.as_slice().get(instance).copied().unwrap_or(0)
    }

    /// The number of a core's arbiter among the instances.
    pub fn arbiter(&self, core: usize) -> usize
        requires { core < self.now.cores }
        ensures arbiter { result ≡ self.now.threads + self.now.cores + core }
        ensures low { result < 2 ^ 20 }
    {
        self.threads + self.cores + core
    }

    /// The number of a core among the instances.
    pub fn core(&self, core: usize) -> usize
        requires { core < self.now.cores }
        ensures core { result ≡ self.now.threads + core }
        ensures low { result < 2 ^ 20 }
    {
        self.threads + core
    }

    /// For each core, whether it grants a thread.
    fn push_grants(&self, inputs: &mut Items<usize>, thread: usize) -> Result<(), AllocError>
        requires { thread < self.now.threads }
        ensures { OnOk result (inputs.new ≡ inputs.old ++ spread (grant_places self.now.starts self.now.threads self.now.cores thread) 0 self.now.cores) }
    {
        for core in 0..self.cores {
            inputs.push(self.start(self.arbiter(core)) + thread)?;
        }
        Ok(())
    }

    /// What a core tells a thread.
    fn push_told(
        &self,
        inputs: &mut Items<usize>,
        thread: usize,
        core: usize,
        count: usize,
    ) -> Result<(), AllocError>
        requires inside { thread < self.now.threads }
        requires is_core { core < self.now.cores }
        requires few { count < 2 ^ 16 }
        ensures { OnOk result (inputs.new ≡ inputs.old ++ told_places self.now.starts self.now.threads self.now.cores thread core count) }
    {
        let first = self.start(self.core(core));
        for number in 0..count {
            inputs.push(first + (self.threads + (number * self.threads + thread)))?;
        }
        Ok(())
    }

    /// What all cores tell a thread.
    fn push_all_told(
        &self,
        inputs: &mut Items<usize>,
        thread: usize,
        cores: &[Core],
    ) -> Result<(), AllocError>
        requires inside { thread < self.now.threads }
        requires all { length cores.now ≡ self.now.cores }
        requires few { EachOf HasFewTold cores.now }
        ensures { OnOk result (inputs.new ≡ inputs.old ++ flat_from (λ k c. told_places self.now.starts self.now.threads self.now.cores thread k (length c.told)) 0 cores.now) }
    {
        for (number, core) in cores.iter().enumerate() {
            self.push_told(inputs, thread, number, core.told.len())?;
        }
        Ok(())
    }

    /// The inputs of a thread: `clk`, whether it is enabled, whether each core grants it, and what cores tell it.
    pub fn thread_inputs(
        &self,
        alloc: Global,
        thread: usize,
        cores: &[Core],
    ) -> Result<Items<usize>, AllocError>
        requires inside { thread < self.now.threads }
        requires all { length cores.now ≡ self.now.cores }
        requires few { EachOf HasFewTold cores.now }
        ensures { IfOk result (λ inputs. inputs ≡ thread_inputs self.now.starts self.now.threads self.now.cores cores.now thread) }
    {
        let mut inputs = Items::from_slice(alloc, &[0, 2 + self.cores + thread])?;
        self.push_grants(&mut inputs, thread)?;
        self.push_all_told(&mut inputs, thread, cores)?;
        Ok(inputs)
    }

    /// For each thread a run of its wires, so many from a number on.
    fn push_group(
        &self,
        inputs: &mut Items<usize>,
        first: usize,
        count: usize,
    ) -> Result<(), AllocError>
        requires low { first < 2 ^ 63 }
        requires few { count < 2 ^ 16 }
        ensures { OnOk result (inputs.new ≡ inputs.old ++ flat_spread (λ i. run (slice_index self.now.starts i + first) count) 0 self.now.threads) }
    {
        for thread in 0..self.threads {
            push_run(inputs, self.start(thread) + first, count)?;
        }
        Ok(())
    }

    /// What the threads ask of a core, behind the numbers that are asked of earlier ones.
    fn push_asks(
        &self,
        alloc: Global,
        inputs: &mut Items<usize>,
        asked: &mut Items<u64>,
        groups: &[Group],
    ) -> Result<(), AllocError>
        requires few { EachOf IsFewGroup groups.now }
        requires room { length asked.old + length (group_widths groups.now) < 2 ^ 32 }
        ensures inputs { OnOk result (inputs.new ≡ inputs.old ++ flat_from (group_places self.now.starts self.now.threads self.now.cores (length asked.old) groups.now) 0 groups.now) }
        ensures asked { OnOk result (asked.new ≡ asked.old ++ group_widths groups.now) }
    {
        for group in groups {
            self.push_group(inputs, asked.len(), group.count)?;
            push_copies(alloc, asked, group.width, group.count)?;
        }
        Ok(())
    }

    /// The inputs of a core: `clk`, what the threads ask, and whether each thread is granted.
    pub fn core_inputs(
        &self,
        alloc: Global,
        asked: &mut Items<u64>,
        number: usize,
        groups: &[Group],
    ) -> Result<Items<usize>, AllocError>
        requires is_core { number < self.now.cores }
        requires few { EachOf IsFewGroup groups.now }
        requires room { length asked.old + length (group_widths groups.now) < 2 ^ 32 }
        ensures inputs { IfOk result (λ inputs. inputs ≡ core_inputs self.now.starts self.now.threads self.now.cores (length asked.old) number groups.now) }
        ensures asked { OnOk result (asked.new ≡ asked.old ++ group_widths groups.now) }
    {
        let mut inputs = Items::from_slice(alloc, &[0])?;
        self.push_asks(alloc, &mut inputs, asked, groups)?;
        push_run(&mut inputs, self.start(self.arbiter(number)), self.threads)?;
        Ok(inputs)
    }

    /// The inputs of an arbiter: `clk`, the preferred thread, and whether each thread may be granted.
    pub fn arbiter_inputs(&self, alloc: Global, number: usize) -> Result<Items<usize>, AllocError>
        requires { number < self.now.cores }
        ensures { IfOk result (λ inputs. inputs ≡ arbiter_inputs self.now.starts self.now.threads self.now.cores number) }
    {
        let mut inputs = Items::from_slice(alloc, &[0, 2 + number])?;
        push_run(&mut inputs, self.start(self.core(number)), self.threads)?;
        Ok(inputs)
    }
}
