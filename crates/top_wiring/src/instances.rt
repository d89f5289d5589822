// The instances of `top`.

ghost use Rattle.std.specs.Prelude.{◌≡◌, ℕ, ◌+◌, ◌^◌, ◌<◌, ◌≤◌, ◌++◌, length, IfOk, OnOk, take, slice_get};
ghost use Rattle.circuit.specs.Rows.{spread, EachOf};
ghost use Rattle.top_parts.specs.Parts.{each_from, group_widths, ask_widths, output_count};
ghost use Rattle.top_wiring.specs.Top.{outputs_at, thread_instance, core_instance, arbiter_instance, instances_of, HasFewTold, HasFewGroups};

use crate::inputs::push_run;
use crate::places::Places;
use crate::signals::numbered;
use netlist::netlist::Instance;
use sqlite_items::Items;
use std::alloc::{AllocError, Global};
use top_parts::layout::{Core, Layout};

impl Places {
    /// How many wires an instance drives.
    pub fn count(&self, instance: usize) -> usize
        ensures count { result ≡ output_count (slice_get self.now.parts instance) }
        ensures few { result < 2 ^ 32 }
    {
        match self.parts.get(instance) {
            Some(part) => part.outputs.len(),
            None => 0,
        }
    }

    /// The wires that an instance drives.
    fn outputs(&self, alloc: Global, instance: usize) -> Result<Items<usize>, AllocError>
        ensures { IfOk result (λ outputs. outputs ≡ outputs_at self.now.starts self.now.parts instance) }
    {
        let mut outputs = Items::new(alloc);
        push_run(&mut outputs, self.start(instance), self.count(instance))?;
        Ok(outputs)
    }

    fn thread_instance(
        &self,
        alloc: Global,
        thread: usize,
        number: usize,
        cores: &[Core],
    ) -> Result<Instance, AllocError>
        requires inside { thread < self.now.threads }
        requires all { length cores.now ≡ self.now.cores }
        requires few { EachOf HasFewTold cores.now }
        ensures { IfOk result (λ it. it ≡ thread_instance self.now.starts self.now.threads self.now.cores self.now.parts cores.now thread number) }
    {
        Ok(Instance {
            name: numbered(alloc, "t", thread)?,
            of: number,
            inputs: self.thread_inputs(alloc, thread, cores)?,
            outputs: self.outputs(alloc, thread)?,
        })
    }

    fn push_threads(
        &self,
        alloc: Global,
        instances: &mut Items<Instance>,
        threads: &[usize],
        cores: &[Core],
    ) -> Result<(), AllocError>
        requires all_threads { length threads.now ≡ self.now.threads }
        requires all { length cores.now ≡ self.now.cores }
        requires few { EachOf HasFewTold cores.now }
        ensures { OnOk result (instances.new ≡ instances.old ++ each_from (thread_instance self.now.starts self.now.threads self.now.cores self.now.parts cores.now) 0 threads.now) }
    {
        for (thread, number) in threads.iter().enumerate() {
            let instance = self.thread_instance(alloc, thread, *number, cores)?;
            instances.push(instance)?;
        }
        Ok(())
    }

    fn core_instance(
        &self,
        alloc: Global,
        asked: &mut Items<u64>,
        number: usize,
        core: &Core,
    ) -> Result<Instance, AllocError>
        requires is_core { number < self.now.cores }
        requires few { HasFewGroups core.now }
        requires room { length asked.old + length (group_widths core.now.groups) < 2 ^ 32 }
        ensures instance { IfOk result (λ it. it ≡ core_instance self.now.starts self.now.threads self.now.cores self.now.parts (length asked.old) number core.now) }
        ensures asked { OnOk result (asked.new ≡ asked.old ++ group_widths core.now.groups) }
    {
        let inputs = self.core_inputs(alloc, asked, number, core.groups.as_slice())?;
        let outputs = self.outputs(alloc, self.core(number))?;
        Ok(Instance {
            name: core.name.clone()?,
            of: core.module,
            inputs,
            outputs,
        })
    }

    fn push_cores(
        &self,
        alloc: Global,
        instances: &mut Items<Instance>,
        cores: &[Core],
    ) -> Result<(), AllocError>
        requires all { length cores.now ≡ self.now.cores }
        requires few { EachOf HasFewGroups cores.now }
        requires few_asks { length (ask_widths cores.now) < 2 ^ 32 }
        ensures { OnOk result (instances.new ≡ instances.old
            ++ each_from (λ k c. core_instance self.now.starts self.now.threads self.now.cores self.now.parts (length (ask_widths (take k cores.now))) k c) 0 cores.now) }
    {
        let mut asked = Items::new(alloc);
        for (number, core) in cores.iter().enumerate() {
            let instance = self.core_instance(alloc, &mut asked, number, core)?;
            instances.push(instance)?;
        }
        Ok(())
    }

    fn arbiter_instance(
        &self,
        alloc: Global,
        arbiter: usize,
        number: usize,
    ) -> Result<Instance, AllocError>
        requires { number < self.now.cores }
        ensures { IfOk result (λ it. it ≡ arbiter_instance self.now.starts self.now.threads self.now.cores self.now.parts arbiter number) }
    {
        Ok(Instance {
            name: numbered(alloc, "arbiter", number)?,
            of: arbiter,
            inputs: self.arbiter_inputs(alloc, number)?,
            outputs: self.outputs(alloc, self.arbiter(number))?,
        })
    }

    fn push_arbiters(
        &self,
        alloc: Global,
        instances: &mut Items<Instance>,
        arbiter: usize,
    ) -> Result<(), AllocError>
        ensures { OnOk result (instances.new ≡ instances.old ++ spread (arbiter_instance self.now.starts self.now.threads self.now.cores self.now.parts arbiter) 0 self.now.cores) }
    {
        for number in 0..self.cores {
            let instance = self.arbiter_instance(alloc, arbiter, number)?;
            instances.push(instance)?;
        }
        Ok(())
    }

    /// The threads, then the cores, then an arbiter for each core.
    pub fn instances(&self, alloc: Global, layout: &Layout) -> Result<Items<Instance>, AllocError>
        requires all_threads { length layout.now.threads ≡ self.now.threads }
        requires all { length layout.now.cores ≡ self.now.cores }
        requires few_told { EachOf HasFewTold layout.now.cores }
        requires few_groups { EachOf HasFewGroups layout.now.cores }
        requires few_asks { length (ask_widths layout.now.cores) < 2 ^ 32 }
        ensures { IfOk result (λ all. all ≡ instances_of self.now.starts self.now.threads self.now.cores self.now.parts layout.now) }
    {
        let cores = layout.cores.as_slice();
        let mut instances = Items::new(alloc);
        self.push_threads(alloc, &mut instances, layout.threads.as_slice(), cores)?;
        self.push_cores(alloc, &mut instances, cores)?;
        self.push_arbiters(alloc, &mut instances, layout.arbiter)?;
        Ok(instances)
    }
}
