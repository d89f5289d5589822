// What calls lead to from a function: each function that is found is followed once.

ghost use Rattle.std.specs.Prelude.{◌≡◌, ◌<◌, true, length, IfOk, OnOk};
ghost use Rattle.c_call_graph.specs.Graphs as spec;
ghost use Rattle.c_call_graph.specs.Reaching.{IsReach, leads as leads_in};

use crate::table::{Call, table};
use sqlite_items::Items;
use std::alloc::{AllocError, Global};

fn has(marks: &[bool], function: usize) -> bool
    ensures { result ≡ spec.has marks.now function }
{
    marks.get(function).copied().unwrap_or(false)
}

/// Marks on the functions that are found, and these in the order in which they are found.
#[derive(Drop)]
pub struct Search {
    pub marks: Items<bool>,
    pub found: Items<usize>,
}

impl Search {
    /// The function is found, where it is one of them and not found yet.
    fn mark(&mut self, function: usize) -> Result<(), AllocError>
        ensures { OnOk result (self.new ≡ spec.marking self.old function) }
    {
        if function < self.marks.len() && !has(self.marks.as_slice(), function) {
            self.marks.set(function, true);
            self.found.push(function)?;
        }
        Ok(())
    }

    /// These functions are found.
    fn follow(&mut self, callees: &[usize]) -> Result<(), AllocError>
        ensures { OnOk result (self.new ≡ spec.following self.old callees.now) }
    {
        for callee in callees {
            self.mark(*callee)?;
        }
        Ok(())
    }

    /// Follows the function that was found at this turn.
    fn turn(&mut self, rows: &[Items<usize>], index: usize) -> Result<(), AllocError>
        ensures { OnOk result (self.new ≡ spec.turn rows.now self.old index) }
    {
        match self.found.get(index).copied() {
            Some(function) => match rows.get(function) {
                Some(row) => self.follow(row.as_slice()),
                None => Ok(()),
            },
            None => Ok(()),
        }
    }
}

/// The search from a function.
fn search_from(alloc: Global, rows: &[Items<usize>], root: usize) -> Result<Search, AllocError>
    ensures { IfOk result (λ s. s ≡ spec.searched rows.now root) }
{
    let marks = vec![in alloc; false; rows.len()]?;
    let mut search = Search {
        marks: Items::from_vec(marks),
        found: Items::new(alloc),
    };
    search.mark(root)?;
    for index in 0..rows.len() {
        search.turn(rows, index)?;
    }
    Ok(search)
}

/// For each two functions whether calls lead from one to the other, or they are the same.
#[derive(Drop)]
pub struct Reach {
    pub rows: Items<Items<bool>>,
}

impl Reach {
    /// Whether calls lead from one function to the other.
    pub fn leads(&self, from: usize, to: usize) -> bool
        ensures { result ≡ leads_in self.now.rows from to }
    {
        match self.rows.get(from) {
            Some(row) => has(row.as_slice(), to),
            None => false,
        }
    }
}

/// Which functions calls lead to, of so many.
pub fn reach_of(alloc: Global, functions: usize, calls: &[Call]) -> Result<Reach, AllocError>
    ensures { IfOk result (λ r. IsReach functions calls.now r.rows) }
{
    let table = table(alloc, functions, calls)?;
    let mut rows = Items::new(alloc);
    for root in 0..functions {
        let search = search_from(alloc, table.as_slice(), root)?;
        rows.push(search.marks)?;
    }
    Ok(Reach { rows })
}
