// Where the wires of the instances stand.

ghost use Rattle.std.specs.Prelude.{ℕ, ◌^◌, ◌<◌, ◌≤◌, slice_get, slice_index};
ghost use Rattle.top_parts.specs.Parts.{output_count};

use sqlite_items::Items;
use top_parts::parts::Part;

/// The instances, for each the place of the first wire that it drives, and the numbers of threads and of cores. The
/// instances are the threads, then the cores, then the arbiters.
#[derive(Drop)]
pub struct Places {
    pub parts: Items<Part>,
    pub starts: Items<usize>,
    pub threads: usize,
    pub cores: usize,
    ghost low: { (j : ℕ) → slice_index starts j < 2 ^ 33 },
    ghost few_wires: { (j : ℕ) → output_count (slice_get parts j) < 2 ^ 32 },
    ghost few_threads: { threads ≤ 64 },
    ghost few_cores: { cores < 2 ^ 16 },
}
