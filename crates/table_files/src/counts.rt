//! How many files of each node are open, by the node's number.

ghost use Rattle.std.specs.Prelude.{◌≡◌, ◌<◌, ◌≤◌, ◌+◌, ◌-◌, ◌*◌, ◌^◌, ℕ, nat_eq, if◌then◌else◌, IsOk, OnOk};
ghost use Rattle.indexmap.specs.IndexMap.{IsUnchanged};
ghost use Rattle.collections.specs.Living.{live, places};
ghost use Rattle.table_files.specs.Counts.{openings_in, AddUpTo};

use collections::steady_map::{make_places, put, set, take_out, value_of};
use indexmap::IndexMap;
use std::alloc::{AllocError, Global};

/// How many files of each node are open: the map has a number for each node that has one.
#[derive(Drop)]
pub(crate) struct OpenCounts {
    pub(crate) by_number: IndexMap<u64, Option<u64>>,
    /// How many nodes have open files.
    pub(crate) nodes: usize,
}

/// No open files.
pub(crate) fn no_counts(alloc: Global) -> OpenCounts
    ensures none { (n : ℕ) → openings_in result.by_number n ≡ 0 }
    ensures total { AddUpTo result.by_number result.nodes 0 }
{
    OpenCounts {
        by_number: IndexMap::new(alloc),
        nodes: 0,
    }
}

/// How many files of the node are open.
pub(crate) fn openings_of(counts: &OpenCounts, number: u64) -> u64
    ensures { result ≡ openings_in counts.now.by_number number }
{
    match value_of(&counts.by_number, &number) {
        Some(count) => count,
        None => 0,
    }
}

/// Counts one more open file of the node. It does not allocate.
pub(crate) fn raise(counts: &mut OpenCounts, number: u64)
    requires few { openings_in counts.old.by_number number + 1 < 2 ^ 64 }
    requires nodes { counts.old.nodes + 1 < 2 ^ 64 }
    requires room { 2 * (live counts.old.by_number + 1) ≤ places counts.old.by_number }
    ensures raised { (n : ℕ) → openings_in counts.new.by_number n ≡ openings_in counts.old.by_number n + (if nat_eq number n then 1 else 0) }
    ensures total { (total : ℕ) → AddUpTo counts.old.by_number counts.old.nodes total → AddUpTo counts.new.by_number counts.new.nodes (total + 1) }
    ensures places { places counts.old.by_number ≤ places counts.new.by_number }
{
    match value_of(&counts.by_number, &number) {
        Some(count) => set(&mut counts.by_number, &number, count + 1),
        None => {
            put(&mut counts.by_number, number, 1);
            counts.nodes += 1;
        }
    }
}

/// Counts one open file less of the node. It does not allocate.
pub(crate) fn lower(counts: &mut OpenCounts, number: u64)
    requires some { 0 < openings_in counts.old.by_number number }
    requires nodes { counts.old.nodes ≡ live counts.old.by_number }
    ensures lowered { (n : ℕ) → openings_in counts.new.by_number n ≡ openings_in counts.old.by_number n - (if nat_eq number n then 1 else 0) }
    ensures total { (total : ℕ) → AddUpTo counts.old.by_number counts.old.nodes total → AddUpTo counts.new.by_number counts.new.nodes (total - 1) }
    ensures places { places counts.old.by_number ≤ places counts.new.by_number }
{
    let count = openings_of(counts, number);
    if count > 1 {
        set(&mut counts.by_number, &number, count - 1);
    } else {
        take_out(&mut counts.by_number, &number);
        counts.nodes -= 1;
    }
}

/// Makes room for `nodes` nodes with open files. If memory is refused, nothing changes.
pub(crate) fn make_room(counts: &mut OpenCounts, nodes: usize) -> Result<(), AllocError>
    requires nodes { counts.old.nodes ≡ live counts.old.by_number }
    requires more { counts.old.nodes ≤ nodes }
    ensures ok { OnOk result (2 * nodes ≤ places counts.new.by_number) }
    ensures same { IsUnchanged counts.old.by_number counts.new.by_number }
    ensures nodes { counts.new.nodes ≡ counts.old.nodes }
    ensures places { places counts.old.by_number ≤ places counts.new.by_number }
{
    make_places(&mut counts.by_number, counts.nodes, nodes - counts.nodes)
}
