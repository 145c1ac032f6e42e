//! The table of the amounts that are to be preserved, one for each machine and resource.
ghost use Rattle.std.specs.Prelude.{◌≡◌, ℕ, ◌<◌, ◌&&◌, ◌==◌, length, max, true, if◌then◌else◌, slice_index, OnOk, OnErr};
ghost use Rattle.catalogue.specs.Prelude.{are_below, cell, HasRows, is_member, max_resources, preserved_with};
ghost use Rattle.catalogue.specs.declared.constraint.Constraint.TheVariants.{Preserve};

use base::Memory;
use cluster::VmId;
use cluster::limits::MAX_RESOURCES;

/// Notes an amount that is to be preserved for machines: the greater of it and the noted one stays.
pub fn note_preserve(
    table: &mut Vec<[u64; MAX_RESOURCES]>,
    count: usize,
    machines: &[VmId],
    r: u8,
    amount: u64,
) -> Result<(), Memory>
    requires rows { HasRows count table.old.items }
    requires machines { are_below count machines.now ≡ true }
    requires resource { r < max_resources }
    ensures rows { HasRows count table.new.items }
    ensures noted { OnOk result ((v q : ℕ) → v < count → q < max_resources →
        cell table.new.items v q ≡ preserved_with v q (cell table.old.items v q) (Preserve machines.now r amount)) }
    ensures kept { OnErr result (table.new.items ≡ table.old.items) }
{
    fill(table, count)?;
    raise(table, machines, r, amount);
    Ok(())
}

/// Gives the table a row for each machine, where it has none yet.
fn fill(table: &mut Vec<[u64; MAX_RESOURCES]>, count: usize) -> Result<(), Memory>
    requires { HasRows count table.old.items }
    ensures full { OnOk result (length table.new.items ≡ count) }
    ensures same { (v r : ℕ) → cell table.new.items v r ≡ cell table.old.items v r }
    ensures kept { OnErr result (table.new.items ≡ table.old.items) }
{
    if table.is_empty() {
        table.resize(count, [0; MAX_RESOURCES])?;
    }
    Ok(())
}

/// Raises the amounts of machines.
fn raise(table: &mut [[u64; MAX_RESOURCES]], machines: &[VmId], r: u8, amount: u64)
    requires machines { are_below (length table.old) machines.now ≡ true }
    requires resource { r < max_resources }
    ensures { (v q : ℕ) → v < length table.old → q < max_resources →
        cell table.new v q ≡ (if is_member machines.now v && (r == q) then max (cell table.old v q) amount else cell table.old v q) }
{
    for id in machines {
        raise_one(&mut table[id.0 as usize], r, amount);
    }
}

/// Raises one amount of a row.
fn raise_one(row: &mut [u64; MAX_RESOURCES], r: u8, amount: u64)
    requires { r < max_resources }
    ensures { (q : ℕ) → q < max_resources → slice_index row.new q ≡ (if r == q then max (slice_index row.old q) amount else slice_index row.old q) }
{
    if row[r as usize] < amount {
        row[r as usize] = amount;
    }
}

/// The noted amount, 0 where there is no row.
pub fn preserved_at(table: &[[u64; MAX_RESOURCES]], v: VmId, r: u8) -> u64
    requires { r < max_resources }
    ensures { result ≡ cell table.now v.0 r }
{
    match table.get(v.0 as usize) {
        Some(row) => row[r as usize],
        None => 0,
    }
}
