//! Loose strings that come to a table and go from it.
ghost use Rattle.std.specs.Prelude.{◌≡◌, ◌++◌, ◌<◌, ℕ, nat_eq, length, OnOk, OnErr};
ghost use Rattle.std.specs.List.{IsDistinct};
ghost use Rattle.half_table.specs.Rows.{HalfRows, next, IsLinked};
ghost use Rattle.half_table.specs.Count.{ticked};
ghost use Rattle.half_paths.specs.Path.{AreIn, AreDifferent};
ghost use Rattle.half_paths.specs.Loose.{numbers_of, AreNew, AddsStrings, loose_rows, AreLoose, DropsStrings};

use cad_rows::{Memory, StringRow};
use half_table::{Half, HalfTable, Tally};

/// Adds strings, each loose: its halves follow one another, and their face is the outside. One tick
/// for each.
///
/// Condition: the strings are new and differ.
///
/// # Errors
///
/// Where memory runs out, the strings that were added are taken out again: the table is the one
/// before, with as many ticks more for taking out as for adding.
pub fn add_strings<T: Tally>(table: &mut HalfTable<T>, strings: &[StringRow]) -> Result<(), Memory>
    requires linked { IsLinked table.old.rows }
    requires new { AreNew table.old.rows strings.now }
    requires different { IsDistinct nat_eq (numbers_of strings.now) }
    ensures adds { OnOk result (AddsStrings strings.now table.old.rows table.new.rows) }
    ensures linked { IsLinked table.new.rows }
    ensures work { OnOk result (table.new.work ≡ ticked (length strings.now) table.old.work) }
    ensures err { OnErr result (table.new.rows ≡ table.old.rows) }
    ensures err_work { OnErr result ((count : ℕ) × (count < length strings.now)
        × (table.new.work ≡ ticked count (ticked count table.old.work))) }
{
    for place in 0..strings.len() {
        let string = &strings[place];
        if let Err(memory) = table.add_loose(string.number, string.from, string.to) {
            take_back(table, &strings[..place]);
            return Err(memory);
        }
    }
    Ok(())
}

/// Takes out the strings that were added last, the last one first.
fn take_back<T: Tally>(table: &mut HalfTable<T>, strings: &[StringRow])
    requires linked { IsLinked table.old.rows }
    requires last { (before : HalfRows) × (table.old.rows ≡ before ++ loose_rows strings.now) }
    ensures before { (before : HalfRows) → table.old.rows ≡ before ++ loose_rows strings.now
        → table.new.rows ≡ before }
    ensures linked { IsLinked table.new.rows }
    ensures work { table.new.work ≡ ticked (length strings.now) table.old.work }
{
    let count = strings.len();
    for gone in 0..count {
        table.remove_loose(strings[count - 1 - gone].number);
    }
}

/// Takes out the strings of some halves, each string once. One tick for each.
///
/// Condition: of each of the strings the halves follow one another.
pub fn drop_strings<T: Tally>(table: &mut HalfTable<T>, halves: &[Half])
    requires linked { IsLinked table.old.rows }
    requires within { AreIn table.old.rows halves.now }
    requires different { AreDifferent halves.now }
    requires loose { AreLoose (next table.old.rows) halves.now }
    ensures drops { DropsStrings halves.now table.old.rows table.new.rows }
    ensures linked { IsLinked table.new.rows }
    ensures work { table.new.work ≡ ticked (length halves.now) table.old.work }
{
    for h in halves {
        table.remove_loose(h.string);
    }
}
