//! Empty slots that are brought to where a row belongs.
ghost use Rattle.std.specs.Prelude.{◌≡◌, ◌↔◌, ◌+◌, ◌<◌, ◌≤◌, ℕ, length, None, slice_index, true};
ghost use Rattle.entry_list.specs.Slots.{rows_of, row_at, marks_of, mark_of as mark_of_row, rows_before, HasMark};
ghost use Rattle.entry_list.specs.Slots.{HasSlot, KeepsSlots, IsEmptySlot};

use crate::list::EntryList;
use crate::marks::Marks;
use number_table::NumberTable;

impl<V> EntryList<V> {
    // Brings the number's empty slot to where a row at the place belongs, and gives the slot.
    pub(crate) fn make_room(&mut self, number: u64, place: usize) -> usize
    where
        V: Drop,
        requires slot { HasSlot self.old number }
        requires absent { row_at number self.old ≡ None }
        requires place { place ≤ length (rows_of self.old) }
        ensures rows { rows_of self.new ≡ rows_of self.old }
        ensures slots { KeepsSlots self.old self.new }
        ensures empty { IsEmptySlot self.new result number }
        ensures before { rows_before result self.new ≡ place }
    {
        let own = self.empty_slot_of(number);
        if self.count_before_empty(number, own) == place {
            return own;
        }
        let next = self.slot_after(place);
        if next < self.slots.len() && self.is_empty_slot(next) {
            self.swap_empty(number, own, next);
            return next;
        }
        if own < next {
            self.move_empty(number, own, next - 1);
            next - 1
        } else {
            self.move_empty(number, own, next);
            next
        }
    }

    // The empty slot of the number.
    fn empty_slot_of(&self, number: u64) -> usize
        requires slot { HasSlot self.now number }
        requires absent { row_at number self.now ≡ None }
        ensures empty { IsEmptySlot self.now result number }
        ensures within { result < length self.now }
    {
        self.slots.place_of(number).unwrap()
    }

    // How many rows stand before the number's empty slot. Where it is the last slot they are all the
    // rows, and need no count.
    fn count_before_empty(&self, number: u64, own: usize) -> usize
        requires { IsEmptySlot self.now own number }
        ensures { result ≡ rows_before own self.now }
    {
        let slots = self.slots.len();
        if own + 1 == slots {
            self.len
        } else {
            self.live.count_before(own)
        }
    }

    // The slot behind that of the row before the place.
    fn slot_after(&self, place: usize) -> usize
        requires { place ≤ length (rows_of self.now) }
        ensures before { rows_before result self.now ≡ place }
        ensures within { result ≤ length self.now }
    {
        if place == 0 {
            return 0;
        }
        let _slots = self.slots.len();
        self.live.place_of(place - 1) + 1
    }

    // Whether the slot has no row.
    fn is_empty_slot(&self, slot: usize) -> bool
        requires { slot < length self.now }
        ensures { result ≡ true ↔ slice_index (marks_of self.now) slot ≡ 0 }
    {
        mark_at(&self.slots, slot) == 0
    }

    // Exchanges two slots that have no rows.
    fn swap_empty(&mut self, number: u64, own: usize, other: usize)
        requires own { IsEmptySlot self.old own number }
        requires other { other < length self.old }
        requires unmarked { slice_index (marks_of self.old) other ≡ 0 }
        ensures rows { rows_of self.new ≡ rows_of self.old }
        ensures marks { marks_of self.new ≡ marks_of self.old }
        ensures slots { KeepsSlots self.old self.new }
        ensures empty { IsEmptySlot self.new other number }
    {
        self.slots.swap(own, other);
    }

    // Moves a slot that has no row to another place, and those between by one towards where it was.
    fn move_empty(&mut self, number: u64, from: usize, to: usize)
    where
        V: Drop,
        requires own { IsEmptySlot self.old from number }
        requires to { to < length self.old }
        ensures rows { rows_of self.new ≡ rows_of self.old }
        ensures slots { KeepsSlots self.old self.new }
        ensures empty { IsEmptySlot self.new to number }
        ensures later { from ≤ to → rows_before to self.new ≡ rows_before (to + 1) self.old }
        ensures earlier { to ≤ from → rows_before to self.new ≡ rows_before to self.old }
    {
        self.slots.move_row(from, to);
        mark_between(&self.slots, &mut self.live, from.min(to), from.max(to));
    }
}

// The mark of a slot with this row, or with none.
pub(crate) fn mark_of<V>(row: &Option<V>) -> u8
    ensures mark { result ≡ mark_of_row row.now }
    ensures small { result ≤ 1 }
{
    if row.is_some() { 1 } else { 0 }
}

// The mark of the slot.
fn mark_at<V>(slots: &NumberTable<Option<V>>, slot: usize) -> u8
    requires { slot < length slots.now }
    ensures mark { result ≡ slice_index (marks_of slots.now) slot }
    ensures small { result ≤ 1 }
{
    match slots.at(slot) {
        Some((_, row)) => mark_of(row),
        None => 0,
    }
}

// Sets the marks from the first to the last slot; those before and behind are right.
fn mark_between<V>(slots: &NumberTable<Option<V>>, live: &mut Marks, first: usize, last: usize)
    requires size { length live.old ≡ length slots.now }
    requires within { last < length slots.now }
    requires before { (k : ℕ) → k < first → HasMark slots.now live.old k }
    requires behind { (k : ℕ) → last < k → HasMark slots.now live.old k }
    ensures { live.new ≡ marks_of slots.now }
{
    let _slots = slots.len();
    for slot in first..last + 1 {
        let mark = mark_at(slots, slot);
        live.set(slot, mark);
    }
}
