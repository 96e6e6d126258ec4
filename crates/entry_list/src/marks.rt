//! Marks of slots, counted in blocks.
ghost use Rattle.std.specs.Prelude.{◌≡◌, ◌+◌, ◌-◌, ◌<◌, ◌≤◌, ◌++◌, ◌∷◌, [], length, take};
ghost use Rattle.std.specs.Prelude.{slice_index, slice_set, OnOk, OnErr};
ghost use Rattle.entry_list.specs.Totals.{total_before};

use std::alloc::{AllocError, Global};
use std::marker::Model;

const BLOCK: usize = 64;

/// The marks, with a sum for each block of 64, and a total for each 64 of these.
#[derive(Drop)]
pub(crate) struct Marks {
    marks: Vec<u8>,
    sums: Vec<u8>,
    totals: Vec<u16>,
}

impl Model for Marks {
    ghost use Rattle.std.specs.Prelude.{List, ℕ};
    ghost use Rattle.entry_list.specs.Totals.{IsTallied};

    ghost Value = { List ℕ };

    ghost view = { λ a. a.marks.items };

    ghost invariant = { λ a. IsTallied a.marks.items a.sums.items a.totals.items };
}

impl Marks {
    /// No marks.
    pub fn new(alloc: Global) -> Self
        ensures { result ≡ [] }
    {
        Marks {
            marks: Vec::new(alloc),
            sums: Vec::new(alloc),
            totals: Vec::new(alloc),
        }
    }

    /// How many marks there are, of either kind.
    pub fn len(&self) -> usize
        ensures { result ≡ length self.now }
    {
        self.marks.len()
    }

    /// The sum of the marks before the place.
    pub fn count_before(&self, place: usize) -> usize
        requires { place ≤ length self.now }
        ensures value { result ≡ total_before place self.now }
        ensures small { result ≤ place }
    {
        let block = place / BLOCK;
        let whole = block / BLOCK;
        let mut count = 0usize;
        for j in 0..whole {
            count += self.totals[j] as usize;
        }
        let sums = sum_between(&self.sums, whole * BLOCK, block);
        let marks = sum_between(&self.marks, block * BLOCK, place);
        count + sums as usize + marks as usize
    }

    /// Sets the mark at the place.
    pub fn set(&mut self, place: usize, mark: u8)
        requires within { place < length self.old }
        requires mark { mark ≤ 1 }
        ensures { self.new ≡ slice_set self.old place mark }
    {
        let block = place / BLOCK;
        let whole = block / BLOCK;
        let old = self.marks[place];
        let sum = self.sums[block] - old + mark;
        let total = self.totals[whole] - u16::from(old) + u16::from(mark);
        self.totals[whole] = total;
        self.sums[block] = sum;
        self.marks[place] = mark;
    }

    /// Puts a mark last.
    pub fn push(&mut self, mark: u8) -> Result<(), AllocError>
        requires mark { mark ≤ 1 }
        ensures ok { OnOk result (self.new ≡ self.old ++ mark ∷ []) }
        ensures err { OnErr result (self.new ≡ self.old) }
    {
        let block = self.marks.len() / BLOCK;
        let whole = block / BLOCK;
        if whole == self.totals.len() {
            self.totals.push(0)?;
        }
        if block == self.sums.len() {
            self.sums.push(0)?;
        }
        let sum = self.sums[block] + mark;
        let total = self.totals[whole] + u16::from(mark);
        self.marks.push(mark)?;
        self.sums[block] = sum;
        self.totals[whole] = total;
        Ok(())
    }

    /// Takes the last mark away.
    pub fn pop(&mut self)
        requires { 0 < length self.old }
        ensures { self.new ≡ take (length self.old - 1) self.old }
    {
        let last = self.marks.len() - 1;
        let block = last / BLOCK;
        let whole = block / BLOCK;
        let mark = self.marks[last];
        let sum = self.sums[block] - mark;
        let total = self.totals[whole] - u16::from(mark);
        self.totals[whole] = total;
        self.sums[block] = sum;
        let _ = self.marks.pop();
    }

    /// The place of the mark before which `count` others stand.
    pub fn place_of(&self, count: usize) -> usize
        requires { count < total_before (length self.now) self.now }
        ensures within { result < length self.now }
        ensures marked { slice_index self.now result ≡ 1 }
        ensures before { total_before result self.now ≡ count }
    {
        let mut left = count;
        let mut whole = 0;
        while left >= self.totals[whole] as usize {
            left -= self.totals[whole] as usize;
            whole += 1;
        }
        let (block, left) = place_past(&self.sums, whole * BLOCK, left);
        let (place, _) = place_past(&self.marks, block * BLOCK, left);
        place
    }
}

/// The sum of the items between two places, at most 64 of them.
fn sum_between(items: &[u8], from: usize, to: usize) -> u16
    requires order { from ≤ to }
    requires within { to ≤ length items.now }
    requires few { to ≤ from + 64 }
    ensures { total_before from items.now + result ≡ total_before to items.now }
{
    let mut sum = 0u16;
    for i in from..to {
        sum += u16::from(items[i]);
    }
    sum
}

/// The place whose item takes the sum of the items from `from` on past `sum`, and what is left
/// of `sum` before it.
fn place_past(items: &[u8], from: usize, sum: usize) -> (usize, usize)
    requires { total_before from items.now + sum < total_before (length items.now) items.now }
    ensures within { result.0 < length items.now }
    ensures past { result.1 < slice_index items.now result.0 }
    ensures left { total_before result.0 items.now + result.1 ≡ total_before from items.now + sum }
{
    let mut left = sum;
    let mut place = from;
    while left >= items[place] as usize {
        left -= items[place] as usize;
        place += 1;
    }
    (place, left)
}
