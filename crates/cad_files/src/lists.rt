//! Lists of numbers in a field.
ghost use Rattle.std.specs.Prelude.{◌≡◌, ◌↔◌, IsTrue, ◌<◌, ◌==◌, ◌∷◌, [], length, is_some, None, Some, IfOk, MatchOption, if◌then◌else◌};
ghost use Rattle.std.specs.List.{list_any, slice_split};
ghost use Rattle.cad_files.specs.Fields.{numbers_of, distinct_of, is_space, repeated};
ghost use Rattle.cad_files.specs.Rows.{IsSourceList};

use crate::fields::row_number;
use cad_rows::{Memory, Number, Numbers, SOURCE_LIMIT, SourceNo};
use std::alloc::Global;
use std::marker::Model;
use sweep::first_repeated;

// The text before the first space, and the text after it, where there is one.
fn first_part(text: &[u8]) -> (&[u8], Option<&[u8]>)
    ensures parts { MatchOption result.1
        (slice_split is_space text.now ≡ result.0.now ∷ [])
        (λ rest. slice_split is_space text.now ≡ result.0.now ∷ slice_split is_space rest.now) }
    ensures shorter { MatchOption result.1 (Unit {0}) (λ rest. length rest.now < length text.now) }
{
    for i in 0..text.len() {
        if text[i] == b' ' {
            return (text.split_at(i).0, Some(text.split_at(i + 1).1));
        }
    }
    (text, None)
}

// Numbers with one space between them, with no word of whether one stands twice.
#[tactic(auto, unfolding(crate::specs::Fields::numbers_of))]
fn untold_list<Kind>(alloc: Global, text: &[u8]) -> Result<Option<Numbers<Number<Kind>>>, Memory>
    ensures { IfOk result (λ list. list ≡ numbers_of text.now) }
{
    let mut numbers = Numbers::new(alloc);
    if text.is_empty() {
        return Ok(Some(numbers));
    }
    let mut rest = text;
    loop {
        let (part, more) = first_part(rest);
        let Some(number) = row_number(part) else {
            return Ok(None);
        };
        numbers.push(number)?;
        match more {
            Some(more) => rest = more,
            None => return Ok(Some(numbers)),
        }
    }
}

// Whether a number is one of these.
fn is_among<Kind>(no: u32, list: &[Number<Kind>]) -> bool
    ensures { result ≡ list_any (λ k. k == no) list.now }
{
    for other in list {
        if other.get() == no {
            return true;
        }
    }
    false
}

// The longest list whose numbers are compared two by two. A longer one is sorted.
const FEW: usize = 16;

// Whether a number stands twice: each is compared with those before it.
fn is_repeated_among_few<Kind>(list: &[Number<Kind>]) -> bool
    ensures { result ≡ is_some (repeated [] list.now) }
{
    for i in 0..list.len() {
        if is_among(list[i].get(), list.split_at(i).0) {
            return true;
        }
    }
    false
}

// These numbers as keys to sort by.
fn sort_keys<Kind>(alloc: Global, list: &[Number<Kind>]) -> Result<Vec<u64>, Memory>
    ensures { IfOk result (λ keys. keys.items ≡ list.now) }
{
    let mut keys = Vec::with_capacity(alloc, list.len())?;
    for number in list {
        keys.push(u64::from(number.get()))?;
    }
    Ok(keys)
}

// Whether a number stands twice. An error where memory runs out.
fn has_repeated<Kind>(alloc: Global, list: &[Number<Kind>]) -> Result<bool, Memory>
    ensures { IfOk result (λ again. again ≡ is_some (repeated [] list.now)) }
{
    if list.len() <= FEW {
        return Ok(is_repeated_among_few(list));
    }
    let keys = sort_keys(alloc, list)?;
    Ok(first_repeated(alloc, keys.as_slice())?.is_some())
}

/// Numbers with one space between them, told whether one stands twice. `None` where the field is no such
/// list. An error where memory runs out.
pub(crate) fn number_list<Kind>(
    alloc: Global,
    text: &[u8],
) -> Result<Option<Numbers<Number<Kind>>>, Memory>
    ensures { IfOk result (λ list. list ≡ numbers_of text.now) }
{
    let Some(list) = untold_list(alloc, text)? else {
        return Ok(None);
    };
    let again = has_repeated(alloc, list.as_slice())?;
    Ok(Some(list.told(!again)))
}

// Whether a number stands twice: as the list was told, or else by a sort. An error where memory runs out.
fn is_repeated<Kind>(alloc: Global, list: &Numbers<Number<Kind>>) -> Result<bool, Memory>
    ensures { IfOk result (λ again. again ≡ is_some (repeated [] list.now)) }
{
    match list.distinct_as_told() {
        Some(told) => Ok(!told),
        None => has_repeated(alloc, list.as_slice()),
    }
}

/// Whether sources may be those of an item of a plan: not too many, and none twice. An error where memory runs out.
pub(crate) fn is_source_list(alloc: Global, list: &Numbers<SourceNo>) -> Result<bool, Memory>
    ensures { IfOk result (λ sound. IsTrue sound ↔ IsSourceList list.now) }
{
    if list.len() > SOURCE_LIMIT {
        return Ok(false);
    }
    Ok(!is_repeated(alloc, list)?)
}

/// Sources of which none stands twice.
#[derive(Drop)]
pub struct DistinctSources {
    list: Numbers<SourceNo>,
}

impl Model for DistinctSources {
    ghost use Rattle.std.specs.Prelude.{◌≡◌, ℕ, List, [], None};
    ghost use Rattle.cad_files.specs.Fields.{repeated};

    ghost Value = { List ℕ };

    ghost view = { λ a. a.list };

    ghost invariant = { λ a. repeated [] a.list ≡ None };
}

impl DistinctSources {
    // The same sources, or `None` where one stands twice. An error where memory runs out.
    fn new(alloc: Global, list: Numbers<SourceNo>) -> Result<Option<DistinctSources>, Memory>
        ensures { IfOk result (λ sources. sources
            ≡ (if is_some (repeated [] list) then None else Some list)) }
    {
        if is_repeated(alloc, &list)? {
            return Ok(None);
        }
        Ok(Some(DistinctSources { list }))
    }

    // How many there are.
    pub(crate) fn len(&self) -> usize
        ensures { result ≡ length self.now }
    {
        self.list.len()
    }

    // The same sources as a list.
    pub(crate) fn into_numbers(self) -> Numbers<SourceNo>
        ensures value { result ≡ self }
        ensures distinct { repeated [] result ≡ None }
    {
        self.list
    }
}

/// The sources of an item, with one space between them, where none stands twice.
#[tactic(auto, unfolding(crate::specs::Fields::distinct_of))]
pub(crate) fn distinct_sources(
    alloc: Global,
    text: &[u8],
) -> Result<Option<DistinctSources>, Memory>
    ensures { IfOk result (λ sources. sources ≡ distinct_of text.now) }
{
    match number_list(alloc, text)? {
        Some(list) => DistinctSources::new(alloc, list),
        None => Ok(None),
    }
}
