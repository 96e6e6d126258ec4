//! The texts of answers.
ghost use Rattle.std.specs.Prelude.{◌≡◌, ◌∷◌, [], IfOk, decimal};
ghost use Rattle.cad_history.specs.declared.commands.Answer.TheVariants.{Done, Nothing};
ghost use Rattle.cad_files.specs.Texts.{text_of};
ghost use Rattle.cad_files.specs.Answers.{refused_record as refused_record_of, named_record, rule_name, refusal_record, answer_record, syntax_record};

use crate::writing::one_record;
use cad_history::Answer;
use cad_rows::{Memory, Name, Refusal, Rule};
use itoa::Buffer;
use std::alloc::Global;

// The name of a rule.
fn rule_text(rule: Rule) -> &'static [u8]
    ensures { result.now ≡ rule_name rule }
{
    match rule {
        Rule::V3 => b"V3".as_slice(),
        Rule::V4 => b"V4".as_slice(),
        Rule::V6 => b"V6".as_slice(),
        Rule::V7 => b"V7".as_slice(),
        Rule::V8 => b"V8".as_slice(),
    }
}

// A refusal: its number, its name, a kind and a value.
fn refused_record(
    alloc: Global,
    no: &[u8],
    called: &[u8],
    kind: &[u8],
    value: &[u8],
) -> Result<Vec<u8>, Memory>
    ensures { IfOk result (λ text. text.items
        ≡ text_of (refused_record_of no.now called.now kind.now value.now ∷ [])) }
{
    one_record(alloc, &[b"refused", no, called, kind, value, b"", b""])
}

// A refusal that says no row: its number, its name, and perhaps a kind.
fn refused(alloc: Global, no: &[u8], called: &[u8], kind: &[u8]) -> Result<Vec<u8>, Memory>
    ensures { IfOk result (λ text. text.items
        ≡ text_of (refused_record_of no.now called.now kind.now [] ∷ [])) }
{
    refused_record(alloc, no, called, kind, b"")
}

// A refusal about the row of this kind with this number.
fn refused_row(
    alloc: Global,
    no: &[u8],
    called: &[u8],
    kind: &[u8],
    row: u32,
) -> Result<Vec<u8>, Memory>
    ensures { IfOk result (λ text. text.items
        ≡ text_of (refused_record_of no.now called.now kind.now (decimal row) ∷ [])) }
{
    let mut value = Buffer::new();
    refused_record(alloc, no, called, kind, value.format(row).as_bytes())
}

// A refusal about a row that is named.
fn refused_name(alloc: Global, no: &[u8], called: &[u8], name: Name) -> Result<Vec<u8>, Memory>
    ensures { IfOk result (λ text. text.items
        ≡ text_of (named_record no.now called.now name ∷ [])) }
{
    match name {
        Name::Point(row) => refused_row(alloc, no, called, b"point", row.get()),
        Name::String(row) => refused_row(alloc, no, called, b"string", row.get()),
        Name::Parcel(row) => refused_row(alloc, no, called, b"parcel", row.get()),
        Name::Source(row) => refused_row(alloc, no, called, b"source", row.get()),
    }
}

// The text of a refusal.
fn refusal_text(alloc: Global, refusal: Refusal) -> Result<Vec<u8>, Memory>
    ensures { IfOk result (λ text. text.items ≡ text_of (refusal_record refusal ∷ [])) }
{
    match refusal {
        Refusal::Range => refused(alloc, b"1", b"range", b""),
        Refusal::Unknown(name) => refused_name(alloc, b"2", b"unknown", name),
        Refusal::Taken(name) => refused_name(alloc, b"3", b"taken", name),
        Refusal::Retired(no) => refused_row(alloc, b"4", b"retired", b"parcel", no.get()),
        Refusal::Outside => refused(alloc, b"5", b"outside", b""),
        Refusal::NoChange => refused(alloc, b"6", b"no-change", b""),
        Refusal::NotFree(no) => refused_row(alloc, b"7", b"not-free", b"point", no.get()),
        Refusal::NotDegreeTwo(no) => refused_row(
            alloc,
            b"8",
            b"not-degree-two",
            b"point",
            no.get(),
        ),
        Refusal::BadChain => refused(alloc, b"9", b"bad-chain", b""),
        Refusal::NotInParcel(no) => refused_row(alloc, b"10", b"not-in-parcel", b"point", no.get()),
        Refusal::ChainJoinsRings => refused(alloc, b"11", b"chain-joins-rings", b""),
        Refusal::SameParcel => refused(alloc, b"12", b"same-parcel", b""),
        Refusal::NotNeighbours => refused(alloc, b"13", b"not-neighbours", b""),
        Refusal::NotOneChain => refused(alloc, b"14", b"not-one-chain", b""),
        Refusal::AlreadyAttached => refused(alloc, b"15", b"already-attached", b""),
        Refusal::NotAttached => refused(alloc, b"16", b"not-attached", b""),
        Refusal::Full => refused(alloc, b"17", b"full", b""),
        Refusal::Breaks(rule) => refused(alloc, b"18", b"breaks", rule_text(rule)),
        Refusal::Memory => refused(alloc, b"19", b"memory", b""),
    }
}

// The text of the record of an edit that was made. It is the same for each, so no writer is asked.
fn done_text(alloc: Global) -> Result<Vec<u8>, Memory>
    ensures { IfOk result (λ text. text.items ≡ text_of (answer_record Done ∷ [])) }
{
    Ok(Vec::from_slice(alloc, b"ok,,,,,,\n")?)
}

// The text of the record where there was nothing to undo or redo, likewise.
fn nothing_text(alloc: Global) -> Result<Vec<u8>, Memory>
    ensures { IfOk result (λ text. text.items ≡ text_of (answer_record Nothing ∷ [])) }
{
    Ok(Vec::from_slice(alloc, b"nothing,,,,,,\n")?)
}

/// The text of an answer.
pub fn answer_text(alloc: Global, answer: &Answer) -> Result<Vec<u8>, Memory>
    ensures { IfOk result (λ text. text.items ≡ text_of (answer_record answer.now ∷ [])) }
{
    match answer {
        Answer::Done => done_text(alloc),
        Answer::Nothing => nothing_text(alloc),
        Answer::Refused(refusal) => refusal_text(alloc, *refusal),
    }
}

/// The text of the answer to a record that is none of a script.
pub fn syntax_text(alloc: Global) -> Result<Vec<u8>, Memory>
    ensures { IfOk result (λ text. text.items ≡ text_of (syntax_record ∷ [])) }
{
    one_record(alloc, &[b"syntax", b"", b"", b"", b"", b"", b""])
}
