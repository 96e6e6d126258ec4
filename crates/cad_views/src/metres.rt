//! Millimetres, told as metres.
ghost use Rattle.std.specs.Prelude.{◌≡◌, ◌<◌, ◌++◌, ℤ, IfOk, OnOk, Some};
ghost use Rattle.geo_exact.specs.Position.{InRange};
ghost use Rattle.cad_views.specs.Metres.{three_digits, metres_field, millimetres_of};

use cad_files::begun_decimal;
use cad_rows::Memory;
use std::alloc::Global;

// Appends a number below 1000, in three digits.
fn push_three_digits(text: &mut Vec<u8>, number: u16) -> Result<(), Memory>
    requires { number < 1000 }
    ensures { OnOk result (text.new.items ≡ text.old.items ++ three_digits number) }
{
    text.push(b'0' + (number / 100) as u8)?;
    text.push(b'0' + (number / 10 % 10) as u8)?;
    text.push(b'0' + (number % 10) as u8)?;
    Ok(())
}

/// So many millimetres, in metres with three decimals. `Err` where memory runs out.
#[tactic(auto, unfolding(crate::specs::Metres::metres_field))]
pub fn metres_text(alloc: Global, millimetres: i64) -> Result<Vec<u8>, Memory>
    ensures { IfOk result (λ text. text.items ≡ metres_field millimetres) }
{
    let mut text = begun_decimal(alloc, i128::from(millimetres), 1000)?;
    push_three_digits(&mut text, (millimetres.unsigned_abs() % 1000) as u16)?;
    Ok(text)
}

/// Metres with three decimals read back as the millimetres that they were made of.
pub fn metres_again()
    ensures { (z : ℤ) → InRange z → millimetres_of (metres_field z) ≡ Some z }
{}
