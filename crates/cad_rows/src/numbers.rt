//! The numbers of points, strings, parcels and sources.
ghost use Rattle.std.specs.Prelude.{◌≡◌, ◌↔◌, IsSome, IfSome};
ghost use Rattle.cad_rows.specs.Limits.{IsNumber};

use std::marker::{Model, PhantomData};

/// The greatest number that a row may have.
pub const GREATEST_NUMBER: u32 = 999_999_999;

/// Points, as the kind of a number.
pub struct Points;

/// Strings, as the kind of a number.
pub struct Strings;

/// Parcels, as the kind of a number.
pub struct Parcels;

/// Sources, as the kind of a number.
pub struct Sources;

/// The number of one of a kind, from 1 to 999,999,999. Numbers of two kinds are of two types.
#[derive_where(Clone, Copy, Debug, PartialEq, Eq, PartialOrd, Ord, Hash)]
pub struct Number<Kind> {
    no: u32,
    #[derive_where(skip)]
    of: PhantomData<Kind>,
}

impl<Kind> Model for Number<Kind> {
    ghost use Rattle.std.specs.Prelude.{ℕ};
    ghost use Rattle.cad_rows.specs.Limits.{IsNumber};

    ghost Value = { ℕ };

    ghost view = { λ a. a.no };

    ghost invariant = { λ a. IsNumber a.no };

    ghost inverse = { λ n. record { no = n; of = record {} } };
}

impl<Kind> Number<Kind> {
    /// The number, or `None` where it is 0 or past the greatest.
    pub fn new(no: u32) -> Option<Number<Kind>>
        ensures some { IsSome result ↔ IsNumber no }
        ensures value { IfSome result (λ n. n ≡ no) }
    {
        if 1 <= no && no <= GREATEST_NUMBER {
            Some(Number {
                no,
                of: PhantomData,
            })
        } else {
            None
        }
    }

    /// The number as an integer.
    pub fn get(&self) -> u32
        ensures value { result ≡ self.now }
        ensures within { IsNumber result }
    {
        self.no
    }
}

/// The least number. A place of a list that holds nothing holds it, and nobody sees it there.
impl<Kind> Default for Number<Kind> {
    ghost is_default = { λ n. n ≡ 1 };

    fn default() -> Number<Kind> {
        Number {
            no: 1,
            of: PhantomData,
        }
    }
}

/// The number of a point.
pub type PointNo = Number<Points>;

/// The number of a string.
pub type StringNo = Number<Strings>;

/// The number of a parcel.
pub type ParcelNo = Number<Parcels>;

/// The number of a source.
pub type SourceNo = Number<Sources>;
