ghost use Rattle.std.specs.Prelude.{◌≡◌, ◌↔◌, IsSome, IfSome};
ghost use Rattle.geo_exact.specs.Position.{OnTheMap};

use std::marker::Model;

/// The farthest that a coordinate may lie from zero, either way, in millimetres.
pub const COORDINATE_LIMIT: i64 = 10_000_000_000;

/// A position on the map: two coordinates in whole millimetres, x to the east and y to the north, each at most
/// [`COORDINATE_LIMIT`] from zero.
#[derive(Clone, Copy, PartialEq, Eq)]
pub struct Pt {
    pub x: i64,
    pub y: i64,
}

impl Model for Pt {
    ghost use Rattle.geo_exact.specs.Position.{Position, OnTheMap};

    ghost Value = { Position };

    ghost view = { λ p. record { x = p.x; y = p.y } };

    ghost invariant = { λ p. OnTheMap (record { x = p.x; y = p.y }) };

    ghost inverse = { λ a. record { x = a.x; y = a.y } };
}

impl Pt {
    /// The position with these coordinates in millimetres. None where one of them lies past [`COORDINATE_LIMIT`].
    pub fn new(x: i64, y: i64) -> Option<Pt>
        ensures some { IsSome result ↔ OnTheMap (record { x = x; y = y }) }
        ensures value { IfSome result (λ p. p ≡ record { x = x; y = y }) }
    {
        if -COORDINATE_LIMIT <= x
            && x <= COORDINATE_LIMIT
            && -COORDINATE_LIMIT <= y
            && y <= COORDINATE_LIMIT
        {
            Some(Pt { x, y })
        } else {
            None
        }
    }
}
