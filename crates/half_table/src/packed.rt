//! The links of half-edges as the rows keep them.
ghost use Rattle.std.specs.Prelude.{◌≡◌, ◌≤◌};
ghost use Rattle.cad_rows.specs.Limits.{greatest_number};
ghost use Rattle.half_table.specs.Packed.{face_numbered};

use crate::half::Half;
use crate::links::Links;
use cad_rows::{Face, ParcelNo, PointNo, StringNo};
use std::marker::Model;

/// The links of a half-edge in 20 bytes. What follows it and what it follows are kept as the
/// numbers of their strings, with their directions in the last bytes, and the face as the number of
/// its parcel, or 0, which no parcel has, for the outside.
#[derive(Clone, Copy, Drop)]
pub struct PackedLinks {
    origin: PointNo,
    next: StringNo,
    prev: StringNo,
    face: u32,
    next_forward: bool,
    prev_forward: bool,
}

impl Model for PackedLinks {
    ghost use Rattle.std.specs.Prelude.{◌≤◌};
    ghost use Rattle.cad_rows.specs.Limits.{greatest_number};
    ghost use Rattle.half_table.specs.declared.links.Links.{Links};
    ghost use Rattle.half_table.specs.Half.{half_of};
    ghost use Rattle.half_table.specs.Packed.{face_numbered, number_of_face, number_of_face-numbered};

    ghost Value = { Links };

    ghost view = { λ l. record {
      origin = l.origin;
      next = half_of l.next l.next_forward;
      prev = half_of l.prev l.prev_forward;
      face = face_numbered l.face;
    } };

    ghost invariant = { λ l. l.face ≤ greatest_number };

    ghost inverse = { λ l. record {
      origin = l.origin;
      next = l.next.string;
      prev = l.prev.string;
      face = number_of_face l.face;
      next_forward = l.next.forward;
      prev_forward = l.prev.forward;
    } };

    ghost inverse_ok = { λ l h i. record {
      origin = l.origin;
      next = l.next;
      prev = l.prev;
      face = number_of_face-numbered l.face i;
      next_forward = l.next_forward;
      prev_forward = l.prev_forward;
    } };
}

// The number of a face: that of its parcel, or 0 for the outside.
fn face_number(face: &Face) -> u32
    ensures is { face_numbered result ≡ face.now }
    ensures within { result ≤ greatest_number }
{
    match *face {
        Face::Outside => 0,
        Face::Parcel(parcel) => parcel.get(),
    }
}

impl PackedLinks {
    /// These links, packed.
    pub(crate) fn of(links: &Links) -> PackedLinks
        ensures { result ≡ links.now }
    {
        PackedLinks {
            origin: links.origin,
            next: links.next.string,
            prev: links.prev.string,
            face: face_number(&links.face),
            next_forward: links.next.forward,
            prev_forward: links.prev.forward,
        }
    }

    /// The links, unpacked.
    pub(crate) fn links(&self) -> Links
        ensures { result ≡ self.now }
    {
        Links {
            origin: self.origin(),
            next: self.next(),
            prev: self.prev(),
            face: self.face(),
        }
    }

    /// Where the half-edge begins.
    pub(crate) fn origin(&self) -> PointNo
        ensures { result ≡ self.now.origin }
    {
        self.origin
    }

    /// What follows it.
    pub(crate) fn next(&self) -> Half
        ensures { result ≡ self.now.next }
    {
        Half {
            string: self.next,
            forward: self.next_forward,
        }
    }

    /// What it follows.
    pub(crate) fn prev(&self) -> Half
        ensures { result ≡ self.now.prev }
    {
        Half {
            string: self.prev,
            forward: self.prev_forward,
        }
    }

    /// The face to its left.
    pub(crate) fn face(&self) -> Face
        ensures { result ≡ self.now.face }
    {
        match ParcelNo::new(self.face) {
            Some(parcel) => Face::Parcel(parcel),
            None => Face::Outside,
        }
    }
}
