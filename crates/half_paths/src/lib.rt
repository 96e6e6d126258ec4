//! Surgery on a table of half-edges: paths of strings put in, cut out, closed to a ring, and put
//! one in the place of another, each undone by its counterpart.
//!
//! Each call is a few splices. A splice at two half-edges exchanges what follows them; so the
//! splice that ties two loose strings together is the one that parts them again. This is the
//! `splice` of L. Guibas and J. Stolfi, "Primitives for the manipulation of general subdivisions
//! and the computation of Voronoi diagrams" (1985), on the doubly connected edge list of de Berg,
//! Cheong, van Kreveld and Overmars, Computational Geometry, chapter 2.
//!
//! A path is told by its halves in order, each seen along the path: the first one, and the rest.
//! No call makes a list, and none but `add_strings` can be refused for want of memory.
#![tactic(auto)]

mod ends;
mod loose;
mod path;
mod rerouting;
mod round;

pub use ends::{close_ring, cut_path, open_ring, put_path};
pub use loose::{add_strings, drop_strings};
pub use path::{loosen, string_up};
pub use rerouting::{last_half, reroute};
pub use round::{tie_ring, untie_ring};
