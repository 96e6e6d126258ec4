//! Maps on half-edges as tests across the crates. The expected answers were worked out by hand, never by the program.
//! A test whose name ends in `again` makes a call again that a refused growth has ended.
#![tactic(auto)]

#[cfg(test)]
mod counted;
#[cfg(test)]
mod editors;
#[cfg(test)]
mod far;
#[cfg(test)]
mod half_edits;
#[cfg(test)]
mod half_maps;
#[cfg(test)]
mod lists;
#[cfg(test)]
mod near_checks;
#[cfg(test)]
mod parcel_edits;
#[cfg(test)]
mod plans;
#[cfg(test)]
mod plans_after;
#[cfg(test)]
mod plans_divided;
#[cfg(test)]
mod plans_enclosed;
#[cfg(test)]
mod plans_merged;
#[cfg(test)]
mod sights;
#[cfg(test)]
mod steps;
#[cfg(test)]
mod weights;
