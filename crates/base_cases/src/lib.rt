//! The crates that know nothing of a map, or only of its rows and rings, as tests. What is expected was worked out by
//! hand, never by the program. A test whose name ends in `again` makes a call again that a refused growth has ended.
#![tactic(auto)]

#[cfg(test)]
mod cells;
#[cfg(test)]
mod entry_lists;
#[cfg(test)]
mod exact;
#[cfg(test)]
mod half_tables;
#[cfg(test)]
mod hashes;
#[cfg(test)]
mod lists_under_keys;
#[cfg(test)]
mod number_tables;
#[cfg(test)]
mod rings;
#[cfg(test)]
mod row_values;
#[cfg(test)]
mod sweeps;
#[cfg(test)]
mod values;
