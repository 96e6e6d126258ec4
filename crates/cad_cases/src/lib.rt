//! Worked jobs and views as tests across the crates. What is expected was worked out by hand, never by the program. A test
//! whose name ends in `again` makes a call again that a refused growth has ended.
#![tactic(auto)]

#[cfg(test)]
mod adjusting;
#[cfg(test)]
mod arguments;
#[cfg(test)]
mod bases;
#[cfg(test)]
mod cases;
#[cfg(test)]
mod chains;
#[cfg(test)]
mod damaged;
#[cfg(test)]
mod dividing;
#[cfg(test)]
mod drawings;
#[cfg(test)]
mod enclosing;
#[cfg(test)]
mod face_rings;
#[cfg(test)]
mod faults;
#[cfg(test)]
mod files;
#[cfg(test)]
mod history;
#[cfg(test)]
mod long_rings;
#[cfg(test)]
mod merging;
#[cfg(test)]
mod plans;
#[cfg(test)]
mod points;
#[cfg(test)]
mod random;
#[cfg(test)]
mod records;
#[cfg(test)]
mod reports;
#[cfg(test)]
mod stars;
#[cfg(test)]
mod stopping;
#[cfg(test)]
mod stores;
#[cfg(test)]
mod tables;
#[cfg(test)]
mod viewed_plans;
