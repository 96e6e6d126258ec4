//! A map file, as tests, in a store that memory holds. What is expected was worked out by hand.
#![tactic(auto)]

#[cfg(test)]
mod files;
#[cfg(test)]
mod journals;
#[cfg(test)]
mod plans;
#[cfg(test)]
mod sessions;
#[cfg(test)]
mod tables;
