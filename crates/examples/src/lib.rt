//! The library by example: tests that use its crates from outside.
#![tactic(auto)]

#[cfg(test)]
mod boarding;
#[cfg(test)]
mod drafting;
#[cfg(test)]
mod ordering;
#[cfg(test)]
mod reading;
#[cfg(test)]
mod sessions;
