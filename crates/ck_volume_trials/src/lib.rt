//! Tests by public names of the volume and of the programs' top calls: what the built programs can't show.
#![tactic(auto)]

#[cfg(test)]
mod crashes;
#[cfg(test)]
mod faults;
#[cfg(test)]
mod removals;
#[cfg(test)]
mod runs;
#[cfg(test)]
mod streams;
