//! Tests by public names of the crates below the volume: what the built programs can't show.
#![tactic(auto)]

#[cfg(test)]
mod areas;
#[cfg(test)]
mod devices;
#[cfg(test)]
mod listings;
#[cfg(test)]
mod numbers;
#[cfg(test)]
mod records;
#[cfg(test)]
mod scripts;
#[cfg(test)]
mod sources;
#[cfg(test)]
mod streams;
#[cfg(test)]
mod tables;
#[cfg(test)]
mod texts;
