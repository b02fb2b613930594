//! Tests of the core and of the service over it: events one by one and in lists, streams, faults, an epoch log that is
//! full, and crashes between and within calls; and of what inspectors print of a store, and how they end.
#![tactic(auto)]

#[cfg(test)]
mod asking;
#[cfg(test)]
mod batches;
#[cfg(test)]
mod checkpoints;
#[cfg(test)]
mod corrupted;
#[cfg(test)]
mod expect;
#[cfg(test)]
mod failures;
#[cfg(test)]
mod frames;
#[cfg(test)]
mod full_log;
#[cfg(test)]
mod image_phases;
#[cfg(test)]
mod inspected;
#[cfg(test)]
mod inspectors;
#[cfg(test)]
mod listings;
#[cfg(test)]
mod lists;
#[cfg(test)]
mod many_calls;
#[cfg(test)]
mod programs;
#[cfg(test)]
mod rests;
#[cfg(test)]
mod served;
#[cfg(test)]
mod stops;
#[cfg(test)]
mod store;
#[cfg(test)]
mod streams;
#[cfg(test)]
mod upgrades;
