//! Tests of sessions in threads of their own, alongside the loops, and of the history that they share.
#![tactic(auto)]

#[cfg(test)]
mod asking;
#[cfg(test)]
mod closed;
#[cfg(test)]
mod entries;
#[cfg(test)]
mod expect;
#[cfg(test)]
mod flag;
#[cfg(test)]
mod full_log;
#[cfg(test)]
mod history_blocks;
#[cfg(test)]
mod history_threads;
#[cfg(test)]
mod numbered;
#[cfg(test)]
mod pieces;
#[cfg(test)]
mod places;
#[cfg(test)]
mod service;
#[cfg(test)]
mod shares;
#[cfg(test)]
mod slow_sync;
#[cfg(test)]
mod stop;
#[cfg(test)]
mod totals;
#[cfg(test)]
mod unstored;
