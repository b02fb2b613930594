//! Tests of the running state and its store. Parts of the state: each call that allocates succeeds with enough memory,
//! and changes are committed and rolled back. The kernel: calls and their replies, and the bounds. The store: a disk
//! that crashes, the journal, and recovery. The rest is proved.
#![tactic(auto)]

#[cfg(test)]
mod asked;
#[cfg(test)]
mod bending;
#[cfg(test)]
mod calls_made;
#[cfg(test)]
mod copied;
#[cfg(test)]
mod counted;
#[cfg(test)]
mod damage;
#[cfg(test)]
mod disk_tests;
#[cfg(test)]
mod epochs;
#[cfg(test)]
mod expect;
#[cfg(test)]
mod journal_tests;
#[cfg(test)]
mod lawful;
#[cfg(test)]
mod looked;
#[cfg(test)]
mod machine;
#[cfg(test)]
mod making;
#[cfg(test)]
mod many_names_tests;
#[cfg(test)]
mod many_ports_tests;
#[cfg(test)]
mod names;
#[cfg(test)]
mod notify_tests;
#[cfg(test)]
mod pair_counts_tests;
#[cfg(test)]
mod ports_tests;
#[cfg(test)]
mod queue_tests;
#[cfg(test)]
mod recorded;
#[cfg(test)]
mod recover_tests;
#[cfg(test)]
mod replayed;
#[cfg(test)]
mod sample;
#[cfg(test)]
mod spaces_tests;
#[cfg(test)]
mod store;
#[cfg(test)]
mod streams;
#[cfg(test)]
mod transit_tests;
#[cfg(test)]
mod two_epochs;
#[cfg(test)]
mod versions;
#[cfg(test)]
mod written;
