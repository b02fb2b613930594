//! Tests of the formats: words, codes, frames, calls, messages and records; images and their encodings, new segments
//! and images in their slots, and the output of inspectors; and tests of the relay with streams that are cut off, that
//! end and that fail.
#![tactic(auto)]

#[cfg(test)]
mod calls_tests;
#[cfg(test)]
mod checkpoint_tests;
#[cfg(test)]
mod client_tests;
#[cfg(test)]
mod codes_tests;
#[cfg(test)]
mod drawing_tests;
#[cfg(test)]
mod expect;
#[cfg(test)]
mod image_tests;
#[cfg(test)]
mod ipc_model_tests;
#[cfg(test)]
mod listing_tests;
#[cfg(test)]
mod msg_header_tests;
#[cfg(test)]
mod peer;
#[cfg(test)]
mod record_tests;
#[cfg(test)]
mod relay_tests;
#[cfg(test)]
mod sample;
#[cfg(test)]
mod script_tests;
#[cfg(test)]
mod streams;
#[cfg(test)]
mod type_desc_tests;
#[cfg(test)]
mod wire_tests;
#[cfg(test)]
mod words_tests;
