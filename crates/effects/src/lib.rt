//! The pending effects of a call, in a queue: first in, first out.
#![tactic(auto)]

mod effect;
mod list;
mod notice;

pub use effect::Effect;
pub use list::Effects;
pub use notice::Notice;
