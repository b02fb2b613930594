//! Many connections on one store: a thread for each processor serves them, each as a session of the store's history.
#![tactic(auto)]

mod asked;
mod beginning;
mod bound;
mod client;
mod connected;
mod context;
mod door;
mod held;
mod host;
mod laws;
mod lists;
mod making;
mod program;
mod replies;
mod standing;
mod stream;
mod threads;
mod timers;
mod worker;

pub use asked::Asked;
pub use beginning::{Talk, begin};
pub use connected::Connected;
pub use held::Held;
pub use host::Host;
pub use laws::{answer_says_confined, confined_connections_stay};
pub use program::{serve_disk, serve_locked, serve_opened};
pub use server::SocketEnd;
pub use stream::Stream;
