//! A shell for a server's socket: sends the calls in lines of a script to the server, and prints each with its reply.
mod asked;
mod attempt;
mod printed;
mod reply;
mod run;
mod talk;
mod turn;

pub use asked::{Asked, read_asked};
pub use attempt::push_attempt;
pub use printed::{
    is_same_reply, push_answered, push_difference, push_long, push_strange, push_wrong,
};
pub use reply::read_reply;
pub use run::{run_shell, script_socket};
pub use talk::{Turn, converse, take_turn};
pub use turn::{Place, Printed, hear};
