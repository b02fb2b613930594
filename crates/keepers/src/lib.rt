//! What lies under the two locks of a server. Under that of the kernel: the half that makes calls together with the
//! history of what it made, and the ledger that counts each session's records. Under that of the store: the half that
//! stores, and the prefix of the history that it stores. Neither knows of the other but what loads and ends bring. There
//! is no thread and no lock here.
#![tactic(auto)]

mod acknowledged;
mod admissions;
mod both_pasts;
mod counting;
mod destructions;
mod fault;
mod kernel_keeper;
mod latest;
mod laws;
mod load;
mod making;
mod meeting;
mod session;
mod session_fault;
mod showing;
mod steps;
mod store_keeper;

pub use admissions::{Admission, Admissions, MOST_SESSIONS};
pub use destructions::Destructions;
pub use fault::{NotBegun, NotStored};
pub use history::{CatchUpFault, EntryBlock, EntryNote, Founding, Past};
pub use kernel_keeper::KernelKeeper;
pub use latest::Latest;
pub use laws::no_space_is_refused;
pub use load::{End, Load};
pub use meeting::{MeetFault, Unmet, meet};
pub use session::Session;
pub use session_fault::SessionFault;
pub use showing::show_stored;
pub use store_keeper::StoreKeeper;
