//! One session of the lab: an encrypting proxy for one client over the lab's backend, from the bytes
//! that come in to the bytes that go out.
#![tactic(auto)]

mod answering;
mod forward;
mod leasing;
mod meanings;
mod notes;
mod opening;
mod plan;
mod planning;
mod refusing;
mod relay;
mod rewriting;
mod said;
mod seeded;
mod send;
mod served;
mod session;
mod showing;
mod status;
mod stop;

pub use notes::notes_tables;
pub use opening::open_text;
pub use seeded::client_ring;
pub use session::first_session;
pub use status::Status;
