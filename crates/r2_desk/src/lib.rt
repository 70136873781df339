//! A desk: one router that several workers share. Its book is under a lock, each worker has a pass, and what all passes made is
//! proved to be what the book counted.
#![tactic(auto)]

mod books;
mod close_fault;
mod closed;
mod closing;
mod desk;
pub mod laws;
mod limits;
mod made;
mod making;
mod pass;
mod router_book;
mod sameness;
mod shares;
mod step;
#[cfg(test)]
mod tests;
mod totals;
mod trail;
mod turned;
mod turning;

pub use close_fault::CloseFault;
pub use closed::Closed;
pub use desk::Desk;
pub use limits::{MOST_PASS_TURNS, MOST_STEPS, MOST_WORKERS};
pub use pass::Pass;
pub use router_book::RouterBook;
pub use step::Step;
pub use totals::Totals;
pub use trail::Trail;
pub use turned::Turned;
