//! The requests that came and aren't ordered yet.
#![tactic(auto)]

mod pool;
mod put_fault;
mod request;

pub use pool::{MOST_POOLED, Pool};
pub use put_fault::PutFault;
pub use request::Request;
