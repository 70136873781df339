//! The messages of the replicas, their bytes, and the fields that messages and records share.
#![tactic(auto)]

mod field_fault;
pub mod fields;
pub mod laws;
mod msg;
mod msg_fault;
mod order_head;
mod reading;
mod writing;

pub use field_fault::FieldFault;
pub use msg::Msg;
pub use msg_fault::MsgFault;
pub use reading::read;
pub use writing::write;

#[cfg(test)]
mod tests;
