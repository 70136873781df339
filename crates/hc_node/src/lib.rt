//! A replica of a group: the code of its turns, which are those of a member.
#![tactic(auto)]

mod bodies;
mod direct_orders;
mod elections;
mod finish;
mod group;
mod lead;
mod leading;
mod live;
mod member;
mod node;
mod orders;
mod receiving;
mod reports;
mod sending;
mod settle;
mod storing;
mod ticks;
mod turns;
mod votes;

pub use hc_member::{Role, Setup};
pub use node::Node;
