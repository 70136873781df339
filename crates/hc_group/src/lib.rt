//! A group of three members and its aggregator, which hand each other's datagrams on until none is in flight.
//!
//! There is nothing here but tests: they show that the parties understand each other.
#![tactic(auto)]

#[cfg(test)]
mod addresses;
#[cfg(test)]
mod group;
#[cfg(test)]
mod packets;
#[cfg(test)]
mod script;
#[cfg(test)]
mod seat;
#[cfg(test)]
mod tests;
