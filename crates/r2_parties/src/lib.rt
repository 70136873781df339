//! Clients' sessions, a router and a server, which hand each other's datagrams on.
//!
//! There is nothing here but tests: they show that the parties understand each other.
#![tactic(auto)]

#[cfg(test)]
mod tests;
