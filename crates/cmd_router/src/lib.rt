//! The loops of a router: each worker runs it between a twin of a link and a clock, alone or beside others, and the totals are printed.
#![tactic(auto)]

mod desk_party;
mod on_twin;
mod router_totals;
mod routing;
mod routing_party;
mod seat;
mod seating;
mod sharing;
mod workers;

pub use routing::serve_router;

#[cfg(test)]
mod meeting_tests;
#[cfg(test)]
mod tests;
