use crate::Datagram;

/// What a party of the protocol reacts to.
#[derive(Debug, PartialEq, Eq, Drop)]
pub enum Event {
    Datagram(Datagram),
    /// Time went on by one tick.
    Tick,
    /// Nothing came while the party waited.
    Quiet,
}
