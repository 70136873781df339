use r2_base::Datagrams;

/// What a turn on a desk answers: its number on the book, counted from 1, and the datagrams to be sent, in their order.
#[derive(Debug, Drop)]
pub struct Turned {
    pub number: u64,
    pub sends: Datagrams,
}
