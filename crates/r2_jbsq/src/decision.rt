use crate::RoutedRequest;
use r2_base::Rid;

/// What an event comes to at a router. A server is named by its place in the list.
#[derive(Debug, Drop)]
pub enum Decision {
    Nothing,
    /// A new request that neither goes to a server nor may wait.
    Reject(Rid),
    /// A new request that waits.
    Queue(RoutedRequest),
    /// A new request that goes to a server.
    Forward(RoutedRequest, usize),
    /// A server is done with a request.
    Close(Rid, usize),
    /// Each server gets its oldest open request again.
    Repeat,
}
