ghost use Rattle.std.specs.Prelude.{◌≡◌, [], None, Some};

use crate::CallEnd;
use r2_base::Datagrams;
use std::alloc::Global;

/// What a session does at an event.
#[derive(Debug, PartialEq, Eq, Drop)]
pub struct ClientStep {
    /// What is to be sent, in this order.
    pub sends: Datagrams,
    /// How the open call ended, where it did.
    pub end: Option<CallEnd>,
}

impl ClientStep {
    /// Nothing is sent, and no call ends.
    pub(crate) fn nothing(alloc: Global) -> ClientStep
        ensures { result ≡ record { sends = []; end = None } }
    {
        ClientStep::sending(Datagrams::new(alloc))
    }

    pub(crate) fn sending(sends: Datagrams) -> ClientStep
        ensures { result ≡ record { sends = sends; end = None } }
    {
        ClientStep { sends, end: None }
    }

    pub(crate) fn ending(alloc: Global, end: CallEnd) -> ClientStep
        ensures { result ≡ record { sends = []; end = Some end } }
    {
        ClientStep {
            sends: Datagrams::new(alloc),
            end: Some(end),
        }
    }
}
