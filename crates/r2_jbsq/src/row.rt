ghost use Rattle.std.specs.Prelude.{◌≡◌, ◌<◌, ◌++◌, ◌∷◌, [], length, IfOk, option_map};
ghost use Rattle.r2_jbsq.specs.Limits.{greatest_n};
ghost use Rattle.r2_jbsq.specs.Standing.{first_of, has, is_for, without};

use crate::RoutedRequest;
use crate::limits::GREATEST_N;
use r2_base::{NoMemory, Rid};
use std::alloc::Global;
use std::marker::Model;

/// The requests that are open at one server, the oldest first. There is room for as many as may be.
#[derive(Debug, Drop)]
pub(crate) struct Row {
    requests: Vec<RoutedRequest>,
}

impl Model for Row {
    ghost use Rattle.std.specs.Prelude.{List, ◌≤◌, vec_capacity};
    ghost use Rattle.r2_jbsq.specs.Limits.{greatest_n};
    ghost use Rattle.r2_jbsq.specs.declared.routed_request.RoutedRequest.{RoutedRequest};

    ghost Value = { List RoutedRequest };

    ghost view = { λ a. a.requests.items };

    ghost invariant = { λ a. greatest_n ≤ vec_capacity a.requests };
}

impl Row {
    pub(crate) fn new(alloc: Global) -> Result<Row, NoMemory>
        ensures { IfOk result (λ row. row ≡ []) }
    {
        let requests = Vec::with_capacity(alloc, usize::from(GREATEST_N))?;
        Ok(Row { requests })
    }

    pub(crate) fn as_slice(&self) -> &[RoutedRequest]
        ensures { result.now ≡ self.now }
    {
        self.requests.as_slice()
    }

    pub(crate) fn len(&self) -> usize
        ensures { result ≡ length self.now }
    {
        self.requests.len()
    }

    /// Whether a request is open here.
    pub(crate) fn has(&self, rid: &Rid) -> bool
        ensures { result ≡ has rid.now self.now }
    {
        self.requests.iter().any(|request| is_for(rid, request))
    }

    /// A request comes to the server.
    pub(crate) fn push(&mut self, request: RoutedRequest)
        requires { length self.old < greatest_n }
        ensures { self.new ≡ self.old ++ request ∷ [] }
    {
        self.requests.push_reserved(request);
    }

    /// The server is done with a request.
    #[tactic(auto, unfolding(crate::specs::Standing::without))]
    pub(crate) fn close(&mut self, rid: &Rid)
        ensures { self.new ≡ without rid.now self.old }
    {
        self.requests.retain(|request| !is_for(rid, request));
    }
}

/// Whether this is the request of this name.
pub(crate) fn is_for(rid: &Rid, request: &RoutedRequest) -> bool
    ensures { result ≡ is_for rid.now request.now }
{
    *rid == request.rid
}
