ghost use Rattle.std.specs.Prelude.{◌≡◌, ◌≤◌, ◌<◌, ◌↔◌, ◌==◌, ◌++◌, ◌∷◌, [], false, true, length, position, slice_get, MatchOption, IfSome, Some, is_some, option_copied, OnOk, OnErr, Err};
ghost use Rattle.r2_base.specs.Entry.{is_request};
ghost use Rattle.hc_pool.specs.Pool.{has_rid, waits_in, request_of, without, oldest_of, most_pooled, IsPool, MayWait};
ghost use Rattle.r2_base.specs.Limits.{most_body};

use crate::{PutFault, Request};
use indexmap::IndexMap;
use r2_base::{Bytes, Kind, NoMemory, Rid};
use std::alloc::Global;
use std::marker::Model;

/// The greatest number of waiting requests to which a client's request is added.
pub const MOST_POOLED: usize = 4_096;

/// The requests that came and aren't ordered yet, the one put first at the beginning (HovercRaft, on separating the
/// replication of requests from their order). Each is a Write or a Read, its body has at most `MOST_BODY` bytes, and no
/// request id is held twice.
///
/// A request is looked up by its id in the same time however many wait. To take one out moves those after it up, so it
/// takes longer the more there are.
#[derive(Debug, Drop)]
pub struct Pool {
    /// Each request under its id, in the order in which they were put.
    requests: IndexMap<Rid, Request>,
}

impl Model for Pool {
    ghost use Rattle.std.specs.Prelude.{List};
    ghost use Rattle.hc_pool.specs.declared.request.Request.{Request};
    ghost use Rattle.indexmap.specs.IndexMap.{values};
    ghost use Rattle.hc_pool.specs.Pool.{IsPool};
    ghost use Rattle.hc_pool.specs.Keys.{AreUnderTheirIds};

    ghost Value = { List Request };

    ghost view = { λ a. values a.requests };

    ghost invariant = { λ a. IsPool (values a.requests) × AreUnderTheirIds a.requests.entries };
}

impl Pool {
    /// No requests, with no memory taken.
    pub fn new(alloc: Global) -> Pool
        ensures { result ≡ [] }
    {
        Pool {
            requests: IndexMap::new(alloc),
        }
    }

    pub fn len(&self) -> usize
        ensures count { result ≡ length self.now }
        ensures holds { IsPool self.now }
    {
        self.requests.len()
    }

    pub fn is_empty(&self) -> bool
        ensures { result ≡ (length self.now == 0) }
    {
        self.requests.is_empty()
    }

    /// The kind and the body of the request with this id.
    pub fn get(&self, rid: &Rid) -> Option<(Kind, &Bytes)>
        ensures request { MatchOption result (request_of rid.now self.now ≡ None) (λ p. request_of rid.now self.now ≡ Some (record { rid = rid.now; kind = p.0; body = p.1.now })) }
        ensures waits { is_some result ≡ waits_in rid.now self.now }
    {
        match self.requests.get(rid) {
            None => None,
            Some(request) => Some((request.kind, &request.body)),
        }
    }

    /// The id of the request that was put first.
    pub fn oldest(&self) -> Option<Rid>
        ensures { result ≡ oldest_of self.now }
    {
        let request = self.first()?;
        Some(request.rid)
    }

    /// The request that was put first.
    pub fn first(&self) -> Option<&Request>
        ensures { MatchOption result (self.now ≡ []) (λ r. slice_get self.now 0 ≡ Some r.now) }
    {
        let (_, request) = self.requests.first()?;
        Some(request)
    }

    /// Takes out the request that was put first. The order of the others stays.
    pub fn take_first(&mut self) -> Option<Request>
        ensures first { MatchOption result ((self.old ≡ []) × (self.new ≡ [])) (λ r. self.old ≡ r ∷ self.new) }
        ensures fits { IfSome result MayWait }
        ensures once { IfSome result (λ r. waits_in r.rid self.new ≡ false) }
    {
        let (_, request) = self.requests.shift_remove_index(0)?;
        Some(request)
    }

    /// Puts a client's request after the others, if fewer than `MOST_POOLED` wait.
    pub fn put(&mut self, rid: Rid, kind: Kind, body: Bytes) -> Result<(), PutFault>
        requires is_new { waits_in rid self.old ≡ false }
        requires asks { is_request kind ≡ true }
        requires body { length body ≤ most_body }
        ensures ok { OnOk result (self.new ≡ self.old ++ (record { rid = rid; kind = kind; body = body }) ∷ []) }
        ensures err { OnErr result (self.new ≡ self.old) }
        ensures full { (result ≡ Err PutFault.Full) ↔ (most_pooled ≤ length self.old) }
    {
        if self.requests.len() >= MOST_POOLED {
            return Err(PutFault::Full);
        }
        self.put_back(rid, kind, body)?;
        Ok(())
    }

    /// Puts a request after the others that was cut from the log, or that another member sent. It is never full for these.
    pub fn put_back(&mut self, rid: Rid, kind: Kind, body: Bytes) -> Result<(), NoMemory>
        requires is_new { waits_in rid self.old ≡ false }
        requires asks { is_request kind ≡ true }
        requires body { length body ≤ most_body }
        ensures ok { OnOk result (self.new ≡ self.old ++ (record { rid = rid; kind = kind; body = body }) ∷ []) }
        ensures err { OnErr result (self.new ≡ self.old) }
    {
        self.requests.insert(rid, Request { rid, kind, body })?;
        Ok(())
    }

    /// Takes the request with this id out. The order of the others stays.
    pub fn take(&mut self, rid: &Rid) -> Option<(Kind, Bytes)>
        ensures taken { MatchOption result (request_of rid.now self.old ≡ None) (λ p. request_of rid.now self.old ≡ Some (record { rid = rid.now; kind = p.0; body = p.1 })) }
        ensures fits { IfSome result (λ p. MayWait (record { rid = rid.now; kind = p.0; body = p.1 })) }
        ensures others { self.new ≡ without rid.now self.old }
    {
        let Some(request) = self.requests.shift_remove(rid) else {
            return None;
        };
        Some((request.kind, request.body))
    }
}

#[cfg(test)]
mod tests {
    use super::*;
    use r2_base::Addr;
    use std::test::Fail;

    fn rid(id: u16) -> Rid {
        Rid {
            id,
            client: Addr {
                ip: 0x0a00_0009,
                port: 7_001,
            },
        }
    }

    /// Puts requests with these numbers, each with a body of one byte, as far as the pool takes them from a client.
    fn fill(pool: &mut Pool, alloc: Global, ids: u16) -> Result<(), PutFault> {
        for id in 0..ids {
            let new = rid(id);
            if pool.get(&new).is_none() {
                let body = Bytes::from_vec(b"G".to_vec(alloc).map_err(|_| PutFault::Memory)?);
                pool.put(new, Kind::Read, body)?;
            }
        }
        Ok(())
    }

    #[test]
    fn a_full_pool_takes_what_is_put_back(rt: HostRuntime) -> Result<(), Fail> {
        let alloc = rt.alloc();
        let mut pool = Pool::new(alloc);
        assert_eq!(rt; fill(&mut pool, alloc, 4_097), Err(PutFault::Full));
        assert_eq!(rt; pool.len(), 4_096);
        let late = rid(5_000);
        if pool.get(&late).is_none() {
            pool.put_back(late, Kind::Write, Bytes::new(alloc))?;
        }
        assert_eq!(rt; pool.len(), 4_097);
        let (kind, body) = pool.get(&late).ok_or("waits")?;
        assert_eq!(rt; (kind, body.len()), (Kind::Write, 0));
        Ok(())
    }

    #[test]
    fn the_others_keep_their_order(rt: HostRuntime) -> Result<(), Fail> {
        let alloc = rt.alloc();
        let mut pool = Pool::new(alloc);
        fill(&mut pool, alloc, 4)?;
        let (kind, body) = pool.take(&rid(1)).ok_or("waits")?;
        assert_eq!(rt; (kind, body.as_slice()), (Kind::Read, b"G".as_slice()));
        assert!(rt; pool.take(&rid(1)).is_none());
        for want in [0, 2, 3] {
            let oldest = pool.oldest().ok_or("waits")?;
            assert_eq!(rt; oldest, rid(want));
            assert!(rt; pool.take(&oldest).is_some());
        }
        assert!(rt; pool.is_empty());
        Ok(())
    }
}
