ghost use Rattle.std.specs.Prelude.{◌≡◌, ◌<◌, ◌≤◌, false, true, length, is_some, IfOk, OnOk, OnErr};
ghost use Rattle.std.specs.Option.{option_copied};
ghost use Rattle.r2_base.specs.declared.rid.Rid.{Rid as RidSpec};
ghost use Rattle.r2_jbsq.specs.Limits.{greatest_n};
ghost use Rattle.r2_jbsq.specs.Standing.{chosen, closed, first_gone, first_of, has, is_known, nothing_open, put, queued, row_at};
ghost use Rattle.r2_jbsq.specs.State.{copies};

use crate::RoutedRequest;
use crate::row::Row;
use crate::rows::{chosen, new_rows};
use r2_base::{NoMemory, Rid};
use std::alloc::Global;
use std::collections::{HashSet, VecDeque};
use std::marker::Model;

/// The requests that are open at servers and those that wait.
#[derive(Drop)]
pub(crate) struct Requests {
    rows: Vec<Row>,
    /// Those that wait, the oldest in front.
    queue: VecDeque<RoutedRequest>,
    /// The names of all of them, so that a repeated request is found without a walk.
    known: HashSet<Rid>,
}

impl Model for Requests {
    ghost use Rattle.r2_jbsq.specs.Limits.{greatest_n};
    ghost use Rattle.r2_jbsq.specs.Standing.{IsIndex, Standing};

    ghost Value = { Standing };

    ghost view = { λ a. record { rows = a.rows.items; queue = a.queue.items } };

    ghost invariant = { λ a. IsIndex a.known.keys a.rows.items a.queue.items };
}

impl Requests {
    /// Nothing is open at so many servers, and nothing waits.
    pub(crate) fn new(alloc: Global, servers: usize) -> Result<Requests, NoMemory>
        ensures { IfOk result (λ requests. requests ≡ nothing_open servers) }
    {
        Ok(Requests {
            rows: new_rows(alloc, servers)?,
            queue: VecDeque::new(alloc),
            known: HashSet::new(alloc),
        })
    }

    /// Whether a request is open at some server or waits.
    pub(crate) fn is_known(&self, rid: &Rid) -> bool
        ensures { result ≡ is_known rid.now self.now }
    {
        self.known.contains(rid)
    }

    /// The server that a request goes to, if there is one.
    pub(crate) fn chosen(&self, n: u8) -> Option<usize>
        ensures { result ≡ chosen n self.now.rows }
    {
        chosen(n, self.rows.as_slice())
    }

    pub(crate) fn rows(&self) -> &[Row]
        ensures { result.now ≡ self.now.rows }
    {
        self.rows.as_slice()
    }

    /// Whether a request is open at a server.
    pub(crate) fn is_open_at(&self, rid: &Rid, server: usize) -> bool
        requires { server < length self.now.rows }
        ensures { result ≡ has rid.now (row_at self.now server) }
    {
        self.rows[server].has(rid)
    }

    /// How many requests wait.
    pub(crate) fn waiting(&self) -> usize
        ensures { result ≡ length self.now.queue }
    {
        self.queue.len()
    }

    /// The first of those that wait.
    pub(crate) fn first(&self) -> Option<&RoutedRequest>
        ensures { option_copied result ≡ first_of self.now.queue }
    {
        self.queue.front()
    }

    /// A new request waits.
    pub(crate) fn queue(&mut self, request: RoutedRequest) -> Result<(), NoMemory>
        requires { is_known request.rid self.old ≡ false }
        ensures ok { OnOk result (self.new ≡ queued request self.old) }
        ensures err { OnErr result (self.new ≡ self.old) }
    {
        self.queue.reserve(1)?;
        self.known.insert(request.rid)?;
        self.queue.push_back_reserved(request);
        Ok(())
    }

    /// A new request goes to a server.
    pub(crate) fn forward(&mut self, request: RoutedRequest, server: usize) -> Result<(), NoMemory>
        requires new { is_known request.rid self.old ≡ false }
        requires server { server < length self.old.rows }
        requires room { length (row_at self.old server) < greatest_n }
        ensures ok { OnOk result (self.new ≡ put request server self.old) }
        ensures err { OnErr result (self.new ≡ self.old) }
    {
        self.known.insert(request.rid)?;
        self.rows[server].push(request);
        Ok(())
    }

    /// A server is done with a request, which is open there.
    pub(crate) fn close(&mut self, rid: &Rid, server: usize)
        requires once { (other : RidSpec) → copies other self.old ≤ 1 }
        requires server { server < length self.old.rows }
        requires is_open { has rid.now (row_at self.old server) ≡ true }
        ensures { self.new ≡ closed rid.now server self.old }
    {
        self.rows[server].close(rid);
        self.known.remove(rid);
    }

    /// The first of those that wait goes to a server. Answers whether one waited.
    pub(crate) fn move_on(&mut self, server: usize) -> bool
        requires server { server < length self.old.rows }
        requires room { length (row_at self.old server) < greatest_n }
        ensures gone { self.new ≡ first_gone server self.old }
        ensures waited { result ≡ is_some (first_of self.old.queue) }
    {
        let Some(request) = self.queue.pop_front() else {
            return false;
        };
        self.rows[server].push(request);
        true
    }
}
