//! Orders that a leader sends to one member each, with what comes next for it (Raft, section 5.3).
ghost use Rattle.std.specs.Prelude.{◌≡◌, ◌<◌, ◌≤◌, ◌++◌, length, map, OnOk};
ghost use Rattle.hc_log.specs.Durable.{IsValid};
ghost use Rattle.hc_member.specs.Member.{durable_of};
ghost use Rattle.hc_member.specs.Sending.{datagrams_of};
ghost use Rattle.hc_member.specs.Setup.{IsSetup, others};
ghost use Rattle.hc_member.specs.Sound.{IsLeading};
ghost use Rattle.hc_node.specs.Sends.{AreSent};

use crate::group::{address_of, is_other, members};
use crate::member::Member;
use crate::sending::tell;
use hc_member::Setup;
use hc_message::Msg;
use hc_service::Service;
use r2_base::{Datagram, MOST_ENTRIES, Metas, NoMemory};
use std::alloc::Global;

impl<V: Service> Member<V> {
    ghost use Rattle.hc_member.specs.Orders.{direct_order, order_after};

    /// An Order of this leader: entries after an index.
    pub(crate) fn order_after(&self, setup: &Setup, index: u64, via: bool, entries: Metas) -> Msg
        requires { index ≤ length self.now.log }
        ensures { result ≡ order_after setup.now self.now index via entries }
    {
        Msg::Order {
            term: self.term,
            leader: setup.me,
            prev_index: index,
            prev_term: self.log.term_at(index),
            term_start: self.lead.term_start,
            commit: self.commit,
            via,
            metas: entries,
        }
    }

    /// Sends a member the entries from the next one for it on, as many as an Order has.
    pub(crate) fn send_direct_order(
        &self,
        alloc: Global,
        setup: &Setup,
        member: u8,
        sends: &mut Vec<Datagram>,
    ) -> Result<(), NoMemory>
        requires setup { IsSetup setup.now }
        requires durable { IsValid (durable_of self.now) }
        requires leading { IsLeading setup.now self.now.term (length self.now.log) self.now.lead }
        requires commit { self.now.commit ≤ length self.now.log }
        requires member { member < length setup.now.members }
        ensures { OnOk result (sends.new.items ≡ sends.old.items ++ datagrams_of setup.now (direct_order setup.now self.now member)) }
    {
        let from = self.lead.next_to(member);
        let entries = self.log.slice(from, MOST_ENTRIES)?;
        let message = self.order_after(setup, from - 1, false, entries);
        tell(alloc, setup, address_of(setup, member), &message, sends)
    }

    /// Sends each other member what comes next for it.
    pub(crate) fn send_direct_orders(
        &self,
        alloc: Global,
        setup: &Setup,
        sends: &mut Vec<Datagram>,
    ) -> Result<(), NoMemory>
        requires setup { IsSetup setup.now }
        requires durable { IsValid (durable_of self.now) }
        requires leading { IsLeading setup.now self.now.term (length self.now.log) self.now.lead }
        requires commit { self.now.commit ≤ length self.now.log }
        ensures { OnOk result (AreSent setup.now (map (direct_order setup.now self.now) (others setup.now)) sends.old.items sends.new.items) }
    {
        'members: for member in 0..members(setup) {
            if is_other(setup, member) {
                self.send_direct_order(alloc, setup, member, sends)?;
            }
        }
        Ok(())
    }
}
