ghost use Rattle.std.specs.Prelude.{◌≡◌, ◌+◌, ◌<◌, ◌≤◌, ◌^◌, ◌++◌, length, IfOk, OnOk};
ghost use Rattle.r2_base.specs.Limits.{greatest_member};
ghost use Rattle.r2_base.specs.declared.entry.Kind.TheVariants.{Read, Write};
ghost use Rattle.hc_log.specs.declared.stored.Stored.{Stored};
ghost use Rattle.hc_log.specs.Log.{stored_at};
ghost use Rattle.hc_store.specs.Service.{Served, serve};
ghost use Rattle.hc_store.specs.State.{IsCountedBelow, most_counted};
ghost use Rattle.hc_service.specs.Batch.{entries_between, own_answer, read_run, run_all, run_one, write_run};
ghost use Rattle.hc_service.specs.Laws.{HasRun};

use crate::{Answer, Answers};
use hc_log::Log;
use hc_store::{Reply, Service, payload_of};
use r2_base::{Entry, Kind, Listed, NoMemory};
use std::alloc::Global;

/// Answers an entry by what was served, where this member is its replier.
fn answer(
    alloc: Global,
    me: u8,
    index: u64,
    entry: &Entry,
    reply: &Reply,
    answers: &mut Vec<Answer>,
) -> Result<(), NoMemory>
    ensures { OnOk result ((s : Stored) (served : Served) → s.entry ≡ entry.now → reply.now.status ≡ served.status → reply.now.value ≡ served.value
        → answers.new.items ≡ answers.old.items ++ own_answer me index s served) }
{
    if entry.replier != me {
        return Ok(());
    }
    let payload = payload_of(alloc, index, reply)?;
    answers.push(Answer {
        index,
        rid: entry.rid,
        kind: entry.kind,
        payload,
    })?;
    Ok(())
}

/// Executes a request to write, and answers it where this member is its replier.
fn run_write<V: Service>(
    alloc: Global,
    service: &mut V,
    log: &Log,
    me: u8,
    index: u64,
    answers: &mut Vec<Answer>,
) -> Result<(), NoMemory>
    requires first { 1 ≤ index }
    requires last { index ≤ length log.now }
    requires writes { (V.state service.old).writes < most_counted }
    ensures service { OnOk result (V.state service.new ≡ (write_run me index (stored_at log.now index) (V.state service.old) (serve (V.state service.old).contents Write (stored_at log.now index).body)).service) }
    ensures answers { OnOk result (answers.new.items ≡ answers.old.items ++ (write_run me index (stored_at log.now index) (V.state service.old) (serve (V.state service.old).contents Write (stored_at log.now index).body)).answers) }
{
    let entry = log.entry(index);
    let body = log.body(index);
    let reply = service.apply(alloc, body.as_slice())?;
    answer(alloc, me, index, &entry, &reply, answers)?;
    Ok(())
}

/// Executes a request to read, and answers it, where this member is its replier.
fn run_read<V: Service>(
    alloc: Global,
    service: &mut V,
    log: &Log,
    me: u8,
    index: u64,
    answers: &mut Vec<Answer>,
) -> Result<(), NoMemory>
    requires first { 1 ≤ index }
    requires last { index ≤ length log.now }
    requires reads { (V.state service.old).reads < most_counted }
    ensures service { OnOk result (V.state service.new ≡ (read_run me index (stored_at log.now index) (V.state service.old) (serve (V.state service.old).contents Read (stored_at log.now index).body)).service) }
    ensures answers { OnOk result (answers.new.items ≡ answers.old.items ++ (read_run me index (stored_at log.now index) (V.state service.old) (serve (V.state service.old).contents Read (stored_at log.now index).body)).answers) }
{
    let entry = log.entry(index);
    let mine = entry.replier == me;
    if !mine {
        return Ok(());
    }
    let body = log.body(index);
    let ticket = service.admit();
    let reply = service.read(alloc, ticket, body.as_slice())?;
    answer(alloc, me, index, &entry, &reply, answers)?;
    Ok(())
}

/// Executes one entry, and answers it where this member is its replier.
#[tactic(auto, unfolding(crate::specs::Batch::run_one))]
fn run_one<V: Service>(
    alloc: Global,
    service: &mut V,
    log: &Log,
    me: u8,
    index: u64,
    answers: &mut Vec<Answer>,
) -> Result<(), NoMemory>
    requires first { 1 ≤ index }
    requires last { index ≤ length log.now }
    requires writes { (V.state service.old).writes < most_counted }
    requires reads { (V.state service.old).reads < most_counted }
    ensures service { OnOk result (V.state service.new ≡ (run_one me index (stored_at log.now index) (V.state service.old)).service) }
    ensures answers { OnOk result (answers.new.items ≡ answers.old.items ++ (run_one me index (stored_at log.now index) (V.state service.old)).answers) }
{
    match log.entry(index).kind {
        Kind::Blank => {}
        Kind::Write => run_write(alloc, service, log, me, index, answers)?,
        Kind::Read => run_read(alloc, service, log, me, index, answers)?,
    }
    Ok(())
}

/// Executes the entries of a log from an index up to another: every request to write, and of the requests to read those that this
/// member is to answer (HovercRaft, on read-only requests). It answers, in the order of their indexes, the requests whose replier
/// this member is. Where memory runs out the service is to be dropped.
pub fn run_batch<V: Service>(
    alloc: Global,
    service: &mut V,
    log: &Log,
    me: u8,
    from: u64,
    to: u64,
) -> Result<Answers, NoMemory>
    requires member { me ≤ greatest_member }
    requires first { 1 ≤ from }
    requires order { from ≤ to + 1 }
    requires last { to ≤ length log.now }
    requires counts { IsCountedBelow (2 ^ 59) (V.state service.old) }
    ensures service { OnOk result (V.state service.new ≡ (run_all me from (entries_between log.now from to) (V.state service.old)).service) }
    ensures answers { IfOk result (λ answers. answers ≡ (run_all me from (entries_between log.now from to) (V.state service.old)).answers) }
    ensures counted { OnOk result (HasRun me (entries_between log.now from to) (V.state service.old) (V.state service.new)) }
{
    let _last = log.last();
    let mut answers = Vec::new(alloc);
    'entries: for index in from..to + 1 {
        run_one(alloc, service, log, me, index, &mut answers)?;
    }
    Ok(Listed::from_vec(answers))
}
