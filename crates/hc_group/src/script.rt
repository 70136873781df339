//! A conversation as a list of steps.

use crate::group::{Group, address_of};
use crate::packets::{Request, found, written};
use std::alloc::Global;
use std::test::Fail;

/// What is done to a group, or has to hold of it then. Members are named by their numbers.
#[derive(Clone, Copy)]
pub(crate) enum Step {
    /// A tick at a member.
    Tick(usize),
    /// Ticks at a member, so many, each followed by what comes of it until nothing is in flight.
    Ticks(usize, usize),
    /// The client sends a request to all members.
    Ask(Request),
    /// The client sends a request to one member.
    AskOne(usize, Request),
    /// The client sends a request to all members again after each tick at the first one, until it has an answer.
    Repeat(Request),
    /// All that is in flight comes, and what is sent then is in flight, so many times.
    Rounds(usize),
    /// The same until nothing is in flight.
    Settle,
    /// What is in flight is lost.
    Lose,
    /// From now on the network loses and repeats datagrams.
    Spoil,
    /// A member stops.
    Stop(usize),
    /// A member that stopped starts from its records.
    Start(u8),
    /// The aggregator forgets what it counted.
    Forget,
    /// The client's next answer: a member tells that the request with an id was done, as the entry at an index.
    Written(usize, u8, u8),
    /// The client's next answer: a member tells that the request with an id was done, as the entry at an index, and found a value.
    Found(usize, u8, u8, u8),
    /// The client has no other answer, but the last one again.
    Echoes,
    /// The client has no other answer.
    Silence,
    /// In flight is what tells all members that in a term the entry at an index is committed, and nothing else.
    Committed(u8, u8),
    /// All members have applied the entries up to an index, and have the same log.
    AllHave(u64),
}

/// A step that was done, and has nothing to hold.
fn done(did: Result<(), Fail>) -> Result<bool, Fail> {
    did?;
    Ok(true)
}

/// Does a step. Whether it holds, if it is one that has to.
fn take(alloc: Global, group: &mut Group, step: Step) -> Result<bool, Fail> {
    match step {
        Step::Tick(member) => done(group.tick(member)),
        Step::Ticks(member, count) => done(group.ticks(member, count)),
        Step::Ask(request) => done(group.ask(request)),
        Step::AskOne(member, request) => done(group.ask_one(member, request)),
        Step::Repeat(request) => done(group.repeat(request)),
        Step::Rounds(count) => done(group.rounds(count)),
        Step::Settle => done(group.settle()),
        Step::Lose => done(Ok(group.lose())),
        Step::Spoil => done(Ok(group.spoil())),
        Step::Stop(member) => done(Ok(group.stop(member))),
        Step::Start(member) => done(group.start(member)),
        Step::Forget => done(Ok(group.forget())),
        Step::Written(by, id, index) => group.is_next(written(alloc, address_of(by)?, id, index)),
        Step::Found(by, id, index, value) => {
            group.is_next(found(alloc, address_of(by)?, id, index, value))
        }
        Step::Echoes => Ok(group.has_echoes_only()),
        Step::Silence => Ok(group.is_silent()),
        Step::Committed(term, index) => group.tells_all(term, index),
        Step::AllHave(index) => group.agree_on(index),
    }
}

/// The first of the steps that doesn't hold, in a group that has just begun.
pub(crate) fn first_wrong(
    alloc: Global,
    has_aggregator: bool,
    steps: &[Step],
) -> Result<Option<usize>, Fail> {
    let mut group = Group::new(alloc, has_aggregator)?;
    'steps: for (number, step) in steps.iter().enumerate() {
        if !take(alloc, &mut group, *step)? {
            return Ok(Some(number));
        }
    }
    Ok(None)
}
