//! Conversations of three members, an aggregator and a client.

use crate::packets::Request::{From1To2, From2To3, Get, Put1};
use crate::script::Step::{
    AllHave, Ask, AskOne, Committed, Echoes, Forget, Found, Lose, Repeat, Rounds, Settle, Silence,
    Spoil, Start, Stop, Tick, Ticks, Written,
};
use crate::script::first_wrong;
use std::test::Fail;

/// Of two requests that are sent at once the leader answers the first, and the next member the second.
#[test]
fn members_answer_through_the_aggregator(rt: HostRuntime) -> Result<(), Fail> {
    let steps = [
        Ticks(0, 1),
        Ask(Put1),
        Ask(Get(2)),
        Settle,
        Written(0, 1, 2),
        Found(1, 2, 3, b'1'),
        Silence,
        AllHave(3),
    ];
    assert_eq!(rt; first_wrong(rt.alloc(), true, &steps)?, None);
    Ok(())
}

/// Without an aggregator the other members hear what is committed at the leader's next tick.
#[test]
fn members_answer_without_an_aggregator(rt: HostRuntime) -> Result<(), Fail> {
    let steps = [
        Ticks(0, 1),
        Ask(Put1),
        Ask(Get(2)),
        Settle,
        Written(0, 1, 2),
        Silence,
        Ticks(0, 1),
        Found(1, 2, 3, b'1'),
        Silence,
        AllHave(3),
    ];
    assert_eq!(rt; first_wrong(rt.alloc(), false, &steps)?, None);
    Ok(())
}

/// The leader of the first term, member 2, stops when the others have its entries and it doesn't know that.
///
/// The next leader commits them as they are, so a request whose replier runs is answered. The one that the stopped member is to
/// answer waits for its return. What is asked again is answered again by who answered it, and isn't executed again.
#[test]
fn what_the_others_have_survives_the_leader(rt: HostRuntime) -> Result<(), Fail> {
    let steps = [
        Ticks(2, 7),
        Ask(Put1),
        Settle,
        Written(0, 1, 2),
        Silence,
        // Members 1 and 2 are to answer these. The Orders go on to the others, whose Acks are lost.
        Ask(From1To2),
        Ask(Get(3)),
        Rounds(3),
        Lose,
        Stop(2),
        Ticks(0, 1),
        Written(1, 2, 3),
        Silence,
        Ask(From1To2),
        Ask(Get(3)),
        Settle,
        Written(1, 2, 3),
        Silence,
        // The new leader's own entry is at 5.
        Ask(Get(4)),
        Settle,
        Found(0, 4, 6, b'2'),
        Silence,
        // The stopped member comes back with its log, and asks for the body that it missed.
        Start(2),
        Ticks(0, 1),
        Found(2, 3, 4, b'2'),
        Silence,
        Ticks(0, 1),
        AllHave(6),
        // Each executed the same: of three requests at once it is each one's turn to answer.
        Ask(Get(5)),
        Ask(Get(6)),
        Ask(Get(7)),
        Settle,
        Found(0, 5, 7, b'2'),
        Found(1, 6, 8, b'2'),
        Found(2, 7, 9, b'2'),
        Silence,
    ];
    assert_eq!(rt; first_wrong(rt.alloc(), true, &steps)?, None);
    Ok(())
}

/// The leader of the first term, member 2, stops before the others have its entries.
///
/// The next leader orders what it has itself, at another index. What nobody else had is lost until the client repeats it.
/// The stopped member comes back with entries that are cut, and has their bodies for the new ones.
#[test]
fn what_the_leader_alone_had_is_ordered_anew(rt: HostRuntime) -> Result<(), Fail> {
    let steps = [
        Ticks(2, 7),
        Ask(Put1),
        Settle,
        Ticks(2, 1),
        Written(0, 1, 2),
        Silence,
        // The leader has them at 3 and 4.
        Ask(From1To2),
        AskOne(2, From2To3),
        Rounds(1),
        Lose,
        Stop(2),
        Ticks(0, 1),
        Written(0, 2, 4),
        Silence,
        Ask(From2To3),
        Settle,
        Written(0, 3, 5),
        Silence,
        Start(2),
        Ask(From2To3),
        Settle,
        Written(0, 3, 5),
        Silence,
        Ticks(0, 2),
        AllHave(5),
    ];
    assert_eq!(rt; first_wrong(rt.alloc(), false, &steps)?, None);
    Ok(())
}

/// The aggregator tells all members what is committed: here in term 3, whose leader has an entry of its own at 3, after one of term 1
/// at 2 that all have and nobody knows to be committed. What the aggregator forgets it counts again from the next Order on.
#[test]
fn the_aggregator_counts_anew_in_a_term_and_after_it_forgets(rt: HostRuntime) -> Result<(), Fail> {
    let steps = [
        Ticks(0, 1),
        Ask(Put1),
        Rounds(3),
        Lose,
        // The leader starts again, and asks for votes of term 2, which are lost, then of term 3.
        Stop(0),
        Start(0),
        Tick(0),
        Lose,
        Tick(0),
        // The requests for votes, the votes, the Order, which goes on, and the Acks of both.
        Rounds(5),
        Committed(3, 3),
        Settle,
        Written(0, 1, 2),
        Silence,
        Forget,
        Ask(From1To2),
        Rounds(4),
        Committed(3, 4),
        Settle,
        Written(0, 2, 4),
        Silence,
        AllHave(4),
    ];
    assert_eq!(rt; first_wrong(rt.alloc(), true, &steps)?, None);
    Ok(())
}

/// In a network that loses and repeats datagrams each request is executed once, in its turn.
#[test]
fn losses_and_repetitions_change_no_answer(rt: HostRuntime) -> Result<(), Fail> {
    let steps = [
        Spoil,
        Ticks(0, 3),
        Repeat(Put1),
        Written(0, 1, 2),
        Echoes,
        Repeat(From1To2),
        Written(0, 2, 3),
        Echoes,
        Repeat(From2To3),
        Written(0, 3, 4),
        Echoes,
        Repeat(Get(4)),
        Found(0, 4, 5, b'3'),
        Echoes,
        Ticks(0, 5),
        Echoes,
        AllHave(5),
    ];
    assert_eq!(rt; first_wrong(rt.alloc(), true, &steps)?, None);
    assert_eq!(rt; first_wrong(rt.alloc(), false, &steps)?, None);
    Ok(())
}
