ghost use Rattle.std.specs.Prelude.{OnOk};
ghost use Rattle.hc_order.specs.Apart.{ShareNoRequest};

use super::*;
use hc_log::Log;
use hc_message::{Msg, read};
use hc_pool::{Pool, PutFault};
use hc_replier::Queues;
use r2_base::{Addr, Bytes, Kind, Rid};
use std::alloc::Global;
use std::test::Fail;

/// An Order of term 1 by member 0 from the beginning of the log on: a blank entry, a write with the number 2 for member 0, and a
/// write with the number 3 for member 1.
const ORDER: [u8; 98] = [
    3, 0, 0, 0, 0, 0, 0, 0, 1, 0, 0, 0, 0, 0, 0, 0, 0, 0, 0, 0, 0, 0, 0, 0, 0, 0, 0, 0, 0, 0, 0, 0,
    0, 1, 0, 0, 0, 0, 0, 0, 0, 0, 0, 3, // numbers, and how many entries
    0, 0, 0, 0, 0, 0, 0, 1, 0, 0, 0, 0, 0, 0, 0, 0, 0, 255, // blank
    0, 0, 0, 0, 0, 0, 0, 1, 1, 10, 0, 0, 9, 0x1B, 0x59, 0, 2, 0, // number 2
    0, 0, 0, 0, 0, 0, 0, 1, 1, 10, 0, 0, 9, 0x1B, 0x59, 0, 3, 1, // number 3
];

fn rid(id: u16) -> Rid {
    let client = Addr {
        ip: 0x0A00_0009,
        port: 7_001,
    };
    Rid { id, client }
}

/// Puts a request with this number into the pool, unless the log or the pool has it.
fn add(alloc: Global, log: &Log, pool: &mut Pool, id: u16) -> Result<(), PutFault>
    requires { ShareNoRequest log.now pool.old }
    ensures { OnOk result (ShareNoRequest log.now pool.new) }
{
    let new = rid(id);
    if log.place_of(&new).is_some() {
        return Ok(());
    }
    if pool.get(&new).is_some() {
        return Ok(());
    }
    let body = Bytes::from_vec(b"N".to_vec(alloc).map_err(|_| PutFault::Memory)?);
    pool.put(new, Kind::Write, body)?;
    Ok(())
}

fn take_order(alloc: Global, log: &mut Log, pool: &mut Pool) -> Result<Taken, Fail>
    requires { ShareNoRequest log.old pool.old }
    ensures { OnOk result (ShareNoRequest log.new pool.new) }
{
    let order = read(alloc, &ORDER)?;
    let Msg::Order {
        prev_index,
        prev_term,
        ..
    } = &order
    else {
        return Err(Fail::from("no Order"));
    };
    if *prev_index != 0 {
        return Err(Fail::from("another previous index"));
    }
    if *prev_term != 0 {
        return Err(Fail::from("another previous term"));
    }
    let taken = take(alloc, log, pool, &order, 0, 0)?;
    Ok(taken)
}

#[test]
fn a_missing_body_ends_a_taking(rt: HostRuntime) -> Result<(), Fail> {
    let alloc = rt.alloc();
    let mut log = Log::new(alloc);
    let mut pool = Pool::new(alloc);
    add(alloc, &log, &mut pool, 3)?;
    let taken = take_order(alloc, &mut log, &mut pool)?;
    assert_eq!(rt; (taken.keep, taken.entries.len(), taken.upto), (0, 1, 1));
    assert_eq!(rt; taken.missing.as_slice(), [rid(2)].as_slice());
    add(alloc, &log, &mut pool, 2)?;
    let taken = take_order(alloc, &mut log, &mut pool)?;
    assert_eq!(rt; (taken.keep, taken.entries.len(), taken.upto), (1, 2, 3));
    assert_eq!(rt; (taken.missing.len(), pool.len(), log.last()), (0, 0, 3));
    Ok(())
}

#[test]
fn members_at_their_bound_leave_a_request_waiting(rt: HostRuntime) -> Result<(), Fail> {
    let alloc = rt.alloc();
    let mut log = Log::new(alloc);
    let mut pool = Pool::new(alloc);
    let mut queues = Queues::new(alloc, &[1, 1, 1])?;
    add(alloc, &log, &mut pool, 1)?;
    add(alloc, &log, &mut pool, 2)?;
    add(alloc, &log, &mut pool, 3)?;
    add(alloc, &log, &mut pool, 4)?;
    let metas = order_ready(alloc, &mut log, &mut pool, &mut queues, 1, 64)?;
    assert_eq!(rt; metas.len(), 3);
    assert_eq!(rt; (pool.oldest(), log.last()), (Some(rid(4)), 3));
    assert_eq!(rt; (log.entry(1).replier, log.entry(3).replier), (0, 2));
    Ok(())
}

#[test]
fn two_of_three_have_the_second_greatest_index(rt: HostRuntime) -> Result<(), Fail> {
    assert_eq!(rt; counted(&[3, 5, 4], 2), 4);
    assert_eq!(rt; counted(&[3, 5, 4], 3), 3);
    Ok(())
}
