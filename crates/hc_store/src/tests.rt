ghost use Rattle.std.specs.Prelude.{◌<◌, ◌+◌, ◌^◌, ℕ, length};
ghost use Rattle.hc_store.specs.State.{IsCountedBelow, most_counted};

use crate::{Kv, Reply, Service, payload_of};
use r2_base::{Kind, Listed, NoMemory, push_u16};
use std::alloc::Global;
use std::test::Fail;

fn served<V: Service>(
    service: &mut V,
    alloc: Global,
    kind: Kind,
    body: &[u8],
) -> Result<Reply, NoMemory>
    requires { IsCountedBelow most_counted (V.state service.old) }
    ensures { (n : ℕ) → IsCountedBelow n (V.state service.old) → IsCountedBelow (n + 1) (V.state service.new) }
{
    match kind {
        Kind::Read => {
            let ticket = service.admit();
            service.read(alloc, ticket, body)
        }
        Kind::Blank | Kind::Write => service.apply(alloc, body),
    }
}

/// Whether each row in turn gets the status and the value that it names.
fn are_right<V: Service>(
    service: &mut V,
    alloc: Global,
    rows: &[(Kind, &[u8], u8, &[u8])],
) -> Result<bool, NoMemory>
    requires rows { length rows.now < 2 ^ 32 }
    requires fresh { IsCountedBelow 1 (V.state service.old) }
{
    'rows: for (kind, body, status, value) in rows {
        let reply = served(service, alloc, *kind, body)?;
        if reply.status != *status || reply.value.as_slice() != *value {
            return Ok(false);
        }
    }
    Ok(true)
}

/// A body with a key and a value of so many bytes.
fn body_of(alloc: Global, tag: u8, key: u16, value: u16) -> Result<Vec<u8>, NoMemory> {
    let mut body = Vec::new(alloc);
    body.push(tag)?;
    push_u16(&mut body, key)?;
    body.resize(3 + key as usize, b'k')?;
    body.resize(3 + key as usize + value as usize, b'.')?;
    Ok(body)
}

/// How many bytes a scan gives of a store with two pairs: the keys have one byte and two, and the values so many.
fn scanned(alloc: Global, first: u16, second: u16) -> Result<usize, NoMemory> {
    let mut service = Kv::new(alloc);
    let _first = service.apply(alloc, body_of(alloc, b'P', 1, first)?.as_slice())?;
    let _second = service.apply(alloc, body_of(alloc, b'P', 2, second)?.as_slice())?;
    let ticket = service.admit();
    let reply = service.read(alloc, ticket, b"S\x00\x00\xff\xff")?;
    Ok(reply.value.len())
}

#[test]
fn each_command_has_its_replies(rt: HostRuntime) -> Result<(), Fail> {
    let mut service = Kv::new(rt.alloc());
    let rows: [(Kind, &[u8], u8, &[u8]); 34] = [
        (Kind::Write, b"P\x00\x01a\x01", 0, b""),
        (Kind::Write, b"C\x00\x01a\x00\x01\x01\x02", 0, b""),
        (Kind::Write, b"C\x00\x01a\x00\x01\x01\x02", 2, b"\x02"),
        (Kind::Write, b"D\x00\x01b", 1, b""),
        (Kind::Read, b"N", 0, b"\x00\x00\x00\x00\x00\x00\x00\x01"),
        (
            Kind::Read,
            b"S\x00\x00\x00\x0a",
            0,
            b"\x00\x01a\x00\x01\x02",
        ),
        (Kind::Read, b"G\x00\x01ab", 3, b""),
        (Kind::Read, b"P\x00\x01a\x01", 4, b""),
        (Kind::Read, b"G\x00\x01a", 0, b"\x02"),
        (Kind::Write, b"G\x00\x01a", 0, b"\x02"),
        (Kind::Read, b"D\x00\x01a", 4, b""),
        (Kind::Read, b"D\x00\x01b", 4, b""),
        (Kind::Read, b"C\x00\x01b\x00\x00", 4, b""),
        (Kind::Read, b"C\x00\x01b\x00\x01", 3, b""),
        (Kind::Read, b"P\x00\x02a", 3, b""),
        (Kind::Write, b"C\x00\x01b\x00\x00", 1, b""),
        (Kind::Write, b"P\x00\x01b", 0, b""),
        (Kind::Read, b"G\x00\x01b", 0, b""),
        (Kind::Read, b"G\x00\x01c", 1, b""),
        (Kind::Write, b"P\x00\x00!", 0, b""),
        (Kind::Write, b"P\x00\x02ab?", 0, b""),
        (
            Kind::Read,
            b"S\x00\x02aa\x00\x09",
            0,
            b"\x00\x02ab\x00\x01?\x00\x01b\x00\x00",
        ),
        (
            Kind::Read,
            b"S\x00\x01a\x00\x02",
            0,
            b"\x00\x01a\x00\x01\x02\x00\x02ab\x00\x01?",
        ),
        (Kind::Read, b"S\x00\x00\x00\x01", 0, b"\x00\x00\x00\x01!"),
        (Kind::Write, b"S\x00\x00\x00\x00", 0, b""),
        (Kind::Read, b"S\x00\x01c\xff\xff", 0, b""),
        (Kind::Read, b"S\x00\x00\x00\x01\x00", 3, b""),
        (Kind::Read, b"S\x00\x00\x00", 3, b""),
        (Kind::Read, b"N\x00", 3, b""),
        (Kind::Write, b"", 3, b""),
        (Kind::Write, b"g\x00\x01a", 3, b""),
        (Kind::Write, b"D\x00\x01a", 0, b""),
        (Kind::Write, b"D\x00\x01a", 1, b""),
        (Kind::Write, b"N", 0, b"\x00\x00\x00\x00\x00\x00\x00\x03"),
    ];
    assert!(rt; are_right(&mut service, rt.alloc(), &rows)?);
    assert_eq!(rt; service.pairs(), 3);
    Ok(())
}

#[test]
fn the_longest_value_and_what_fits_a_reply_beside_it(rt: HostRuntime) -> Result<(), Fail> {
    assert_eq!(rt; body_of(rt.alloc(), b'P', 1, 61_436)?.len(), 61_440);
    assert_eq!(rt; scanned(rt.alloc(), 61_435, 4_080)?, 65_526);
    assert_eq!(rt; scanned(rt.alloc(), 61_436, 4_080)?, 65_527);
    assert_eq!(rt; scanned(rt.alloc(), 61_436, 4_081)?, 61_441);
    Ok(())
}

#[test]
fn the_longest_key_is_found(rt: HostRuntime) -> Result<(), Fail> {
    let mut service = Kv::new(rt.alloc());
    let put = body_of(rt.alloc(), b'P', 61_437, 0)?;
    assert_eq!(rt; put.len(), 61_440);
    let done = service.apply(rt.alloc(), put.as_slice())?;
    let ticket = service.admit();
    let found = service.read(
        rt.alloc(),
        ticket,
        body_of(rt.alloc(), b'G', 61_437, 0)?.as_slice(),
    )?;
    let ticket = service.admit();
    let absent = service.read(
        rt.alloc(),
        ticket,
        body_of(rt.alloc(), b'G', 61_436, 0)?.as_slice(),
    )?;
    assert_eq!(rt; (done.status, found.status, absent.status), (0, 0, 1));
    Ok(())
}

#[test]
fn a_payload_is_index_status_and_value(rt: HostRuntime) -> Result<(), Fail> {
    let reply = Reply {
        status: 2,
        value: Listed::from_vec(Vec::from_slice(rt.alloc(), b"v")?),
    };
    let payload = payload_of(rt.alloc(), 258, &reply)?;
    let bytes: &[u8] = b"\x00\x00\x00\x00\x00\x00\x01\x02\x02v";
    assert_eq!(rt; payload.as_slice(), bytes);
    Ok(())
}
