//! The crate's calls on the happy path, with the numbers of the protocol's limits.

ghost use Rattle.std.specs.Prelude.{◌≡◌, IfOk, length};

use crate::{
    Added, Assembly, Class, Kept, Key, MOST_UNFINISHED, PartSpec, Why, key_of, parts, reply_parts,
};
use r2_base::{Addr, Bytes, Datagram, Datagrams, MOST_BODY, MOST_REPLY, Rid};
use r2_header::policy::JBSQ;
use r2_header::read;
use std::alloc::Global;
use std::test::Fail;

const CLIENT: Addr = Addr {
    ip: 0x0A00_0009,
    port: 7001,
};

const SERVER: Addr = Addr {
    ip: 0x0A00_0001,
    port: 9000,
};

/// The key of a request of the client under REPLICATED.
fn request(id: u16) -> Key {
    Key {
        class: Class::Request,
        policy: 2,
        from: CLIENT,
        rid: Rid { id, client: CLIENT },
    }
}

/// So many bytes, which differ from piece to piece.
fn body(alloc: Global, len: usize) -> Result<Vec<u8>, Fail>
    ensures { IfOk result (λ bytes. length bytes.items ≡ len) }
{
    let mut bytes = Vec::with_capacity(alloc, len)?;
    for i in 0..len {
        bytes.push((i % 251) as u8)?;
    }
    Ok(bytes)
}

/// The datagrams of a request of so many bytes, from the client to the server.
fn send(alloc: Global, id: u16, len: usize) -> Result<Datagrams, Fail> {
    let bytes = body(alloc, len.min(MOST_BODY))?;
    let spec = PartSpec {
        key: Key {
            class: Class::Request,
            policy: 2,
            from: CLIENT,
            rid: Rid { id, client: CLIENT },
        },
        from: CLIENT,
        to: SERVER,
        extended: false,
    };
    let datagrams = parts(alloc, &spec, bytes.as_slice())?;
    Ok(datagrams)
}

/// Adds the part that a datagram carries.
fn add(assembly: &mut Assembly, d: &Datagram) -> Result<Added, Fail> {
    let bytes = d.bytes.as_slice();
    let (header, size) = read(bytes).map_err(|_| "no header")?;
    let key = key_of(d, &header).ok_or("no key")?;
    let answer = assembly.add(key, &header, &bytes[size..])?;
    Ok(answer)
}

/// Adds a part with this header and so many bytes.
fn add_len(
    alloc: Global,
    assembly: &mut Assembly,
    header: [u8; 8],
    len: usize,
) -> Result<Added, Fail> {
    let mut bytes = header.to_vec(alloc)?;
    bytes.extend_from_slice(body(alloc, len)?.as_slice())?;
    let d = Datagram {
        from: CLIENT,
        to: SERVER,
        bytes: Bytes::from_vec(bytes),
    };
    add(assembly, &d)
}

#[test]
fn a_body_of_1024_bytes_is_one_part_and_of_1025_two(rt: HostRuntime) -> Result<(), Fail> {
    let table: [(usize, usize, [u8; 8], usize); 4] = [
        (0, 0, [0x52, 8, 0x02, 0xC0, 0, 5, 0, 1], 8),
        (1024, 0, [0x52, 8, 0x02, 0xC0, 0, 5, 0, 1], 1032),
        (1025, 0, [0x52, 8, 0x02, 0x80, 0, 5, 0, 2], 1032),
        (1025, 1, [0x52, 8, 0x32, 0x40, 0, 5, 0, 1], 9),
    ];
    for (len, place, header, size) in table {
        let datagrams = send(rt.alloc(), 5, len)?;
        assert_eq!(rt; datagrams.len(), len.div_ceil(1024).max(1));
        let d = datagrams.as_slice().get(place).ok_or("no such part")?;
        assert_eq!(rt; d.bytes.as_slice().get(..8), Some(header.as_slice()));
        assert_eq!(rt; d.bytes.len(), size);
        assert_eq!(rt; (d.from, d.to), (CLIENT, SERVER));
        let (read_back, _) = read(d.bytes.as_slice()).map_err(|_| "no header")?;
        assert_eq!(rt; key_of(d, &read_back), Some(request(5)));
    }
    Ok(())
}

#[test]
fn sixty_parts_from_the_last_are_whole_at_the_sixtieth(rt: HostRuntime) -> Result<(), Fail> {
    let datagrams = send(rt.alloc(), 7, 61_440)?;
    assert_eq!(rt; datagrams.len(), 60);
    let mut assembly = Assembly::new(rt.alloc());
    for (earlier, d) in datagrams.as_slice().iter().rev().enumerate() {
        let answer = add(&mut assembly, d)?;
        if earlier < 59 {
            assert_eq!(rt; answer, Added::More);
            assert_eq!(rt; assembly.unfinished(), 1);
        } else {
            let bytes = body(rt.alloc(), 61_440)?;
            assert_eq!(rt; answer, Added::Whole(Bytes::from_vec(bytes)));
        }
    }
    assert_eq!(rt; assembly.unfinished(), 0);
    Ok(())
}

#[test]
fn a_reply_at_the_limit_is_put_together_of_64_parts(rt: HostRuntime) -> Result<(), Fail> {
    let payload = body(rt.alloc(), MOST_REPLY)?;
    let rid = Rid {
        id: 9,
        client: CLIENT,
    };
    let datagrams = reply_parts(rt.alloc(), SERVER, &rid, JBSQ, payload.as_slice())?;
    assert_eq!(rt; datagrams.len(), 64);
    let mut assembly = Assembly::new(rt.alloc());
    let mut answer = Added::Repeat;
    for d in datagrams.as_slice() {
        assert_eq!(rt; (d.from, d.to), (SERVER, CLIENT));
        answer = add(&mut assembly, d)?;
    }
    assert_eq!(rt; answer, Added::Whole(Bytes::from_vec(payload)));
    Ok(())
}

#[test]
fn repeated_and_contradicting_parts_change_nothing(rt: HostRuntime) -> Result<(), Fail> {
    let first = [0x52, 8, 0x02, 0x80, 0, 5, 0, 3];
    let table: [([u8; 8], usize, Added); 4] = [
        (first, 1024, Added::More),
        (first, 1024, Added::Repeat),
        (
            [0x52, 8, 0x02, 0x80, 0, 5, 0, 2],
            1024,
            Added::Bad(Why::Count { kept: 3, got: 2 }),
        ),
        (
            [0x52, 8, 0x32, 0x40, 0, 5, 0, 2],
            1025,
            Added::Bad(Why::Length {
                number: 2,
                len: 1025,
            }),
        ),
    ];
    let mut assembly = Assembly::new(rt.alloc());
    for (header, len, answer) in table {
        assert_eq!(rt; add_len(rt.alloc(), &mut assembly, header, len)?, answer);
        assert_eq!(rt; assembly.unfinished(), 1);
    }
    assert_eq!(rt; assembly.forget(&request(5)), true);
    assert_eq!(rt; assembly.forget(&request(5)), false);
    assert_eq!(rt; assembly.unfinished(), 0);
    Ok(())
}

#[test]
fn the_first_of_257_messages_leaves_and_begins_anew(rt: HostRuntime) -> Result<(), Fail> {
    let mut assembly = Assembly::new(rt.alloc());
    for id in 0..257u16 {
        let [high, low] = id.to_be_bytes();
        let answer = add_len(
            rt.alloc(),
            &mut assembly,
            [0x52, 8, 0x02, 0x80, high, low, 0, 2],
            1024,
        )?;
        if id < 256 {
            assert_eq!(rt; answer, Added::More);
        } else {
            assert_eq!(rt; answer, Added::Dropped(request(0)));
        }
    }
    let second = [0x52, 8, 0x32, 0x40, 0, 0, 0, 1];
    let answer = add_len(rt.alloc(), &mut assembly, second, 1)?;
    assert_eq!(rt; answer, Added::Dropped(request(1)));
    assert_eq!(rt; assembly.unfinished(), MOST_UNFINISHED);
    Ok(())
}

#[test]
fn the_newest_of_the_last_1024_replies_is_found(rt: HostRuntime) -> Result<(), Fail> {
    let mut kept = Kept::new(rt.alloc())?;
    for n in 0..1025u16 {
        let rid = Rid {
            id: n / 2,
            client: CLIENT,
        };
        let payload = n.to_be_bytes().to_vec(rt.alloc())?;
        kept.keep(rid, 1, Bytes::from_vec(payload));
    }
    let table: [(u16, Option<u16>); 4] = [
        (0, Some(1)),
        (7, Some(15)),
        (512, Some(1024)),
        (513, None),
    ];
    for (id, newest) in table {
        let rid = Rid { id, client: CLIENT };
        let found = kept.find(&rid).map(|(_, payload)| payload.as_slice());
        match newest {
            None => assert_eq!(rt; found, None),
            Some(n) => assert_eq!(rt; found, Some(n.to_be_bytes().as_slice())),
        }
    }
    let other = Rid {
        id: 7,
        client: SERVER,
    };
    assert_eq!(rt; kept.find(&other).is_none(), true);
    Ok(())
}
