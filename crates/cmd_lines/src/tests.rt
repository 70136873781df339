use crate::{LINE_LIMIT, LineFault, LineReader};
use r2_base::{Bytes, Numbers};
use r2_link::MemSource;
use std::test::Fail;

// What a source has, and its lines.
const LINES: [(&[u8], &[&[u8]]); 6] = [
    (b"", &[]),
    (b"\n", &[b""]),
    (b"tick\nquiet\n", &[b"tick", b"quiet"]),
    (b"tick\n\nquiet", &[b"tick", b"", b"quiet"]),
    (b"tick\r\n", &[b"tick\r"]),
    (b"\n\r", &[b"", b"\r"]),
];

#[test]
fn lines_come_in_order(rt: HostRuntime) -> Result<(), Fail> {
    let alloc = rt.alloc();
    for (text, lines) in LINES {
        let mut source = MemSource::new(Bytes::from_vec(text.to_vec(alloc)?), Numbers::new(alloc));
        let mut reader = LineReader::new(alloc, LINE_LIMIT);
        for line in lines {
            let want = Bytes::from_vec(line.to_vec(alloc)?);
            assert_eq!(rt; reader.next_line(alloc, &mut source)?, Some(want));
        }
        assert_eq!(rt; reader.next_line(alloc, &mut source)?, None);
        assert_eq!(rt; reader.lines(), lines.len() as u64);
    }
    Ok(())
}

// How long a line may be, how long it is, and how long a line is given or why none is, with its end and without.
const LONG_LINES: [(usize, usize, Result<Option<usize>, LineFault>); 4] = [
    (LINE_LIMIT, 8_192, Ok(Some(8_192))),
    (LINE_LIMIT, 8_193, Err(LineFault::TooLong)),
    (3, 3, Ok(Some(3))),
    (3, 4, Err(LineFault::TooLong)),
];

#[test]
fn line_has_as_many_bytes_as_it_may(rt: HostRuntime) -> Result<(), Fail> {
    let alloc = rt.alloc();
    for (longest, len, want) in LONG_LINES {
        for end in ["", "\n", "\nquiet"] {
            let mut text = vec![in alloc; b'0'; len]?;
            text.extend_from_slice(end.as_bytes())?;
            let mut source = MemSource::new(Bytes::from_vec(text), Numbers::new(alloc));
            let mut reader = LineReader::new(alloc, longest);
            let got = reader.next_line(alloc, &mut source);
            assert_eq!(rt; got.map(|line| line.map(|line| line.len())), want);
        }
    }
    Ok(())
}

#[test]
fn reading_goes_on_after_a_fault(rt: HostRuntime) -> Result<(), Fail> {
    let alloc = rt.alloc();
    let fails = Numbers::from_vec([1].to_vec(alloc)?);
    let mut source = MemSource::new(Bytes::from_vec(b"tick\n".to_vec(alloc)?), fails);
    let mut reader = LineReader::new(alloc, LINE_LIMIT);
    assert_eq!(rt;
        reader.next_line(alloc, &mut source),
        Err(LineFault::Source)
    );
    let want = Bytes::from_vec(b"tick".to_vec(alloc)?);
    assert_eq!(rt; reader.next_line(alloc, &mut source)?, Some(want));
    Ok(())
}
