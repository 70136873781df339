ghost use Rattle.std.specs.Prelude.{◌≡◌, ◌≤◌, IfOk, IfErr, IfSome, OnOk};
ghost use Rattle.std.specs.Io.KnownBytes.{Appends};
ghost use Rattle.std.specs.List.{flat_map};
ghost use Rattle.r2_link.specs.Streams.{AppendsPrefix};
ghost use Rattle.hc_log.specs.Ranges.{IsInRange};
ghost use Rattle.cmd_replay.specs.Printed.{stored_text, turn_text};
ghost use Rattle.cmd_script.specs.Printed.{out_text};
ghost use Rattle.cmd_status.specs.Stops.{StopsBySink};

use cmd_script::{out_text, rec_text};
use cmd_status::Status;
use hc_journal::record_bytes;
use hc_log::Record;
use r2_base::Datagram;
use r2_link::{Sink, write_all};
use std::alloc::Global;

/// Writes the lines of a turn, one after the other, so that what is taken of memory is at most a line.
pub(crate) fn print_turn<K: Sink>(
    alloc: Global,
    sink: &mut K,
    stored: &Option<Record>,
    sends: &[Datagram],
) -> Result<(), Status>
    requires { IfSome stored.now IsInRange }
    ensures whole { OnOk result (Appends (K.written sink.old) (K.written sink.new) (turn_text stored.now sends.now)) }
    ensures prefix { AppendsPrefix (K.written sink.old) (K.written sink.new) (turn_text stored.now sends.now) }
    ensures stops { IfErr result (λ status. StopsBySink (K.faults sink.old) (K.faults sink.new) status) }
    ensures steady { K.faults sink.old ≤ K.faults sink.new }
{
    if let Err(status) = print_stored(alloc, sink, stored) {
        return Err(status);
    }
    print_sends(alloc, sink, sends)
}

fn print_stored<K: Sink>(alloc: Global, sink: &mut K, stored: &Option<Record>) -> Result<(), Status>
    requires { IfSome stored.now IsInRange }
    ensures whole { OnOk result (Appends (K.written sink.old) (K.written sink.new) (stored_text stored.now)) }
    ensures prefix { AppendsPrefix (K.written sink.old) (K.written sink.new) (stored_text stored.now) }
    ensures stops { IfErr result (λ status. StopsBySink (K.faults sink.old) (K.faults sink.new) status) }
    ensures steady { K.faults sink.old ≤ K.faults sink.new }
{
    let Some(record) = stored else {
        return Ok(());
    };
    let Ok(bytes) = record_bytes(alloc, record) else {
        return Err(Status::Memory);
    };
    let Ok(line) = rec_text(alloc, bytes.as_slice()) else {
        return Err(Status::Memory);
    };
    print_line(sink, line.as_slice())
}

fn print_sends<K: Sink>(alloc: Global, sink: &mut K, sends: &[Datagram]) -> Result<(), Status>
    ensures whole { OnOk result (Appends (K.written sink.old) (K.written sink.new) (flat_map out_text sends.now)) }
    ensures prefix { AppendsPrefix (K.written sink.old) (K.written sink.new) (flat_map out_text sends.now) }
    ensures stops { IfErr result (λ status. StopsBySink (K.faults sink.old) (K.faults sink.new) status) }
    ensures steady { K.faults sink.old ≤ K.faults sink.new }
{
    'sends: for datagram in sends {
        if let Err(status) = print_send(alloc, sink, datagram) {
            return Err(status);
        }
    }
    Ok(())
}

fn print_send<K: Sink>(alloc: Global, sink: &mut K, datagram: &Datagram) -> Result<(), Status>
    ensures whole { OnOk result (Appends (K.written sink.old) (K.written sink.new) (out_text datagram.now)) }
    ensures prefix { AppendsPrefix (K.written sink.old) (K.written sink.new) (out_text datagram.now) }
    ensures stops { IfErr result (λ status. StopsBySink (K.faults sink.old) (K.faults sink.new) status) }
    ensures steady { K.faults sink.old ≤ K.faults sink.new }
{
    let Ok(line) = out_text(alloc, datagram) else {
        return Err(Status::Memory);
    };
    print_line(sink, line.as_slice())
}

fn print_line<K: Sink>(sink: &mut K, line: &[u8]) -> Result<(), Status>
    ensures whole { OnOk result (Appends (K.written sink.old) (K.written sink.new) line.now) }
    ensures prefix { AppendsPrefix (K.written sink.old) (K.written sink.new) line.now }
    ensures stops { IfErr result (λ status. StopsBySink (K.faults sink.old) (K.faults sink.new) status) }
    ensures steady { K.faults sink.old ≤ K.faults sink.new }
{
    match write_all(sink, line) {
        Ok(()) => Ok(()),
        Err(_) => Err(Status::SinkFault),
    }
}

#[cfg(test)]
mod tests {
    use super::*;
    use r2_base::{Addr, Listed, NoMemory, Room};
    use r2_link::MemSink;
    use std::test::Fail;

    fn a_sink(alloc: Global) -> Result<MemSink, NoMemory> {
        let room = Room {
            bytes: 200,
            calls: 20,
        };
        MemSink::new(alloc, room, Listed::from_vec(Vec::new(alloc)))
    }

    #[test]
    fn prints_a_record_before_a_datagram(rt: HostRuntime) -> Result<(), Fail> {
        let alloc = rt.alloc();
        let mut sink = a_sink(alloc)?;
        let stored = Some(Record {
            term: 2,
            vote: None,
            keep: 3,
            entries: Listed::from_vec(Vec::new(alloc)),
        });
        let mut sends = Vec::new(alloc);
        let to = Addr {
            ip: 0x0a00_0001,
            port: 4000,
        };
        sends.push(Datagram {
            from: Addr { ip: 1, port: 1 },
            to,
            bytes: Listed::from_vec(Vec::from_slice(alloc, b"\x0a\xff")?),
        })?;
        assert!(rt; print_turn(alloc, &mut sink, &stored, sends.as_slice()).is_ok());
        let want: &[u8] = b"rec 010000000000000002FF000000000000000300\nout 10.0.0.1:4000 0AFF\n";
        assert!(rt; sink.written() == want);
        Ok(())
    }
}
