ghost use Rattle.std.specs.Prelude.{◌≡◌, ◌≤◌, ⊤, [], IfOk, MatchResult};
ghost use Rattle.r2_link.specs.Faults.{Rose};
ghost use Rattle.r2_link.specs.Lanes.{IsFault, BringsAtMost, most_datagram};
ghost use Rattle.r2_link.specs.Links.{LinkPasses, received, tells_address};

use crate::{Got, Link, LinkFault, Twin};
use r2_base::{Addr, Bytes, Datagram, Failed};
use std::alloc::Global;
use std::io::{self, ErrorKind};
use std::net::{Ipv4Addr, Net, SocketAddr, SocketAddrV4, UdpSocket};
use std::time::Duration;

/// How many bytes of a datagram are handed over. The rest is lost.
const MOST_DATAGRAM: usize = 2_048;

/// How often a send is tried that a signal interrupts.
const MOST_TRIES: u32 = 16;

/// Linux's number of the error that a datagram is too long for any packet. These three have no `ErrorKind` of their own.
const TOO_LONG: i32 = 90;

/// That the system has no room for a datagram just now.
const NO_BUFFERS: i32 = 105;

/// That the host is down to which a datagram goes.
const HOST_DOWN: i32 = 112;

/// A UDP socket. It tells its address, and not what came or was sent.
///
/// A twin is the same socket, so twins share how long a receive waits: where one of them changes it, the others wait so long, too,
/// until they change it themselves. Twins that receive at the same time are given the same wait.
#[derive(Drop)]
pub struct UdpLink<'a, R: Net + Sync> {
    rt: &'a R,
    socket: Option<UdpSocket>,
    /// Where the socket is bound, where there is one.
    me: Option<Addr>,
    wait: SocketWait,
    faults: u64,
}

/// What a link last set at its socket, so that it is set again only where it changes. `None` where that isn't known.
#[derive(Clone, Copy)]
struct SocketWait {
    is_blocking: Option<bool>,
    /// How long a receive waits that blocks, in milliseconds.
    timeout_ms: Option<u64>,
}

const UNKNOWN_WAIT: SocketWait = SocketWait {
    is_blocking: None,
    timeout_ms: None,
};

impl<'a, R: Net + Sync> UdpLink<'a, R> {
    pub fn new(rt: &'a R) -> Self
        ensures { ⟦<UdpLink<'a, R> as Link>⟧.faults result ≡ 0 }
    {
        UdpLink {
            rt,
            socket: None,
            me: None,
            wait: UNKNOWN_WAIT,
            faults: 0,
        }
    }
}

impl<'a, R: Net + Sync> Link for UdpLink<'a, R> {
    ghost told = { λ l. tells_address l.me };

    ghost faults = { λ l. l.faults };

    fn bind(&mut self, me: Addr) -> Result<(), Failed> {
        match self.rt.bind_udp(socket_addr(me)) {
            Ok(socket) => {
                self.socket = Some(socket);
                self.me = Some(me);
                self.wait = UNKNOWN_WAIT;
                Ok(())
            }
            Err(_) => {
                self.faults = self.faults.saturating_add(1);
                Err(Failed)
            }
        }
    }

    /// Hands over at most 2,048 bytes of a datagram. With a wait of 0 it takes what is there already, and doesn't wait. Without an
    /// address it fails.
    fn receive(&mut self, alloc: Global, wait_ms: u64) -> Result<Got, LinkFault>
        ensures passed { MatchResult result (λ got. LinkPasses (tells_address self.old.me) (tells_address self.new.me) (received got) []) (λ _. LinkPasses (tells_address self.old.me) (tells_address self.new.me) [] []) }
        ensures dry { IfOk result (λ got. got ≡ Got.End → ⊤) }
        ensures steady { self.old.faults ≤ self.new.faults }
        ensures cause { MatchResult result (λ _. ⊤) (λ e. IsFault e → Rose self.old.faults self.new.faults) }
        ensures size { IfOk result (BringsAtMost most_datagram) }
    {
        let got = match (&self.socket, self.me) {
            (Some(socket), Some(me)) => match set_wait(socket, &mut self.wait, wait_ms) {
                Ok(()) => receive_from(alloc, socket, me),
                Err(Failed) => Err(LinkFault::Failed),
            },
            _ => Err(LinkFault::Failed),
        };
        if let Err(LinkFault::Failed) = got {
            self.faults = self.faults.saturating_add(1);
        }
        got
    }

    /// Without an address, or where the socket is broken, it fails. A datagram that the system refuses for where it goes or for this
    /// moment (no route there, no room just now) is lost, as it might be on its way, and the answer is `Ok`.
    fn send(&mut self, d: &Datagram) -> Result<(), Failed> {
        if let Some(socket) = &self.socket {
            if is_sent_or_lost(socket, d) {
                return Ok(());
            }
        }
        self.faults = self.faults.saturating_add(1);
        Err(Failed)
    }
}

impl<'a, R: Net + Sync> Twin for UdpLink<'a, R> {
    fn twin(&mut self, _alloc: Global) -> Result<Self, LinkFault> {
        let socket = match &self.socket {
            Some(socket) => match socket.try_clone() {
                Ok(same) => Some(same),
                Err(_) => {
                    self.faults = self.faults.saturating_add(1);
                    return Err(LinkFault::Failed);
                }
            },
            None => None,
        };
        self.wait = UNKNOWN_WAIT;
        Ok(UdpLink {
            rt: self.rt,
            socket,
            me: self.me,
            wait: UNKNOWN_WAIT,
            faults: 0,
        })
    }

    fn rejoin(&mut self, twin: Self) {
        self.wait = UNKNOWN_WAIT;
        self.faults = self.faults.saturating_add(twin.faults);
    }
}

fn socket_addr(a: Addr) -> SocketAddr {
    SocketAddr::V4(SocketAddrV4::new(Ipv4Addr::from_bits(a.ip), a.port))
}

/// Makes the receives of a socket wait so long.
fn set_wait(socket: &UdpSocket, wait: &mut SocketWait, wait_ms: u64) -> Result<(), Failed> {
    // The system takes a timeout of 0 for one without end.
    if wait_ms > 0 {
        set_timeout(socket, wait, wait_ms)?;
    }
    set_blocking(socket, wait, wait_ms > 0)
}

fn set_timeout(socket: &UdpSocket, wait: &mut SocketWait, wait_ms: u64) -> Result<(), Failed> {
    if wait.timeout_ms == Some(wait_ms) {
        return Ok(());
    }
    wait.timeout_ms = None;
    let timeout = Duration::from_millis(wait_ms);
    if socket.set_read_timeout(Some(timeout)).is_err() {
        return Err(Failed);
    }
    wait.timeout_ms = Some(wait_ms);
    Ok(())
}

fn set_blocking(
    socket: &UdpSocket,
    wait: &mut SocketWait,
    is_blocking: bool,
) -> Result<(), Failed> {
    if wait.is_blocking == Some(is_blocking) {
        return Ok(());
    }
    wait.is_blocking = None;
    if socket.set_nonblocking(!is_blocking).is_err() {
        return Err(Failed);
    }
    wait.is_blocking = Some(is_blocking);
    Ok(())
}

/// The next datagram within the wait that is set. A wait that ends, or that a signal interrupts, brings nothing.
fn receive_from(alloc: Global, socket: &UdpSocket, me: Addr) -> Result<Got, LinkFault>
    ensures { IfOk result (BringsAtMost most_datagram) }
{
    let Ok(mut bytes) = Vec::from_slice(alloc, &[0; MOST_DATAGRAM]) else {
        return Err(LinkFault::Memory);
    };
    match socket.recv_from(bytes.as_mut_slice()) {
        Ok((len, SocketAddr::V4(from))) => {
            bytes.truncate(len);
            Ok(Got::Datagram(Datagram {
                from: Addr {
                    ip: from.ip().to_bits(),
                    port: from.port(),
                },
                to: me,
                bytes: Bytes::from_vec(bytes),
            }))
        }
        Ok(_) => Ok(Got::Quiet),
        Err(e) => match e.kind() {
            ErrorKind::WouldBlock | ErrorKind::TimedOut | ErrorKind::Interrupted => Ok(Got::Quiet),
            _ => Err(LinkFault::Failed),
        },
    }
}

/// Whether the socket took the whole datagram, or the system refused this datagram alone.
fn is_sent_or_lost(socket: &UdpSocket, d: &Datagram) -> bool {
    let to = socket_addr(d.to);
    'tries: for _ in 0..MOST_TRIES {
        match socket.send_to(d.bytes.as_slice(), to) {
            Ok(count) => return count == d.bytes.len(),
            Err(e) => {
                if e.kind() != ErrorKind::Interrupted {
                    return is_lost(&e);
                }
            }
        }
    }
    true
}

/// Whether an error of a send is about one datagram, for where it goes or for this moment. All others say that the socket is broken.
fn is_lost(error: &io::Error) -> bool {
    match error.kind() {
        // An address or a port that can't be sent to, or from where the socket is bound: port 0, or a network that is no more.
        ErrorKind::InvalidInput | ErrorKind::AddrNotAvailable => true,
        // No permission for that address: a broadcast, or a rule of the system's filter.
        ErrorKind::PermissionDenied => true,
        // No route there, or nobody there who answers.
        ErrorKind::NetworkUnreachable | ErrorKind::HostUnreachable => true,
        ErrorKind::NetworkDown | ErrorKind::ConnectionRefused => true,
        // No room just now.
        ErrorKind::WouldBlock | ErrorKind::OutOfMemory => true,
        _ => match error.raw_os_error() {
            Some(TOO_LONG | NO_BUFFERS | HOST_DOWN) => true,
            _ => false,
        },
    }
}

#[cfg(test)]
mod tests {
    use super::*;
    use std::test::Fail;

    const LOOPBACK: u32 = 0x7f00_0001;

    // Binds to the first of these ports that is free.
    fn bound<L: Link>(link: &mut L, first: u16) -> Option<Addr> {
        for port in first..=first.saturating_add(50) {
            let me = Addr { ip: LOOPBACK, port };
            if link.bind(me).is_ok() {
                return Some(me);
            }
        }
        None
    }

    // What comes of a datagram of 3,000 bytes to a twin of the receiver, which has the same socket: its sender, its receiver, and how
    // many bytes.
    fn brought<L: Twin>(
        alloc: Global,
        client: &mut L,
        server: &mut L,
        to: Addr,
    ) -> Result<Option<(Addr, Addr, usize)>, LinkFault> {
        let Ok(bytes) = Vec::from_slice(alloc, &[7; 3_000]) else {
            return Err(LinkFault::Memory);
        };
        let bytes = Bytes::from_vec(bytes);
        let from = to;
        client.send(&Datagram { from, to, bytes })?;
        let mut twin = server.twin(alloc)?;
        let got = twin.receive(alloc, 2_000);
        server.rejoin(twin);
        match got? {
            Got::Datagram(d) => Ok(Some((d.from, d.to, d.bytes.len()))),
            _ => Ok(None),
        }
    }

    #[test]
    fn datagram_goes_over_the_loopback(rt: HostRuntime) {
        let mut client = UdpLink::new(&rt);
        let mut server = UdpLink::new(&rt);
        let from = bound(&mut client, 41_000);
        let to = bound(&mut server, 42_000);
        assert!(rt; from.is_some());
        assert!(rt; to.is_some());
        if let (Some(from), Some(to)) = (from, to) {
            assert_eq!(rt; server.receive(rt.alloc(), 1), Ok(Got::Quiet));
            assert_eq!(rt; server.receive(rt.alloc(), 0), Ok(Got::Quiet));
            let got = brought(rt.alloc(), &mut client, &mut server, to);
            assert_eq!(rt; got, Ok(Some((from, to, 2_048))));
            assert_eq!(rt; server.receive(rt.alloc(), 0), Ok(Got::Quiet));
        }
    }

    // A wait of 0 needs no other before it, and a socket that is bound anew is given its wait again.
    #[test]
    fn wait_ends_where_nothing_comes(rt: HostRuntime) {
        let mut link = UdpLink::new(&rt);
        for first in [44_000, 45_000] {
            assert!(rt; bound(&mut link, first).is_some());
            for wait_ms in [0, 1, 0] {
                assert_eq!(rt; link.receive(rt.alloc(), wait_ms), Ok(Got::Quiet));
            }
        }
    }

    // What the system refuses: a datagram to port 0, a broadcast, and one of too many bytes.
    const LOST: [(u32, u16, usize); 3] = [
        (LOOPBACK, 0, 1),
        (0xffff_ffff, 9, 1),
        (LOOPBACK, 9, 70_000),
    ];

    #[test]
    fn refused_datagram_is_lost_and_the_link_goes_on(rt: HostRuntime) -> Result<(), Fail> {
        let mut link = UdpLink::new(&rt);
        let from = Addr {
            ip: LOOPBACK,
            port: 0,
        };
        for (ip, port, len) in LOST {
            let mut bytes = Vec::new(rt.alloc());
            bytes.resize(len, 7)?;
            let bytes = Bytes::from_vec(bytes);
            let to = Addr { ip, port };
            let datagram = Datagram { from, to, bytes };
            // Without a socket it fails.
            link.socket = None;
            assert_eq!(rt; link.send(&datagram), Err(Failed));
            assert!(rt; bound(&mut link, 43_000).is_some());
            assert_eq!(rt; link.send(&datagram), Ok(()));
        }
        assert_eq!(rt; link.faults, 3);
        Ok(())
    }
}
