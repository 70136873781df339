//! Whether two steps are the same one, and whether a list is that of a pass's steps in a trail.

ghost use Rattle.std.specs.Prelude.{◌≡◌, true, false};
ghost use Rattle.r2_desk.specs.Trails.{steps_of};

use crate::Step;
use r2_base::{Addr, Datagram, Event};

/// Whether the list is that of the pass's steps in this trail.
pub(crate) fn is_own(trail: &[Step], pass: u8, own: &[Step]) -> bool
    ensures yes { result ≡ true → own.now ≡ steps_of pass trail.now }
    ensures no { result ≡ false → own.now ≡ steps_of pass trail.now → ⊥ }
{
    let [step, rest @ ..] = trail else {
        return own.is_empty();
    };
    if step.pass != pass {
        return is_own(rest, pass, own);
    }
    let [first, others @ ..] = own else {
        return false;
    };
    if !same(step, first) {
        return false;
    }
    is_own(rest, pass, others)
}

/// Whether they are the same step.
fn same(a: &Step, b: &Step) -> bool
    ensures yes { result ≡ true → a.now ≡ b.now }
    ensures no { result ≡ false → a.now ≡ b.now → ⊥ }
{
    if a.pass != b.pass {
        return false;
    }
    if a.number != b.number {
        return false;
    }
    if !same_event(&a.event, &b.event) {
        return false;
    }
    same_datagrams(a.sends.as_slice(), b.sends.as_slice())
}

fn same_event(a: &Event, b: &Event) -> bool
    ensures yes { result ≡ true → a.now ≡ b.now }
    ensures no { result ≡ false → a.now ≡ b.now → ⊥ }
{
    match (a, b) {
        (Event::Datagram(x), Event::Datagram(y)) => same_datagram(x, y),
        (Event::Tick, Event::Tick) => true,
        (Event::Quiet, Event::Quiet) => true,
        _ => false,
    }
}

fn same_datagrams(a: &[Datagram], b: &[Datagram]) -> bool
    ensures yes { result ≡ true → a.now ≡ b.now }
    ensures no { result ≡ false → a.now ≡ b.now → ⊥ }
{
    match (a, b) {
        ([], []) => true,
        ([x, xs @ ..], [y, ys @ ..]) => {
            if !same_datagram(x, y) {
                return false;
            }
            same_datagrams(xs, ys)
        }
        _ => false,
    }
}

fn same_datagram(a: &Datagram, b: &Datagram) -> bool
    ensures yes { result ≡ true → a.now ≡ b.now }
    ensures no { result ≡ false → a.now ≡ b.now → ⊥ }
{
    if !same_addr(&a.from, &b.from) {
        return false;
    }
    if !same_addr(&a.to, &b.to) {
        return false;
    }
    same_bytes(a.bytes.as_slice(), b.bytes.as_slice())
}

fn same_addr(a: &Addr, b: &Addr) -> bool
    ensures yes { result ≡ true → a.now ≡ b.now }
    ensures no { result ≡ false → a.now ≡ b.now → ⊥ }
{
    if a.ip != b.ip {
        return false;
    }
    a.port == b.port
}

fn same_bytes(a: &[u8], b: &[u8]) -> bool
    ensures yes { result ≡ true → a.now ≡ b.now }
    ensures no { result ≡ false → a.now ≡ b.now → ⊥ }
{
    a == b
}
