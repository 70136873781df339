ghost use Rattle.std.specs.Prelude.{◌≡◌};
ghost use Rattle.r2_header.specs.Reading.{packet_numbered};
ghost use Rattle.r2_header.specs.Span.{from_to};
ghost use Rattle.r2_header.specs.Table.{first_counts, later_numbers, numbers, policies, policies_with_client, policies_without_client, type_number};

use crate::Packet;
use crate::policy::{FIXED, JBSQ, REPLICATED, REPLICATED_READ};
use crate::span::Span;

/// No number at all.
const NO_NUMBER: Span = Span { least: 1, most: 0 };

/// One alone.
const ONE: Span = Span { least: 1, most: 1 };

/// The number of a type of packet.
pub fn type_number(packet: Packet) -> u8
    ensures { result ≡ type_number packet }
{
    match packet {
        Packet::Req0 => 0,
        Packet::Reply => 1,
        Packet::ReqRdy => 2,
        Packet::ReqN => 3,
        Packet::Feedback => 4,
        Packet::Reject => 5,
        Packet::Ordering => 6,
        Packet::Recover => 7,
    }
}

/// The type of packet with a number up to 7.
pub fn packet_numbered(number: u8) -> Packet
    ensures { result ≡ packet_numbered number }
{
    match number {
        0 => Packet::Req0,
        1 => Packet::Reply,
        2 => Packet::ReqRdy,
        3 => Packet::ReqN,
        4 => Packet::Feedback,
        5 => Packet::Reject,
        6 => Packet::Ordering,
        _ => Packet::Recover,
    }
}

/// The policies of a type, with the client's address or without.
pub fn policies(packet: Packet, with_client: bool) -> Span
    ensures { result ≡ policies packet with_client }
{
    if with_client {
        policies_with_client(packet)
    } else {
        policies_without_client(packet)
    }
}

fn policies_with_client(packet: Packet) -> Span
    ensures { result ≡ policies_with_client packet }
{
    match packet {
        Packet::Req0 | Packet::Feedback => policies_from_to(JBSQ, REPLICATED_READ),
        Packet::ReqN => policies_from_to(REPLICATED, REPLICATED_READ),
        Packet::Recover => policies_from_to(REPLICATED, REPLICATED),
        Packet::Reply | Packet::ReqRdy | Packet::Reject | Packet::Ordering => NO_NUMBER,
    }
}

fn policies_without_client(packet: Packet) -> Span
    ensures { result ≡ policies_without_client packet }
{
    match packet {
        Packet::Req0 | Packet::Reply | Packet::ReqN => policies_from_to(FIXED, REPLICATED_READ),
        Packet::ReqRdy => policies_from_to(FIXED, JBSQ),
        Packet::Reject => policies_from_to(JBSQ, REPLICATED_READ),
        Packet::Ordering => policies_from_to(REPLICATED, REPLICATED),
        Packet::Feedback | Packet::Recover => NO_NUMBER,
    }
}

fn policies_from_to(least: u8, most: u8) -> Span
    ensures { result ≡ from_to least most }
{
    Span::from_to(u16::from(least), u16::from(most))
}

/// The counts of a type in a first part, or its numbers after the first.
pub fn numbers(packet: Packet, first: bool) -> Span
    ensures { result ≡ numbers packet first }
{
    if first {
        first_counts(packet)
    } else {
        later_numbers(packet)
    }
}

/// The counts of parts that a type has in a first part.
pub fn first_counts(packet: Packet) -> Span
    ensures { result ≡ first_counts packet }
{
    match packet {
        Packet::Req0 => Span::from_to(1, 60),
        Packet::Reply | Packet::Recover => Span::from_to(1, 64),
        Packet::ReqRdy | Packet::Feedback | Packet::Reject | Packet::Ordering => ONE,
        Packet::ReqN => NO_NUMBER,
    }
}

/// The numbers of parts that a type has after the first part.
fn later_numbers(packet: Packet) -> Span
    ensures { result ≡ later_numbers packet }
{
    match packet {
        Packet::Reply | Packet::Recover => Span::from_to(1, 63),
        Packet::ReqN => Span::from_to(1, 59),
        Packet::Req0 | Packet::ReqRdy | Packet::Feedback | Packet::Reject | Packet::Ordering => {
            NO_NUMBER
        }
    }
}
