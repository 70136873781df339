ghost use Rattle.std.specs.Prelude.{◌≡◌, ◌<◌, ◌≤◌, ◌==◌, ◌&&◌, [], Some, None, Ok, IfOk, OnErr, is_some, length, slice_set};
ghost use Rattle.std.specs.List.{position};
ghost use Rattle.r2_header.specs.Header.{IsValid};
ghost use Rattle.r2_frag.specs.Assembly.{added, begin, is_begun, is_of, length_fits, message_under, most_unfinished, piece_at, refusal, refused, whole_body, without};
ghost use Rattle.r2_frag.specs.Keys.{class_of};
ghost use Rattle.r2_frag.specs.Parts.{most_parts};
ghost use Rattle.r2_frag.specs.Pending.{ArePending};
ghost use Rattle.r2_frag.specs.Sizes.{IsBodyWithin};
ghost use Rattle.r2_frag.specs.declared.added.Added.{Added};

use crate::key::same_key;
use crate::limits::{MOST_UNFINISHED, PIECE_SIZE};
use crate::part_count::{PartCount, count_said, number_of};
use crate::pieces::Pieces;
use crate::unfinished::Unfinished;
use crate::{Added, Key, Why};
use r2_base::{Bytes, NoMemory};
use r2_header::Header;
use std::alloc::Global;
use std::marker::Model;

/// The messages some of whose parts came, the one begun first at the head (R2P2, on requests and replies of several packets).
#[derive(Drop)]
pub struct Assembly {
    alloc: Global,
    messages: Vec<Unfinished>,
}

impl Model for Assembly {
    ghost use Rattle.std.specs.Prelude.{List};
    ghost use Rattle.r2_frag.specs.Pending.{ArePending};
    ghost use Rattle.r2_frag.specs.declared.unfinished.Unfinished.{Unfinished};

    ghost Value = { List Unfinished };

    ghost view = { λ a. a.messages.items };

    ghost invariant = { λ a. ArePending a.messages.items };
}

impl Assembly {
    /// No unfinished messages, with no memory taken.
    pub fn new(alloc: Global) -> Assembly
        ensures { result ≡ [] }
    {
        Assembly {
            alloc,
            messages: Vec::new(alloc),
        }
    }

    /// How many messages are unfinished, `MOST_UNFINISHED` at most.
    pub fn unfinished(&self) -> usize
        ensures count { result ≡ length self.now }
        ensures most { result ≤ most_unfinished }
        ensures pending { ArePending self.now }
    {
        let _messages = &self.messages;
        self.messages.len()
    }

    /// Adds a part of a message: the payload after this header, in a datagram with this key. The header is of the key's
    /// class, as `key_of` finds it.
    ///
    /// Where a message begins and `MOST_UNFINISHED` are unfinished, the one begun first is given up. `Bad` and `Repeat`
    /// change nothing and take no memory, and where memory runs out nothing changes either.
    pub fn add(&mut self, key: Key, header: &Header, payload: &[u8]) -> Result<Added, NoMemory>
        requires valid { IsValid header.now }
        requires class { class_of header.now.packet ≡ Some key.class }
        ensures ok { IfOk result (λ answer. (answer, self.new) ≡ added self.old key header.now payload.now) }
        ensures err { OnErr result (self.new ≡ self.old) }

        // A body is no longer than the parts that a header of its class can count.
        ensures body { IfOk result (λ answer. IsBodyWithin key.class answer) }
        ensures pending { ArePending self.new }

        // A part that isn't taken, or that is kept already, takes no memory.
        ensures free { (answer : Added) → refused self.old key header.now payload.now ≡ Some answer → result ≡ Ok answer }
    {
        let place = place_of(self.messages.as_slice(), &key);
        let number = number_of(header);
        let (count, is_kept) = known_of(self.messages.as_slice(), key, place, number);
        if let Some(answer) = refusal(count, is_kept, header, payload) {
            return Ok(answer);
        }
        match place {
            Some(place) => add_to(self.alloc, &mut self.messages, key, place, header, payload),
            None => add_new(self.alloc, &mut self.messages, key, header, payload),
        }
    }

    /// Takes the unfinished message with this key out, and answers whether there was one.
    pub fn forget(&mut self, key: &Key) -> bool
        ensures found { result ≡ is_begun key.now self.old }
        ensures left { self.new ≡ without key.now self.old }
        ensures pending { ArePending self.new }
    {
        match place_of(self.messages.as_slice(), key) {
            None => false,
            Some(place) => {
                let _message = self.messages.remove(place);
                true
            }
        }
    }
}

/// The place of the message with this key.
fn place_of(messages: &[Unfinished], key: &Key) -> Option<usize>
    ensures { result ≡ position (is_of key.now) messages.now }
{
    messages
        .iter()
        .position(|message| same_key(&message.key, key))
}

/// What the kept parts of the message at this place say of its count, and whether this one is kept.
fn known_of(
    messages: &[Unfinished],
    key: Key,
    place: Option<usize>,
    number: u16,
) -> (PartCount, bool)
    requires place { position (is_of key) messages.now ≡ place }
    requires number { number < most_parts }
    ensures count { result.0 ≡ (message_under key messages.now).count }
    ensures kept { result.1 ≡ is_some (piece_at number (message_under key messages.now).pieces) }
{
    match place {
        None => (PartCount::AtLeast(1), false),
        Some(place) => {
            let message = &messages[place];
            (message.count, message.pieces.has(number))
        }
    }
}

/// Adds a part to the message at this place.
fn add_to(
    alloc: Global,
    messages: &mut Vec<Unfinished>,
    key: Key,
    place: usize,
    header: &Header,
    payload: &[u8],
) -> Result<Added, NoMemory>
    requires valid { IsValid header.now }
    requires place { position (is_of key) messages.old.items ≡ Some place }
    requires good { refused messages.old.items key header.now payload.now ≡ None }
    ensures ok { IfOk result (λ answer. (answer, messages.new.items) ≡ added messages.old.items key header.now payload.now) }
    ensures err { OnErr result (messages.new.items ≡ messages.old.items) }
{
    let message = &messages[place];
    let number = number_of(header);
    let count = message.count.and(count_said(header));
    if let Some(body) = whole_body(alloc, message, count, number, payload)? {
        let _finished = messages.remove(place);
        return Ok(Added::Whole(body));
    }
    let piece = Bytes::from_vec(Vec::from_slice(alloc, payload)?);
    let message = &mut messages[place];
    put_part(message, count, number, piece);
    Ok(Added::More)
}

/// Adds the first part that comes of a message.
fn add_new(
    alloc: Global,
    messages: &mut Vec<Unfinished>,
    key: Key,
    header: &Header,
    payload: &[u8],
) -> Result<Added, NoMemory>
    requires valid { IsValid header.now }
    requires absent { position (is_of key) messages.old.items ≡ None }
    requires good { refused messages.old.items key header.now payload.now ≡ None }
    ensures ok { IfOk result (λ answer. (answer, messages.new.items) ≡ added messages.old.items key header.now payload.now) }
    ensures err { OnErr result (messages.new.items ≡ messages.old.items) }
{
    let piece = Bytes::from_vec(Vec::from_slice(alloc, payload)?);
    if is_one_part(header) {
        return Ok(Added::Whole(piece));
    }
    let count = PartCount::AtLeast(1).and(count_said(header));
    let mut pieces = Pieces::new(alloc)?;
    pieces.put(number_of(header), piece);
    begin(messages, Unfinished { key, count, pieces })
}

/// Puts a message after the others. Where as many as may be are unfinished, the one begun first leaves.
fn begin(messages: &mut Vec<Unfinished>, next: Unfinished) -> Result<Added, NoMemory>
    ensures ok { IfOk result (λ answer. (answer, messages.new.items) ≡ begin next messages.old.items) }
    ensures err { OnErr result (messages.new.items ≡ messages.old.items) }
{
    let is_full = messages.len() >= MOST_UNFINISHED;
    messages.push(next)?;
    if is_full {
        let oldest = messages.remove(0);
        return Ok(Added::Dropped(oldest.key));
    }
    Ok(Added::More)
}

/// The first check that a part fails, by what its message's parts say of the count and whether it is kept.
#[tactic(auto, unfolding(crate::specs::Assembly::refusal))]
fn refusal(count: PartCount, is_kept: bool, header: &Header, payload: &[u8]) -> Option<Added>
    requires { IsValid header.now }
    ensures { result ≡ refusal count is_kept header.now payload.now }
{
    if !length_fits(header, payload) {
        let number = number_of(header);
        let len = payload.len();
        return Some(Added::Bad(Why::Length { number, len }));
    }
    let said = count_said(header);
    if count.contradicts(said) {
        let kept = count.least();
        let got = said.least();
        return Some(Added::Bad(Why::Count { kept, got }));
    }
    if is_kept {
        return Some(Added::Repeat);
    }
    None
}

/// Whether the payload is as long as it may be.
fn length_fits(header: &Header, payload: &[u8]) -> bool
    ensures { result ≡ length_fits header.now payload.now }
{
    if header.last {
        payload.len() <= PIECE_SIZE
    } else {
        payload.len() == PIECE_SIZE
    }
}

/// Whether the message has this part alone.
fn is_one_part(header: &Header) -> bool
    ensures { result ≡ (header.now.first && (header.now.number == 1)) }
{
    header.first && header.number == 1
}

/// The body of a message, where this piece makes it whole.
fn whole_body(
    alloc: Global,
    message: &Unfinished,
    count: PartCount,
    number: u16,
    piece: &[u8],
) -> Result<Option<Bytes>, NoMemory>
    requires { number < most_parts }
    ensures { IfOk result (λ body. body ≡ whole_body count (slice_set message.now.pieces number (Some piece.now))) }
{
    let PartCount::Exactly(exact) = count else {
        return Ok(None);
    };
    if !message.pieces.has_all_with(exact, number, piece) {
        return Ok(None);
    }
    let body = message.pieces.join_with(alloc, exact, number, piece)?;
    Ok(Some(body))
}

/// Keeps one part more.
fn put_part(message: &mut Unfinished, count: PartCount, number: u16, piece: Bytes)
    requires { number < most_parts }
    ensures { message.new ≡ record message.old { count = count; pieces = slice_set message.old.pieces number (Some piece) } }
{
    message.count = count;
    message.pieces.put(number, piece);
}
