ghost use Rattle.std.specs.Prelude.{◌≡◌, option_and_then};
ghost use Rattle.hc_store.specs.Command.{sized_field, get_command, put_command, del_command, cas_command, scan_command, count_command, command_of};
ghost use Rattle.hc_store.specs.Asked.{fields, read_as};

use crate::asked::Asked;

/// The first byte of a body that gets a value, the letter G.
const GET_TAG: u8 = 0x47;

/// The first byte of a body that sets a value, the letter P.
const PUT_TAG: u8 = 0x50;

/// The first byte of a body that takes a key out, the letter D.
const DEL_TAG: u8 = 0x44;

/// The first byte of a body that sets a value in the place of another, the letter C.
const CAS_TAG: u8 = 0x43;

/// The first byte of a body that reads pairs in the order of their keys, the letter S.
const SCAN_TAG: u8 = 0x53;

/// The first byte of a body that counts the pairs, the letter N.
const COUNT_TAG: u8 = 0x4E;

/// A field with its length in two bytes before it, and the bytes after it.
fn sized_field(bytes: &[u8]) -> Option<(&[u8], &[u8])>
    ensures { fields result ≡ sized_field bytes.now }
{
    let [high, low, rest @ ..] = bytes else {
        return None;
    };
    let size = 256 * (*high as usize) + (*low as usize);
    if size <= rest.len() {
        Some(rest.split_at(size))
    } else {
        None
    }
}

fn get_command(rest: &[u8]) -> Option<Asked<'_>>
    ensures { read_as result ≡ option_and_then get_command (sized_field rest.now) }
{
    let (key, more) = sized_field(rest)?;
    if more.is_empty() {
        Some(Asked::Get { key })
    } else {
        None
    }
}

fn put_command(rest: &[u8]) -> Option<Asked<'_>>
    ensures { read_as result ≡ option_and_then put_command (sized_field rest.now) }
{
    let (key, value) = sized_field(rest)?;
    Some(Asked::Put { key, value })
}

fn del_command(rest: &[u8]) -> Option<Asked<'_>>
    ensures { read_as result ≡ option_and_then del_command (sized_field rest.now) }
{
    let (key, more) = sized_field(rest)?;
    if more.is_empty() {
        Some(Asked::Del { key })
    } else {
        None
    }
}

fn cas_command(rest: &[u8]) -> Option<Asked<'_>>
    ensures { read_as result ≡ option_and_then cas_command (sized_field rest.now) }
{
    let (key, more) = sized_field(rest)?;
    let (old, new) = sized_field(more)?;
    Some(Asked::Cas { key, old, new })
}

fn scan_command(rest: &[u8]) -> Option<Asked<'_>>
    ensures { read_as result ≡ option_and_then scan_command (sized_field rest.now) }
{
    let (key, more) = sized_field(rest)?;
    let [high, low] = more else {
        return None;
    };
    let limit = 256 * (*high as u16) + (*low as u16);
    Some(Asked::Scan { key, limit })
}

fn count_command(rest: &[u8]) -> Option<Asked<'_>>
    ensures { read_as result ≡ count_command rest.now }
{
    if rest.is_empty() {
        Some(Asked::Count)
    } else {
        None
    }
}

/// The command that a body encodes.
#[tactic(auto, unfolding(crate::specs::Command::command_of))]
pub(crate) fn read_command(body: &[u8]) -> Option<Asked<'_>>
    ensures { read_as result ≡ command_of body.now }
{
    let [tag, rest @ ..] = body else {
        return None;
    };
    match *tag {
        GET_TAG => get_command(rest),
        PUT_TAG => put_command(rest),
        DEL_TAG => del_command(rest),
        CAS_TAG => cas_command(rest),
        SCAN_TAG => scan_command(rest),
        COUNT_TAG => count_command(rest),
        _ => None,
    }
}
