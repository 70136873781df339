ghost use Rattle.std.specs.Prelude.{◌≡◌, ◌++◌, ◌<◌, ◌^◌, length, IfOk, OnOk};
ghost use Rattle.hc_store.specs.Command.{Get, Put, Del, Cas, Scan, Count};
ghost use Rattle.hc_store.specs.Spelling.{sized, spelling};

use r2_base::{Bytes, NoMemory, push_u16};
use std::alloc::Global;

/// Appends the field, with its length in two bytes before it.
fn push_sized(out: &mut Vec<u8>, field: &[u8]) -> Result<(), NoMemory>
    requires { length field.now < 2 ^ 16 }
    ensures { OnOk result (out.new.items ≡ out.old.items ++ sized field.now) }
{
    push_u16(out, field.len() as u16)?;
    out.extend_from_slice(field)?;
    Ok(())
}

/// The body that gets the value of a key.
#[tactic(auto, unfolding(hc_store::specs::Spelling::spelling))]
pub(crate) fn get_body(alloc: Global, key: &[u8]) -> Result<Bytes, NoMemory>
    requires { length key.now < 2 ^ 16 }
    ensures { IfOk result (λ body. body ≡ spelling (Get key.now)) }
{
    let mut body = Vec::from_slice(alloc, b"G")?;
    push_sized(&mut body, key)?;
    Ok(Bytes::from_vec(body))
}

/// The body that sets the value of a key.
#[tactic(auto, unfolding(hc_store::specs::Spelling::spelling))]
pub(crate) fn put_body(alloc: Global, key: &[u8], value: &[u8]) -> Result<Bytes, NoMemory>
    requires { length key.now < 2 ^ 16 }
    ensures { IfOk result (λ body. body ≡ spelling (Put key.now value.now)) }
{
    let mut body = Vec::from_slice(alloc, b"P")?;
    push_sized(&mut body, key)?;
    body.extend_from_slice(value)?;
    Ok(Bytes::from_vec(body))
}

/// The body that takes a key out.
#[tactic(auto, unfolding(hc_store::specs::Spelling::spelling))]
pub(crate) fn del_body(alloc: Global, key: &[u8]) -> Result<Bytes, NoMemory>
    requires { length key.now < 2 ^ 16 }
    ensures { IfOk result (λ body. body ≡ spelling (Del key.now)) }
{
    let mut body = Vec::from_slice(alloc, b"D")?;
    push_sized(&mut body, key)?;
    Ok(Bytes::from_vec(body))
}

/// The body that sets a new value in the place of the old one.
#[tactic(auto, unfolding(hc_store::specs::Spelling::spelling))]
pub(crate) fn cas_body(alloc: Global, key: &[u8], old: &[u8], new: &[u8]) -> Result<Bytes, NoMemory>
    requires key_fits { length key.now < 2 ^ 16 }
    requires old_fits { length old.now < 2 ^ 16 }
    ensures { IfOk result (λ body. body ≡ spelling (Cas key.now old.now new.now)) }
{
    let mut body = Vec::from_slice(alloc, b"C")?;
    push_sized(&mut body, key)?;
    push_sized(&mut body, old)?;
    body.extend_from_slice(new)?;
    Ok(Bytes::from_vec(body))
}

/// The body that reads pairs from a key on.
#[tactic(auto, unfolding(hc_store::specs::Spelling::spelling))]
pub(crate) fn scan_body(alloc: Global, key: &[u8], limit: u16) -> Result<Bytes, NoMemory>
    requires { length key.now < 2 ^ 16 }
    ensures { IfOk result (λ body. body ≡ spelling (Scan key.now limit)) }
{
    let mut body = Vec::from_slice(alloc, b"S")?;
    push_sized(&mut body, key)?;
    push_u16(&mut body, limit)?;
    Ok(Bytes::from_vec(body))
}

/// The body that counts the pairs.
#[tactic(auto, unfolding(hc_store::specs::Spelling::spelling))]
pub(crate) fn count_body(alloc: Global) -> Result<Bytes, NoMemory>
    ensures { IfOk result (λ body. body ≡ spelling Count) }
{
    Ok(Bytes::from_vec(Vec::from_slice(alloc, b"N")?))
}
