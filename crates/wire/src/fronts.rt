//! Reading fields from the front of a body, and names.

ghost use Rattle.std.specs.Prelude.{◌≡◌, ◌==◌, ◌<◌, ◌≤◌, IfSome, length, true};
ghost use Rattle.std.specs.List.{position};
ghost use Rattle.wire.specs.Reading.{Gives, number_at, unread_at, text_at, counted_at, limited_at, ended, spelled_at, name_at};

use crate::fault::WireFault;
use byteorder::{ByteOrder, LittleEndian};
use terms::Names;

pub fn u32_front(body: &[u8]) -> Result<(u32, &[u8]), WireFault>
    ensures { Gives (λ x. (x.0, x.1.now)) result (number_at 4 body.now) }
{
    if body.len() < 4 {
        return Err(WireFault::Body);
    }
    Ok((LittleEndian::read_u32(body), &body[4..]))
}

pub fn u64_front(body: &[u8]) -> Result<(u64, &[u8]), WireFault>
    ensures { Gives (λ x. (x.0, x.1.now)) result (number_at 8 body.now) }
{
    if body.len() < 8 {
        return Err(WireFault::Body);
    }
    Ok((LittleEndian::read_u64(body), &body[8..]))
}

pub fn unread_front(body: &[u8], len: usize) -> Result<&[u8], WireFault>
    ensures { Gives (λ x. x.now) result (unread_at len body.now) }
{
    if body.len() < len {
        return Err(WireFault::Body);
    }
    Ok(&body[len..])
}

/// A four-byte number that is at most `limit`.
pub fn limited_front(body: &[u8], limit: u32) -> Result<(u32, &[u8]), WireFault>
    ensures { Gives (λ x. (x.0, x.1.now)) result (limited_at limit body.now) }
{
    let (number, rest) = u32_front(body)?;
    if number > limit {
        return Err(WireFault::Body);
    }
    Ok((number, rest))
}

/// Reads a four-byte number and skips `gap` bytes: what is left must be `unit` times as many bytes as the number says.
pub fn counted_front(body: &[u8], unit: usize, gap: usize, limit: u32) -> Result<&[u8], WireFault>
    requires unit { unit ≤ 16 }
    requires gap { gap ≤ 20 }
    ensures { Gives (λ x. x.now) result (counted_at unit gap limit body.now) }
{
    if body.len() < 4 + gap {
        return Err(WireFault::Body);
    }
    let count = LittleEndian::read_u32(body);
    let rest = &body[4 + gap..];
    if count > limit || rest.len() != unit * count as usize {
        return Err(WireFault::Body);
    }
    Ok(rest)
}

fn zero_in(body: &[u8]) -> Option<usize>
    ensures place { result ≡ position (λ b. b == 0) body.now }
    ensures within { IfSome result (λ end. end < length body.now) }
{
    body.iter().position(|b| *b == 0)
}

pub fn text_front(body: &[u8]) -> Result<(&[u8], &[u8]), WireFault>
    ensures { Gives (λ x. (x.0.now, x.1.now)) result (text_at body.now) }
{
    let Some(end) = zero_in(body) else {
        return Err(WireFault::Body);
    };
    Ok((&body[..end], &body[end + 1..]))
}

pub fn nothing_left(body: &[u8]) -> Result<(), WireFault>
    ensures { Gives (λ x. true) result (ended body.now) }
{
    if !body.is_empty() {
        return Err(WireFault::Body);
    }
    Ok(())
}

/// Tests that a name is UTF-8, if names are texts.
fn test_spelling(names: Names, name: &[u8]) -> Result<(), WireFault>
    ensures { Gives (λ _. name.now) result (spelled_at names name.now) }
{
    if !names.takes(name) {
        return Err(WireFault::NameBad);
    }
    Ok(())
}

/// Tests a name.
pub fn test_name(names: Names, name: &[u8]) -> Result<(), WireFault>
    ensures { Gives (λ _. name.now) result (name_at names name.now) }
{
    if name.is_empty() {
        return Err(WireFault::NameBad);
    }
    if name.len() > 255 {
        return Err(WireFault::NameLong);
    }
    test_spelling(names, name)?;
    if name == b".".as_slice() || name == b"..".as_slice() || name.contains(&b'/') {
        return Err(WireFault::NameBad);
    }
    Ok(())
}
