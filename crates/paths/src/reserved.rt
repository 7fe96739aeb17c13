//! The names that the server keeps for itself. An open file gets one of them when its own name is removed.

ghost use Rattle.std.specs.Prelude.{◌≡◌, ◌<◌, ◌≤◌, ◌+◌, ◌++◌, IfOk, length};
ghost use Rattle.arrayvec.specs.ArrayVec.{array_vec_len};
ghost use Rattle.paths.specs.Hidden.{AreApart, AreModulo, IsLawfulName, candidate, hex_digit, hex_digits, hidden_name, is_reserved};

use crate::Name;
use arrayvec::ArrayVec;
use std::alloc::{AllocError, Global};

/// How each of these names begins.
const RESERVED: &[u8] = b".fuse_hidden";

/// How many bytes each of them has.
const LENGTH: usize = 28;

/// The bytes of such a name.
type Hidden = ArrayVec<u8, LENGTH>;

/// How many digits the number and the counter have, each.
const DIGITS: usize = 8;

/// Whether the server keeps the name for itself.
pub fn is_reserved(name: &[u8]) -> bool
    ensures { result ≡ is_reserved name.now }
{
    name.starts_with(RESERVED)
}

/// The name under which a file of node `number` stays: `.fuse_hidden`, then eight lower-case hexadecimal digits each
/// for the number modulo 2^32 and for the counter. Out of memory is the only error.
pub fn hidden_name(alloc: Global, number: u64, counter: u32) -> Result<Name, AllocError>
    ensures name { IfOk result (λ n. n ≡ hidden_name number counter) }
    ensures lawful { IfOk result (λ n. IsLawfulName n) }
{
    let mut bytes = Hidden::new();
    append(&mut bytes, RESERVED);
    append(&mut bytes, &digits_of(number));
    append(&mut bytes, &digits_of(u64::from(counter)));
    let name = Name::copy_of(alloc, bytes.as_slice())?;
    Ok(name)
}

/// The counter of candidate number `i`, counted from a counter on, modulo 2^32.
pub fn candidate(counter: u32, i: u32) -> u32
    ensures { result ≡ candidate counter i }
{
    counter.wrapping_add(i)
}

/// The last eight digits of the number in base 16.
fn digits_of(number: u64) -> [u8; DIGITS]
    ensures { result ≡ hex_digits 8 number }
{
    let second = number / 16;
    let third = second / 16;
    let fourth = third / 16;
    let fifth = fourth / 16;
    let sixth = fifth / 16;
    let seventh = sixth / 16;
    let eighth = seventh / 16;
    [
        digit((eighth % 16) as u8),
        digit((seventh % 16) as u8),
        digit((sixth % 16) as u8),
        digit((fifth % 16) as u8),
        digit((fourth % 16) as u8),
        digit((third % 16) as u8),
        digit((second % 16) as u8),
        digit((number % 16) as u8),
    ]
}

/// Appends these bytes.
fn append(bytes: &mut Hidden, more: &[u8])
    requires { array_vec_len bytes.old + length more.now ≤ LENGTH }
    ensures items { bytes.new.items ≡ bytes.old.items ++ more.now }
    ensures len { array_vec_len bytes.new ≡ array_vec_len bytes.old + length more.now }
{
    let Ok(()) = bytes.try_extend_from_slice(more) else {
        unreachable!()
    };
}

/// The lower-case hexadecimal digit of that value, which is ASCII.
fn digit(value: u8) -> u8
    requires { value < 16 }
    ensures { result ≡ hex_digit value }
{
    if value < 10 {
        b'0' + value
    } else {
        b'a' - 10 + value
    }
}

/// For the prover: names of one number with different counters differ. It does nothing.
pub fn names_are_apart()
    ensures apart { AreApart }
    ensures modulo { AreModulo }
{}
