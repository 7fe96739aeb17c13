//! Appending bytes to a vector that has room for them.

ghost use Rattle.std.specs.Prelude.{◌≡◌, ◌≤◌, ◌+◌, ◌*◌, ◌++◌, ◌∷◌, [], length, vec_len, vec_capacity};
ghost use Rattle.wire.specs.Written.{le, zeros, joined, u16s, u32s};

use byteorder::{ByteOrder, LittleEndian};

pub fn put(out: &mut Vec<u8>, bytes: &[u8])
    requires { vec_len out.old + length bytes.now ≤ vec_capacity out.old }
    ensures items { out.new.items ≡ out.old.items ++ bytes.now }
    ensures len { vec_len out.new ≡ vec_len out.old + length bytes.now }
    ensures capacity { vec_capacity out.old ≤ vec_capacity out.new }
{
    out.extend_from_slice(bytes).unwrap();
}

#[tactic(auto, unfolding(crate::specs::Written::le))]
pub fn put_u16(out: &mut Vec<u8>, n: u16)
    requires { vec_len out.old + 2 ≤ vec_capacity out.old }
    ensures items { out.new.items ≡ out.old.items ++ le 2 n }
    ensures len { vec_len out.new ≡ vec_len out.old + 2 }
    ensures capacity { vec_capacity out.old ≤ vec_capacity out.new }
{
    let mut bytes = [0; 2];
    LittleEndian::write_u16(&mut bytes, n);
    put(out, &bytes);
}

#[tactic(auto, unfolding(crate::specs::Written::le))]
pub fn put_u32(out: &mut Vec<u8>, n: u32)
    requires { vec_len out.old + 4 ≤ vec_capacity out.old }
    ensures items { out.new.items ≡ out.old.items ++ le 4 n }
    ensures len { vec_len out.new ≡ vec_len out.old + 4 }
    ensures capacity { vec_capacity out.old ≤ vec_capacity out.new }
{
    let mut bytes = [0; 4];
    LittleEndian::write_u32(&mut bytes, n);
    put(out, &bytes);
}

/// The lowest four bytes of a number.
#[tactic(auto, unfolding(crate::specs::Written::le))]
pub fn put_low_u32(out: &mut Vec<u8>, n: usize)
    requires { vec_len out.old + 4 ≤ vec_capacity out.old }
    ensures items { out.new.items ≡ out.old.items ++ le 4 n }
    ensures len { vec_len out.new ≡ vec_len out.old + 4 }
    ensures capacity { vec_capacity out.old ≤ vec_capacity out.new }
{
    put(out, &word(n as u64)[..4]);
}

#[tactic(auto, unfolding(crate::specs::Written::le))]
pub fn put_u64(out: &mut Vec<u8>, n: u64)
    requires { vec_len out.old + 8 ≤ vec_capacity out.old }
    ensures items { out.new.items ≡ out.old.items ++ le 8 n }
    ensures len { vec_len out.new ≡ vec_len out.old + 8 }
    ensures capacity { vec_capacity out.old ≤ vec_capacity out.new }
{
    put(out, &word(n));
}

/// A number as a word of eight bytes.
#[tactic(auto, unfolding(crate::specs::Written::le))]
pub fn word(n: u64) -> [u8; 8]
    ensures { result ≡ le 8 n }
{
    let mut bytes = [0; 8];
    LittleEndian::write_u64(&mut bytes, n);
    bytes
}

/// Two four-byte numbers as one word of eight bytes.
#[tactic(auto, unfolding(crate::specs::Written::le))]
pub fn pair(first: u32, second: u32) -> [u8; 8]
    ensures { result ≡ le 4 first ++ le 4 second }
{
    let mut bytes = [0; 8];
    LittleEndian::write_u32(&mut bytes, first);
    LittleEndian::write_u32(&mut bytes[4..], second);
    bytes
}

/// The lowest four bytes of a length, and a four-byte number, as one word of eight bytes.
#[tactic(auto, unfolding(crate::specs::Written::le))]
pub fn len_and(len: usize, number: u32) -> [u8; 8]
    ensures { result ≡ le 4 len ++ le 4 number }
{
    let mut bytes = word(len as u64);
    LittleEndian::write_u32(&mut bytes[4..], number);
    bytes
}

/// Words of eight bytes, appended at once.
pub fn put_words(out: &mut Vec<u8>, words: &[[u8; 8]])
    requires { vec_len out.old + 8 * length words.now ≤ vec_capacity out.old }
    ensures items { out.new.items ≡ out.old.items ++ joined words.now }
    ensures len { vec_len out.new ≡ vec_len out.old + 8 * length words.now }
    ensures capacity { vec_capacity out.old ≤ vec_capacity out.new }
{
    put(out, words.as_flattened());
}

#[tactic(auto, unfolding(crate::specs::Written::u16s, crate::specs::Written::le))]
pub fn put_u16s(out: &mut Vec<u8>, numbers: &[u16])
    requires { vec_len out.old + 2 * length numbers.now ≤ vec_capacity out.old }
    ensures items { out.new.items ≡ out.old.items ++ u16s numbers.now }
    ensures len { vec_len out.new ≡ vec_len out.old + 2 * length numbers.now }
    ensures capacity { vec_capacity out.old ≤ vec_capacity out.new }
{
    for n in numbers {
        put_u16(out, *n);
    }
}

#[tactic(auto, unfolding(crate::specs::Written::u32s, crate::specs::Written::le))]
pub fn put_u32s(out: &mut Vec<u8>, numbers: &[u32])
    requires { vec_len out.old + 4 * length numbers.now ≤ vec_capacity out.old }
    ensures items { out.new.items ≡ out.old.items ++ u32s numbers.now }
    ensures len { vec_len out.new ≡ vec_len out.old + 4 * length numbers.now }
    ensures capacity { vec_capacity out.old ≤ vec_capacity out.new }
{
    for n in numbers {
        put_u32(out, *n);
    }
}

/// A text and a zero byte.
pub fn put_text(out: &mut Vec<u8>, text: &[u8])
    requires { vec_len out.old + length text.now + 1 ≤ vec_capacity out.old }
    ensures items { out.new.items ≡ out.old.items ++ (text.now ++ 0 ∷ []) }
    ensures len { vec_len out.new ≡ vec_len out.old + length text.now + 1 }
    ensures capacity { vec_capacity out.old ≤ vec_capacity out.new }
{
    put(out, text);
    put(out, &[0]);
}

#[tactic(auto, unfolding(crate::specs::Written::zeros))]
pub fn put_zeros(out: &mut Vec<u8>, count: u8)
    requires { vec_len out.old + count ≤ vec_capacity out.old }
    ensures items { out.new.items ≡ out.old.items ++ zeros count }
    ensures len { vec_len out.new ≡ vec_len out.old + count }
    ensures capacity { vec_capacity out.old ≤ vec_capacity out.new }
{
    let zeros = [0; 255];
    put(out, &zeros[..count as usize]);
}
