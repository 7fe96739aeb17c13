//! Directory entries, as READDIR and READDIRPLUS return them, appended to a vector one by one.

ghost use Rattle.std.specs.Prelude.{◌≡◌, ◌<◌, ◌≤◌, ◌+◌, ◌^◌, ◌++◌, length, vec_len, vec_capacity, OnOk, OnErr, Option};
ghost use Rattle.wire.specs.Dirents.{Dirent, PlusDirent, IsDirent, IsPlusDirent, dirent_bytes, given_values, ino_of, padding, padding_of, plus_bytes, type_of};
ghost use Rattle.wire.specs.Fields.{CanTell};
ghost use Rattle.wire.specs.Replies.{entry_layout};
ghost use Rattle.wire.specs.Written.{joined, written, zeros};

use crate::bodies::entry_words;
use crate::put::{len_and, put, put_words, word};
use crate::reply::{ENTRY_LEN, Entry};
use payload::{Kind, Special};
use std::alloc::AllocError;

/// How many bytes come before the name in a directory entry (`fuse_dirent`).
pub const DIRENT_LEN: usize = 24;

/// The inode number of an entry that was not looked up (`FUSE_UNKNOWN_INO` of libfuse).
pub const NO_INO: u64 = 4294967295;

/// The type of a directory entry, as `readdir(3)` has it.
fn type_of(kind: Kind) -> u32
    ensures { result ≡ type_of kind }
{
    match kind {
        Kind::Folder => 4,
        Kind::File => 8,
        Kind::Link => 10,
        Kind::Special(Special::Pipe) => 1,
        Kind::Special(Special::Socket) => 12,
        Kind::Special(Special::Character(_)) => 2,
        Kind::Special(Special::Block(_)) => 6,
    }
}

/// How many zeros pad that many bytes to a multiple of eight.
fn padding(len: usize) -> u8
    ensures is { result ≡ padding len }
    ensures few { result < 8 }
{
    ((8 - len % 8) % 8) as u8
}

/// How much room the directory entry of this name is written in: that of its bytes without padding, and a word.
fn dirent_room(name: &[u8]) -> usize
    ensures is { result ≡ DIRENT_LEN + length name.now + 8 }
    ensures short { result ≤ 2 ^ 63 + 32 }
{
    DIRENT_LEN + name.len() + 8
}

/// Appends a name and its padding of zeros.
#[tactic(auto, unfolding(crate::specs::Written::zeros))]
fn put_padded(out: &mut Vec<u8>, name: &[u8], padding: u8)
    requires few { padding < 8 }
    requires room { vec_len out.old + length name.now + 8 ≤ vec_capacity out.old }
    ensures { out.new.items ≡ out.old.items ++ (name.now ++ zeros padding) }
{
    put(out, name);
    let end = out.len() + padding as usize;
    // A whole word is written at once, and what is too much of it is cut off.
    put(out, &[0; 8]);
    out.truncate(end);
}

#[tactic(auto, using(crate::proofs::Listed::dirents))]
fn put_dirent(out: &mut Vec<u8>, ino: u64, next: u64, kind: Kind, name: &[u8])
    requires { vec_len out.old + (DIRENT_LEN + length name.now + 8) ≤ vec_capacity out.old }
    ensures { out.new.items ≡ out.old.items ++ dirent_bytes (record { ino = ino; next = next; kind = kind; name = name.now }) }
{
    let len = name.len();
    put_words(out, &[word(ino), word(next), len_and(len, type_of(kind))]);
    put_padded(out, name, padding(DIRENT_LEN + len));
}

/// Appends a READDIR entry: its inode number, the offset of the next entry, its type and its name. If memory is
/// refused, the items do not change.
pub fn encode_dirent(
    out: &mut Vec<u8>,
    ino: u64,
    next: u64,
    kind: Kind,
    name: &[u8],
) -> Result<(), AllocError>
    ensures ok { OnOk result (out.new.items ≡ out.old.items ++ dirent_bytes (record { ino = ino; next = next; kind = kind; name = name.now })) }
    // What is appended is that entry, if four bytes can hold the length of its name.
    ensures dirent { let d : Dirent = record { ino = ino; next = next; kind = kind; name = name.now } in length name.now < 2 ^ 32 → IsDirent d (dirent_bytes d) }
    ensures err { OnErr result (out.new.items ≡ out.old.items) }
{
    out.reserve(dirent_room(name))?;
    put_dirent(out, ino, next, kind, name);
    Ok(())
}

/// The inode number of the entry's node, or `NO_INO` if it was not looked up.
fn ino_of(entry: &Option<Entry>) -> u64
    ensures { result ≡ ino_of entry.now }
{
    match entry {
        Some(entry) => entry.attributes.details.ino,
        None => NO_INO,
    }
}

/// The words of the entry's node, or zeros if it was not looked up.
#[tactic(auto, using(crate::proofs::Listed::dirents))]
fn given_words(entry: &Option<Entry>) -> [[u8; 8]; 16]
    ensures words { joined result ≡ written entry_layout (given_values entry.now) }
    ensures len { length result ≡ 16 }
    ensures tells { CanTell entry_layout (given_values entry.now) }
{
    match entry {
        Some(entry) => entry_words(entry),
        None => [[0; 8]; 16],
    }
}

/// Appends the node of a READDIRPLUS entry and then the directory entry with its name.
#[tactic(auto, using(crate::proofs::Listed::dirents))]
fn put_plus_dirent(out: &mut Vec<u8>, entry: &Option<Entry>, next: u64, kind: Kind, name: &[u8])
    requires { vec_len out.old + (ENTRY_LEN + (DIRENT_LEN + length name.now + 8)) ≤ vec_capacity out.old }
    ensures items { out.new.items ≡ out.old.items ++ plus_bytes (record { entry = entry.now; next = next; kind = kind; name = name.now }) }
    ensures tells { CanTell entry_layout (given_values entry.now) }
{
    let (len, ino) = (name.len(), ino_of(entry));
    let [a, b, c, d, e, f, g, h, i, j, k, l, m, n, o, p] = given_words(entry);
    let (ino, next, last) = (word(ino), word(next), len_and(len, type_of(kind)));
    put_words(
        out,
        &[
            a, b, c, d, e, f, g, h, i, j, k, l, m, n, o, p, ino, next, last,
        ],
    );
    put_padded(out, name, padding(DIRENT_LEN + len));
}

/// The same for READDIRPLUS: the entry's node comes first. If it was not looked up, its bytes are zero and the inode
/// number is `NO_INO`.
#[tactic(auto, using(crate::proofs::Listed::dirents))]
pub fn encode_plus_dirent(
    out: &mut Vec<u8>,
    entry: Option<Entry>,
    next: u64,
    kind: Kind,
    name: &[u8],
) -> Result<(), AllocError>
    ensures ok { OnOk result (out.new.items ≡ out.old.items ++ plus_bytes (record { entry = entry; next = next; kind = kind; name = name.now })) }
    // What is appended is that entry, if four bytes can hold the length of its name.
    ensures dirent { OnOk result (let p : PlusDirent = record { entry = entry; next = next; kind = kind; name = name.now } in length name.now < 2 ^ 32 → IsPlusDirent p (plus_bytes p)) }
    ensures err { OnErr result (out.new.items ≡ out.old.items) }
{
    out.reserve(ENTRY_LEN + dirent_room(name))?;
    put_plus_dirent(out, &entry, next, kind, name);
    Ok(())
}
