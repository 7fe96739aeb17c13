//! The operation of a request as a row to be written: the one table from which its opcode, length and bytes are taken.

ghost use Rattle.std.specs.Prelude.{◌≡◌, ◌≤◌, ◌+◌, ◌^◌, ◌++◌, length, vec_len, vec_capacity, IfSome};
ghost use Rattle.wire.specs.Requests.{new_attributes_layout, new_attributes_values, opcode_of};
ghost use Rattle.wire.specs.Written.{operation_bytes, written};
ghost use Rattle.wire.specs.Rows.{part_bytes, parts_bytes};

use crate::opcode::{
    BATCH_FORGET, CREATE, DESTROY, FLUSH, FORGET, FSYNC, FSYNCDIR, GETATTR, INIT, INTERRUPT, LINK,
    LOOKUP, MKDIR, OPEN, OPENDIR, READ, READDIR, READDIRPLUS, READLINK, RELEASE, RELEASEDIR,
    RENAME, RENAME2, RMDIR, SETATTR, STATFS, SYMLINK, UNLINK, WRITE,
};
use crate::put::{pair, put, put_low_u32, put_text, put_u32, put_u64, put_words, put_zeros, word};
use crate::request::{HEADER_LEN, NewAttributes, Operation};
use Part::{Bytes, LowU32, New, Text, U32, U64, Zeros};

/// How many bytes come after the size in a SETATTR (`fuse_setattr_in`).
const NEW_ATTRIBUTES_LEN: usize = 64;

/// A part of a body.
#[derive(Clone, Copy)]
pub enum Part<'a> {
    U32(u32),
    U64(u64),
    /// The lowest four bytes of a number.
    LowU32(usize),
    /// That many zero bytes.
    Zeros(u8),
    /// A text and a zero byte.
    Text(&'a [u8]),
    Bytes(&'a [u8]),
    /// What a SETATTR sets besides the size. The lock owner and the time of the last change are zero.
    New(NewAttributes),
}

/// What is written for an operation.
#[derive(Clone, Copy)]
pub struct Row<'a> {
    pub opcode: u32,
    /// The parts of the body, one after another.
    pub parts: [Part<'a>; 5],
}

/// The one table of what is written. Rows are filled up with parts of no bytes.
#[tactic(auto, using(crate::proofs::Lengths::lengths), unfolding(crate::specs::Written::zeros))]
pub fn row_of<'a>(operation: &Operation<'a>) -> Row<'a>
    ensures opcode { result.opcode ≡ opcode_of operation.now }
    ensures bytes { parts_bytes result.parts ≡ operation_bytes operation.now }
{
    let end = Zeros(0);
    let (opcode, parts) = match *operation {
        Operation::Lookup { name } => (LOOKUP, [Text(name), end, end, end, end]),
        Operation::Forget { nlookup } => (FORGET, [U64(nlookup), end, end, end, end]),
        Operation::GetAttr => (GETATTR, [Zeros(16), end, end, end, end]),
        Operation::SetAttr {
            valid,
            fh,
            size,
            attributes,
        } => (
            SETATTR,
            [U32(valid), Zeros(4), U64(fh), U64(size), New(attributes)],
        ),
        Operation::ReadLink => (READLINK, [end; 5]),
        Operation::MakeLink { name, text } => (
            SYMLINK,
            [Text(name), Bytes(text), Zeros(1), end, end],
        ),
        Operation::MakeDir { name, mode, umask } => (
            MKDIR,
            [U32(mode), U32(umask), Text(name), end, end],
        ),
        Operation::Unlink { name } => (UNLINK, [Text(name), end, end, end, end]),
        Operation::RemoveDir { name } => (RMDIR, [Text(name), end, end, end, end]),
        Operation::Rename {
            name,
            new_parent,
            new_name,
        } => (
            RENAME,
            [U64(new_parent), Text(name), Text(new_name), end, end],
        ),
        Operation::Link { old_node, name } => (LINK, [U64(old_node), Text(name), end, end, end]),
        Operation::Open { flags } => (OPEN, [U32(flags), Zeros(4), end, end, end]),
        Operation::Read { fh, offset, size } => (
            READ,
            [U64(fh), U64(offset), U32(size), Zeros(20), end],
        ),
        Operation::Write { fh, offset, data } => (
            WRITE,
            [
                U64(fh),
                U64(offset),
                LowU32(data.len()),
                Zeros(20),
                Bytes(data),
            ],
        ),
        Operation::StatFs => (STATFS, [end; 5]),
        Operation::Release { fh } => (RELEASE, [U64(fh), Zeros(16), end, end, end]),
        Operation::Sync { fh } => (FSYNC, [U64(fh), Zeros(8), end, end, end]),
        Operation::Flush { fh } => (FLUSH, [U64(fh), Zeros(16), end, end, end]),
        Operation::Init {
            major,
            minor,
            max_readahead,
            flags,
        } => (
            INIT,
            [U32(major), U32(minor), U32(max_readahead), U32(flags), end],
        ),
        Operation::OpenDir => (OPENDIR, [Zeros(8), end, end, end, end]),
        Operation::ReadDir { fh, offset, size } => (
            READDIR,
            [U64(fh), U64(offset), U32(size), Zeros(20), end],
        ),
        Operation::ReleaseDir { fh } => (RELEASEDIR, [U64(fh), Zeros(16), end, end, end]),
        Operation::SyncDir { fh } => (FSYNCDIR, [U64(fh), Zeros(8), end, end, end]),
        Operation::Create {
            name,
            flags,
            mode,
            umask,
        } => (
            CREATE,
            [U32(flags), U32(mode), U32(umask), Zeros(4), Text(name)],
        ),
        Operation::Interrupt => (INTERRUPT, [end; 5]),
        Operation::Destroy => (DESTROY, [end; 5]),
        Operation::BatchForget { pairs } => (
            BATCH_FORGET,
            [LowU32(pairs.len() / 16), Zeros(4), Bytes(pairs), end, end],
        ),
        Operation::ReadDirPlus { fh, offset, size } => (
            READDIRPLUS,
            [U64(fh), U64(offset), U32(size), Zeros(20), end],
        ),
        Operation::Rename2 {
            name,
            new_parent,
            flags,
            new_name,
        } => (
            RENAME2,
            [
                U64(new_parent),
                U32(flags),
                Zeros(4),
                Text(name),
                Text(new_name),
            ],
        ),
    };
    Row { opcode, parts }
}

#[tactic(auto, using(crate::proofs::Lengths::lengths))]
fn part_len(part: &Part<'_>) -> usize
    ensures len { result ≡ length (part_bytes part.now) }
    ensures short { result ≤ 2 ^ 63 }
{
    match part {
        U32(_) | LowU32(_) => 4,
        U64(_) => 8,
        Zeros(count) => *count as usize,
        Text(text) => text.len() + 1,
        Bytes(bytes) => bytes.len(),
        New(_) => NEW_ATTRIBUTES_LEN,
    }
}

/// How many bytes a request with these parts has, if a `usize` can hold it.
pub fn request_len(parts: &[Part<'_>]) -> Option<usize>
    ensures { IfSome result (λ len. len ≡ HEADER_LEN + length (parts_bytes parts.now)) }
{
    let mut len = HEADER_LEN;
    for part in parts {
        len = len.checked_add(part_len(part))?;
    }
    Some(len)
}

#[tactic(auto, using(crate::proofs::Entries::entries))]
fn put_new_attributes(out: &mut Vec<u8>, a: &NewAttributes)
    requires { vec_len out.old + NEW_ATTRIBUTES_LEN ≤ vec_capacity out.old }
    ensures items { out.new.items ≡ out.old.items ++ written new_attributes_layout (new_attributes_values a.now) }
    ensures len { vec_len out.new ≡ vec_len out.old + NEW_ATTRIBUTES_LEN }
    ensures capacity { vec_capacity out.old ≤ vec_capacity out.new }
{
    let (accessed, modified) = (a.accessed, a.modified);
    let (mode, uid, gid) = (a.mode, a.uid, a.gid);
    let words = [
        word(0),
        word(accessed.seconds),
        word(modified.seconds),
        word(0),
        pair(accessed.nanos, modified.nanos),
        pair(0, mode),
        pair(0, uid),
        pair(gid, 0),
    ];
    put_words(out, &words);
}

#[tactic(auto, using(crate::proofs::Lengths::lengths))]
fn put_part(out: &mut Vec<u8>, part: &Part<'_>)
    requires { vec_len out.old + length (part_bytes part.now) ≤ vec_capacity out.old }
    ensures items { out.new.items ≡ out.old.items ++ part_bytes part.now }
    ensures len { vec_len out.new ≡ vec_len out.old + length (part_bytes part.now) }
    ensures capacity { vec_capacity out.old ≤ vec_capacity out.new }
{
    match part {
        U32(number) => put_u32(out, *number),
        U64(number) => put_u64(out, *number),
        LowU32(number) => put_low_u32(out, *number),
        Zeros(count) => put_zeros(out, *count),
        Text(text) => put_text(out, text),
        Bytes(bytes) => put(out, bytes),
        New(attributes) => put_new_attributes(out, attributes),
    }
}

pub fn put_parts(out: &mut Vec<u8>, parts: &[Part<'_>])
    requires { vec_len out.old + length (parts_bytes parts.now) ≤ vec_capacity out.old }
    ensures { out.new.items ≡ out.old.items ++ parts_bytes parts.now }
{
    for part in parts {
        put_part(out, part);
    }
}
