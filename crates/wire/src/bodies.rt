//! Replies as words of eight bytes, so that a header and the body after it are written at once.

ghost use Rattle.std.specs.Prelude.{◌≡◌, ◌≤◌, ◌+◌, ◌^◌, ◌++◌, length, vec_len, vec_capacity};
ghost use Rattle.wire.specs.Fields.{CanTell};
ghost use Rattle.wire.specs.Replies.{blocks_of, type_bits, mode_of, rdev_of, attributes_layout, attributes_values, entry_layout, entry_values, attr_layout, attr_values, opened_layout, opened_values, created_layout, created_values, wrote_layout, wrote_values, statfs_layout, statfs_values, init_layout, init_values, reply_layout, reply_values, IsAnswer};
ghost use Rattle.wire.specs.Written.{written, body_bytes, header_bytes, joined};

use crate::put::{pair, put, put_u16s, put_u32s, put_words, word};
use crate::reply::{
    ATTRIBUTES_LEN, Attributes, CREATED_LEN, ENTRY_LEN, Entry, INIT_LEN, InitOut, OPENED_LEN,
    REPLY_HEADER_LEN, ReplyBody, STATFS_LEN, WROTE_LEN,
};
use crate::request::MAX_READ_LEN;
use payload::{Kind, Special, Time};

/// The header of a reply (`fuse_out_header`): the length with the error, and the number of the request.
#[derive(Clone, Copy)]
pub struct ReplyHeader {
    pub length: [u8; 8],
    pub unique: [u8; 8],
}

fn blocks(size: u64) -> u64
    ensures { result ≡ blocks_of size }
{
    if size % 512 == 0 {
        size / 512
    } else {
        size / 512 + 1
    }
}

/// The file type bits of a mode.
fn type_bits(kind: Kind) -> u32
    ensures is { result ≡ type_bits kind }
    ensures short { result ≤ 0o140000 }
{
    match kind {
        Kind::Folder => 0o040000,
        Kind::File => 0o100000,
        Kind::Link => 0o120000,
        Kind::Special(Special::Pipe) => 0o010000,
        Kind::Special(Special::Socket) => 0o140000,
        Kind::Special(Special::Character(_)) => 0o020000,
        Kind::Special(Special::Block(_)) => 0o060000,
    }
}

/// A mode: the file type bits and the permission bits.
fn mode(kind: Kind, permissions: u32) -> u32
    ensures { result ≡ mode_of kind permissions }
{
    type_bits(kind) + permissions % 0o10000
}

/// The number of a device, and 0 for what is none.
fn rdev(kind: Kind) -> u32
    ensures { result ≡ rdev_of kind }
{
    match kind {
        Kind::Special(Special::Character(number) | Special::Block(number)) => number,
        Kind::Special(Special::Pipe | Special::Socket) => 0,
        Kind::Folder | Kind::File | Kind::Link => 0,
    }
}

/// The seconds and the nanoseconds of a time.
fn parts(time: &Time) -> (u64, u32)
    ensures seconds { result.0 ≡ time.now.seconds }
    ensures nanos { result.1 ≡ time.now.nanos }
{
    (time.seconds, time.nanos)
}

/// The attributes of a node (`fuse_attr`), as words of eight bytes.
#[tactic(auto, using(crate::proofs::Entries::entries))]
fn attributes_words(a: &Attributes) -> [[u8; 8]; 11]
    ensures words { joined result ≡ written attributes_layout (attributes_values a.now) }
    ensures tells { CanTell attributes_layout (attributes_values a.now) }
{
    let (ino, size, links) = (a.details.ino, a.size, a.details.links);
    let (uid, gid) = (a.details.uid, a.details.gid);
    let (blocks, mode) = (blocks(size), mode(a.kind, a.details.permissions));
    let rdev = rdev(a.kind);
    let (accessed, accessed_nanos) = parts(&a.details.accessed);
    let (modified, modified_nanos) = parts(&a.details.modified);
    let (changed, changed_nanos) = parts(&a.details.changed);
    [
        word(ino),
        word(size),
        word(blocks),
        word(accessed),
        word(modified),
        word(changed),
        pair(accessed_nanos, modified_nanos),
        pair(changed_nanos, mode),
        pair(links, uid),
        pair(gid, rdev),
        pair(4096, 0),
    ]
}

/// An entry (`fuse_entry_out`), as words of eight bytes.
#[tactic(auto, using(crate::proofs::Entries::entries))]
pub fn entry_words(entry: &Entry) -> [[u8; 8]; 16]
    ensures words { joined result ≡ written entry_layout (entry_values entry.now) }
    ensures len { length result ≡ 16 }
    ensures tells { CanTell entry_layout (entry_values entry.now) }
{
    let (node, generation) = (entry.node, entry.generation);
    let [a, b, c, d, e, f, g, h, i, j, k] = attributes_words(&entry.attributes);
    let (node, generation) = (word(node), word(generation));
    let (second, nanos) = (word(1), pair(0, 0));
    [
        node, generation, second, second, nanos, a, b, c, d, e, f, g, h, i, j, k,
    ]
}

#[tactic(auto, using(crate::proofs::Entries::entries))]
fn put_entry(out: &mut Vec<u8>, header: ReplyHeader, entry: &Entry)
    requires { vec_len out.old + REPLY_HEADER_LEN + ENTRY_LEN ≤ vec_capacity out.old }
    ensures items { out.new.items ≡ out.old.items ++ (header_bytes header ++ written entry_layout (entry_values entry.now)) }
    ensures tells { CanTell entry_layout (entry_values entry.now) }
{
    let ReplyHeader { length, unique } = header;
    let [a, b, c, d, e, f, g, h, i, j, k, l, m, n, o, p] = entry_words(entry);
    put_words(
        out,
        &[
            length, unique, a, b, c, d, e, f, g, h, i, j, k, l, m, n, o, p,
        ],
    );
}

#[tactic(auto, using(crate::proofs::Entries::entries))]
fn put_attr(out: &mut Vec<u8>, header: ReplyHeader, attributes: &Attributes)
    requires { vec_len out.old + REPLY_HEADER_LEN + ATTRIBUTES_LEN ≤ vec_capacity out.old }
    ensures items { out.new.items ≡ out.old.items ++ (header_bytes header ++ written attr_layout (attr_values attributes.now)) }
    ensures tells { CanTell attr_layout (attr_values attributes.now) }
{
    let ReplyHeader { length, unique } = header;
    let (second, nanos) = (word(1), pair(0, 0));
    let [a, b, c, d, e, f, g, h, i, j, k] = attributes_words(attributes);
    put_words(
        out,
        &[
            length, unique, second, nanos, a, b, c, d, e, f, g, h, i, j, k,
        ],
    );
}

#[tactic(auto, using(crate::proofs::Entries::entries))]
fn put_statfs(out: &mut Vec<u8>, header: ReplyHeader)
    requires { vec_len out.old + REPLY_HEADER_LEN + STATFS_LEN ≤ vec_capacity out.old }
    ensures items { out.new.items ≡ out.old.items ++ (header_bytes header ++ written statfs_layout statfs_values) }
    ensures tells { CanTell statfs_layout statfs_values }
{
    let ReplyHeader { length, unique } = header;
    let (none, spare) = (word(0), pair(0, 0));
    let (sizes, fragment) = (pair(4096, 255), pair(4096, 0));
    put_words(
        out,
        &[
            length, unique, none, none, none, none, none, sizes, fragment, spare, spare, spare,
        ],
    );
}

#[tactic(auto, using(crate::proofs::Entries::entries))]
fn put_opened(out: &mut Vec<u8>, header: ReplyHeader, fh: u64)
    requires { vec_len out.old + REPLY_HEADER_LEN + OPENED_LEN ≤ vec_capacity out.old }
    ensures items { out.new.items ≡ out.old.items ++ (header_bytes header ++ written opened_layout (opened_values fh)) }
    ensures tells { CanTell opened_layout (opened_values fh) }
{
    let ReplyHeader { length, unique } = header;
    put_words(out, &[length, unique, word(fh), pair(0, 0)]);
}

#[tactic(auto, using(crate::proofs::Entries::entries))]
fn put_created(out: &mut Vec<u8>, header: ReplyHeader, entry: &Entry, fh: u64)
    requires { vec_len out.old + REPLY_HEADER_LEN + CREATED_LEN ≤ vec_capacity out.old }
    ensures items { out.new.items ≡ out.old.items ++ (header_bytes header ++ written created_layout (created_values entry.now fh)) }
    ensures tells { CanTell created_layout (created_values entry.now fh) }
{
    let ReplyHeader { length, unique } = header;
    let [a, b, c, d, e, f, g, h, i, j, k, l, m, n, o, p] = entry_words(entry);
    let (handle, flags) = (word(fh), pair(0, 0));
    put_words(
        out,
        &[
            length, unique, a, b, c, d, e, f, g, h, i, j, k, l, m, n, o, p, handle, flags,
        ],
    );
}

#[tactic(auto, using(crate::proofs::Entries::entries))]
fn put_wrote(out: &mut Vec<u8>, header: ReplyHeader, size: u32)
    requires { vec_len out.old + REPLY_HEADER_LEN + WROTE_LEN ≤ vec_capacity out.old }
    ensures items { out.new.items ≡ out.old.items ++ (header_bytes header ++ written wrote_layout (wrote_values size)) }
    ensures tells { CanTell wrote_layout (wrote_values size) }
{
    let ReplyHeader { length, unique } = header;
    put_words(out, &[length, unique, pair(size, 0)]);
}

fn put_header(out: &mut Vec<u8>, header: ReplyHeader)
    requires { vec_len out.old + REPLY_HEADER_LEN ≤ vec_capacity out.old }
    ensures items { out.new.items ≡ out.old.items ++ header_bytes header }
    ensures len { vec_len out.new ≡ vec_len out.old + REPLY_HEADER_LEN }
    ensures capacity { vec_capacity out.old ≤ vec_capacity out.new }
{
    let ReplyHeader { length, unique } = header;
    put_words(out, &[length, unique]);
}

fn pages(i: &InitOut) -> u16
    ensures { result ≡ i.now.max_pages }
{
    i.max_pages
}

#[tactic(auto, using(crate::proofs::Entries::entries))]
fn put_init(out: &mut Vec<u8>, header: ReplyHeader, i: &InitOut)
    requires { vec_len out.old + REPLY_HEADER_LEN + INIT_LEN ≤ vec_capacity out.old }
    ensures items { out.new.items ≡ out.old.items ++ (header_bytes header ++ written init_layout (init_values i.now)) }
    ensures tells { CanTell init_layout (init_values i.now) }
{
    let (major, minor, max_readahead, flags) = (i.major, i.minor, i.max_readahead, i.flags);
    let (max_background, congestion_threshold) = (i.max_background, i.congestion_threshold);
    let (max_write, time_gran, max_pages) = (i.max_write, i.time_gran, pages(i));
    put_header(out, header);
    put_u32s(out, &[major, minor, max_readahead, flags]);
    put_u16s(out, &[max_background, congestion_threshold]);
    put_u32s(out, &[max_write, time_gran]);
    put_u16s(out, &[max_pages, 0]);
    put_u32s(out, &[0, 0, 0, 0, 0, 0, 0, 0]);
}

#[tactic(auto, using(crate::proofs::Lengths::lengths), unfolding(crate::specs::Written::le, crate::specs::Written::body_bytes))]
pub fn body_len(body: &ReplyBody) -> usize
    ensures len { result ≡ length (body_bytes body.now) }
    ensures short { result ≤ 2 ^ 63 }
    ensures answer { IsAnswer body.now → result ≤ MAX_READ_LEN }
{
    match body {
        ReplyBody::Failed { .. } | ReplyBody::Done => 0,
        ReplyBody::Entry(_) => ENTRY_LEN,
        ReplyBody::Attributes(_) => ATTRIBUTES_LEN,
        ReplyBody::Opened { .. } => OPENED_LEN,
        ReplyBody::Created { .. } => CREATED_LEN,
        ReplyBody::Wrote { .. } => WROTE_LEN,
        ReplyBody::Data(data) => data.as_slice().len(),
        ReplyBody::StatFs => STATFS_LEN,
        ReplyBody::Init(_) => INIT_LEN,
    }
}

#[tactic(auto, using(crate::proofs::Lengths::lengths), unfolding(crate::specs::Written::le, crate::specs::Written::body_bytes))]
pub fn put_body(out: &mut Vec<u8>, header: ReplyHeader, body: &ReplyBody)
    requires { vec_len out.old + REPLY_HEADER_LEN + length (body_bytes body.now) ≤ vec_capacity out.old }
    ensures items { out.new.items ≡ out.old.items ++ (header_bytes header ++ body_bytes body.now) }
    ensures tells { CanTell (reply_layout body.now) (reply_values body.now) }
{
    match body {
        ReplyBody::Failed { .. } | ReplyBody::Done => put_header(out, header),
        ReplyBody::Entry(entry) => put_entry(out, header, entry),
        ReplyBody::Attributes(attributes) => put_attr(out, header, attributes),
        ReplyBody::Opened { fh } => put_opened(out, header, *fh),
        ReplyBody::Created { entry, fh } => put_created(out, header, entry, *fh),
        ReplyBody::Wrote { size } => put_wrote(out, header, *size),
        ReplyBody::Data(data) => {
            put_header(out, header);
            put(out, data.as_slice());
        }
        ReplyBody::StatFs => put_statfs(out, header),
        ReplyBody::Init(init) => put_init(out, header, init),
    }
}
