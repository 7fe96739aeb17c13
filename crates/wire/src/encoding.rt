//! Writing requests and replies as frames. The length of a frame is known first, so a vector grows at most once and the
//! writing that follows cannot fail.

ghost use Rattle.std.specs.Prelude.{◌≡◌, ℕ, List, ◌≤◌, ◌+◌, ◌^◌, ◌++◌, ◌<◌, length, vec_len, vec_capacity, OnOk, OnErr, pos};
ghost use Rattle.wire.specs.declared.reply.ReplyBody.TheVariants.{Data, Failed, Done};
ghost use Rattle.wire.specs.Fields.{CanTell, IsBytes};
ghost use Rattle.terms.specs.declared.settings.Names.{Names};
ghost use Rattle.wire.specs.Requests.{IsRequest, opcode_of};
ghost use Rattle.wire.specs.Replies.{IsReply, IsAnswer, IsErrno, reply_layout, reply_values};
ghost use Rattle.wire.specs.Rows.{parts_bytes};
ghost use Rattle.wire.specs.Written.{operation_bytes, request_bytes, reply_bytes, body_bytes, error_word, le, negated as negated_of};

use crate::bodies::{ReplyHeader, body_len, put_body};
use crate::put::{len_and, put_low_u32, put_u32, put_u64, put_zeros, word};
use crate::reply::{REPLY_HEADER_LEN, Reply, ReplyBody};
use crate::request::{HEADER_LEN, Request};
use crate::writing::{Row, put_parts, request_len, row_of};
use byteorder::{ByteOrder, LittleEndian};
use payload::Payload;
use std::alloc::AllocError;

#[tactic(auto, using(crate::proofs::Lengths::lengths), unfolding(crate::specs::Written::request_bytes))]
fn put_request(out: &mut Vec<u8>, request: &Request<'_>, row: &Row<'_>, len: usize)
    requires opcode { row.now.opcode ≡ opcode_of request.now.operation }
    requires parts { parts_bytes row.now.parts ≡ operation_bytes request.now.operation }
    requires room { vec_len out.old + HEADER_LEN + length (operation_bytes request.now.operation) ≤ vec_capacity out.old }
    requires len { len ≡ HEADER_LEN + length (operation_bytes request.now.operation) }
    ensures { out.new.items ≡ out.old.items ++ request_bytes request.now }
{
    put_low_u32(out, len);
    put_u32(out, row.opcode);
    put_u64(out, request.unique);
    put_u64(out, request.node);
    put_u32(out, request.caller.uid);
    put_u32(out, request.caller.gid);
    put_zeros(out, 8);
    put_parts(out, &row.parts);
}

/// Appends a request to a vector, for clients. Fields that the server does not read, such as pid, are zero. If memory is refused, the items do not change.
pub fn encode_request(request: &Request<'_>, out: &mut Vec<u8>) -> Result<(), AllocError>
    ensures ok { OnOk result (out.new.items ≡ out.old.items ++ request_bytes request.now) }
    // If any frame is this request, then what is appended is one.
    ensures again { (names : Names) (frame : List ℕ) → IsBytes frame → IsRequest names frame request.now → IsRequest names (request_bytes request.now) request.now }
    ensures err { OnErr result (out.new.items ≡ out.old.items) }
{
    let row = row_of(&request.operation);
    let Some(len) = request_len(&row.parts) else {
        return Err(AllocError);
    };
    out.reserve(len)?;
    put_request(out, request, &row, len);
    Ok(())
}

/// An error number as the header has it: the two's complement of its negation.
fn negated(errno: i32) -> u32
    ensures { result ≡ negated_of errno }
{
    errno.wrapping_neg().cast_unsigned()
}

fn error(body: &ReplyBody) -> u32
    ensures { result ≡ error_word body.now }
{
    match body {
        ReplyBody::Failed { errno } => negated(*errno),
        _ => 0,
    }
}

#[tactic(auto, using(crate::proofs::Lengths::lengths), unfolding(crate::specs::Written::reply_bytes))]
fn put_reply(out: &mut Vec<u8>, reply: &Reply, len: usize)
    requires room { vec_len out.old + len ≤ vec_capacity out.old }
    requires len { len ≡ REPLY_HEADER_LEN + length (body_bytes reply.now.body) }
    ensures items { out.new.items ≡ out.old.items ++ reply_bytes reply.now }
    ensures unique { reply.now.unique < 256 ^ 8 }
    ensures tells { CanTell (reply_layout reply.now.body) (reply_values reply.now.body) }
{
    let unique = reply.unique;
    let header = ReplyHeader {
        length: len_and(len, error(&reply.body)),
        unique: word(unique),
    };
    put_body(out, header, &reply.body);
}

/// Appends a reply to a vector. If memory is refused, the items do not change.
pub fn encode_reply(reply: &Reply, out: &mut Vec<u8>) -> Result<(), AllocError>
    ensures ok { OnOk result (out.new.items ≡ out.old.items ++ reply_bytes reply.now) }
    // What is appended is that reply, if its body is one that a reply may have.
    ensures reply { OnOk result (IsAnswer reply.now.body → IsReply (reply_bytes reply.now) reply.now) }
    // No other bytes are that reply.
    ensures only { (frame : List ℕ) → IsBytes frame → IsReply frame reply.now → frame ≡ reply_bytes reply.now }
    ensures err { OnErr result (out.new.items ≡ out.old.items) }
{
    let len = REPLY_HEADER_LEN + body_len(&reply.body);
    out.reserve(len)?;
    put_reply(out, reply, len);
    Ok(())
}

/// The header of a reply with a body of `len` bytes in all.
#[tactic(auto, unfolding(crate::specs::Written::le))]
fn data_header(len: usize, unique: u64) -> [u8; 16]
    ensures { result ≡ le 4 len ++ (le 4 0 ++ le 8 unique) }
{
    let mut header = [0; 16];
    LittleEndian::write_u64(&mut header, len as u64);
    LittleEndian::write_u32(&mut header[4..], 0);
    LittleEndian::write_u64(&mut header[8..], unique);
    header
}

/// Writes a reply into the vector and replaces what was there.
fn write_anew(reply: &Reply, out: &mut Vec<u8>) -> Result<(), AllocError>
    ensures { OnOk result (out.new.items ≡ reply_bytes reply.now) }
{
    out.clear();
    encode_reply(reply, out)
}

/// Writes a reply with data as `write_reply` does.
// In the caller its locals would be set up for replies without data too.
#[inline(never)]
#[tactic(auto, using(crate::proofs::Lengths::lengths), unfolding(crate::specs::Written::le, crate::specs::Written::body_bytes, crate::specs::Written::reply_bytes))]
fn write_data(unique: u64, bytes: Payload, out: &mut Vec<u8>) -> Result<(), AllocError>
    ensures { OnOk result (out.new.items ≡ reply_bytes (record { unique = unique; body = Data bytes })) }
{
    let len = REPLY_HEADER_LEN + bytes.as_slice().len();
    match bytes.headed(&data_header(len, unique)) {
        Ok(frame) => {
            *out = frame;
            Ok(())
        }
        Err(bytes) => {
            let body = ReplyBody::Data(bytes);
            write_anew(&Reply { unique, body }, out)
        }
    }
}

/// Writes a reply into the vector and replaces what was there. The data that it carries is not copied if the room
/// before it is exactly as long as a header.
#[tactic(auto, using(crate::proofs::Lengths::lengths), unfolding(crate::specs::Written::le, crate::specs::Written::body_bytes, crate::specs::Written::reply_bytes))]
pub fn write_reply(reply: Reply, out: &mut Vec<u8>) -> Result<(), AllocError>
    ensures { OnOk result (out.new.items ≡ reply_bytes reply) }
{
    let Reply { unique, body } = reply;
    match body {
        ReplyBody::Data(data) => write_data(unique, data, out),
        body => write_anew(&Reply { unique, body }, out),
    }
}

/// A reply that has only an error number, or 0 for success without a body. It does not allocate. For an `errno` that is
/// not an error number it contains the two's complement of the negation.
#[tactic(auto, unfolding(crate::specs::Written::le, crate::specs::Written::body_bytes, crate::specs::Written::reply_bytes))]
pub fn error_frame(unique: u64, errno: i32) -> [u8; 16]
    ensures bytes { result ≡ reply_bytes (record { unique = unique; body = Failed errno }) }
    ensures failed { IsErrno errno → IsReply result (record { unique = unique; body = Failed errno }) }
    ensures done { errno ≡ pos 0 → IsReply result (record { unique = unique; body = Done }) }
{
    let mut frame = [0; 16];
    LittleEndian::write_u32(&mut frame, 16);
    LittleEndian::write_u32(&mut frame[4..], negated(errno));
    LittleEndian::write_u64(&mut frame[8..], unique);
    frame
}
