//! Reading frames as requests.

ghost use Rattle.std.specs.Prelude.{true, IfOk, IfErr, IsOkAnd};
ghost use Rattle.wire.specs.declared.request.Request.{Request};
ghost use Rattle.wire.specs.Requests.{IsRequest, IsSame};
ghost use Rattle.wire.specs.Faults.{IsFirstFault};
ghost use Rattle.wire.specs.Reading.{Gives, named, parts_at, request_at, told_request};
ghost use Rattle.wire.specs.Requests.{values_of};

use crate::fault::WireFault;
use crate::fronts::test_name;
use crate::header::{Header, header_of, u32_in};
use crate::operations::operation_of;
use crate::request::{Caller, HEADER_LEN, MAX_FRAME_LEN, Operation, Request};
use terms::Names;

/// The header of a whole frame, and the bytes after it.
fn parts_of(frame: &[u8]) -> Result<(Header, &[u8]), WireFault>
    ensures { Gives (λ x. (x.0, x.1.now)) result (parts_at frame.now) }
{
    let Some(header) = header_of(frame) else {
        return Err(WireFault::Frame);
    };
    if frame.len() > MAX_FRAME_LEN || u32_in(frame, 0) as usize != frame.len() {
        return Err(WireFault::Frame);
    }
    Ok((header, &frame[HEADER_LEN..]))
}

/// Tests the names of an operation, one after another.
fn test_names(names: Names, operation: Operation<'_>) -> Result<(), WireFault>
    ensures { Gives (λ _. true) result (named names (values_of operation.entry)) }
{
    match operation {
        Operation::Lookup { name }
        | Operation::MakeLink { name, .. }
        | Operation::MakeDir { name, .. }
        | Operation::Unlink { name }
        | Operation::RemoveDir { name }
        | Operation::Link { name, .. }
        | Operation::Create { name, .. } => test_name(names, name),
        Operation::Rename { name, new_name, .. } | Operation::Rename2 { name, new_name, .. } => {
            test_name(names, name)?;
            test_name(names, new_name)
        }
        _ => Ok(()),
    }
}

#[tactic(auto, unfolding(crate::specs::Reading::request_at))]
fn request_of(frame: &[u8], names: Names) -> Result<Request<'_>, WireFault>
    ensures { Gives told_request result (request_at names frame.now) }
{
    let (header, body) = parts_of(frame)?;
    let operation = operation_of(header.opcode, body)?;
    test_names(names, operation)?;
    Ok(Request {
        unique: header.unique,
        node: header.node,
        caller: Caller {
            uid: header.uid,
            gid: header.gid,
        },
        operation,
    })
}

/// The request that a whole frame contains, in a session that takes these names. It does not allocate.
pub fn decode(frame: &[u8], names: Names) -> Result<Request<'_>, WireFault>
    // What is returned is the request that the frame is.
    ensures found { IfOk result (IsRequest names frame.now) }
    // If the frame is a request, that request is returned.
    ensures only { (q : Request) → IsRequest names frame.now q → IsOkAnd result (λ r. IsSame r q) }
    // A fault is that of the first test that fails.
    ensures fault { IfErr result (IsFirstFault names frame.now) }
{
    request_of(frame, names)
}
