//! Bytes that are appended at one end and removed at the other.

ghost use Rattle.std.specs.Prelude.{◌≡◌, ◌+◌, ◌-◌, ◌≤◌, ◌++◌, [], length, take, drop, vec_len, OnOk, OnErr};

use std::alloc::{AllocError, Global};
use std::marker::Model;
use std::mem::swap;

/// The bytes of a buffer from `start` up to `end`. The buffer has room before and after them and never gets shorter, so
/// removing bytes costs nothing.
#[derive(Drop)]
pub struct Window {
    buffer: Vec<u8>,
    start: usize,
    end: usize,
}

impl Model for Window {
    ghost use Rattle.std.specs.Prelude.{◌≤◌, ℕ, List, length, take, drop};

    ghost Value = { List ℕ };

    ghost view = { λ w. drop w.start (take w.end w.buffer.items) };

    ghost invariant = { λ w. (w.start ≤ w.end) × (w.end ≤ length w.buffer.items) };
}

/// Moves the bytes from `start` up to `end` to the front with one copy, which is possible because the two ranges do not
/// overlap.
fn move_to_front(buffer: &mut [u8], start: usize, end: usize)
    requires order { start ≤ end }
    requires within { end ≤ length buffer.old }
    requires cheap { end - start ≤ start }
    ensures moved { take (end - start) buffer.new ≡ drop start (take end buffer.old) }
    ensures len { length buffer.new ≡ length buffer.old }
{
    let (front, back) = buffer.split_at_mut(start);
    front[..end - start].copy_from_slice(&back[..end - start]);
}

/// Writes the piece after the first `end` bytes, and makes room for it. If memory is refused, nothing changes.
fn write_behind(buffer: &mut Vec<u8>, end: usize, piece: &[u8]) -> Result<(), AllocError>
    requires within { end ≤ length buffer.old.items }
    ensures written { OnOk result (take (end + length piece.now) buffer.new.items ≡ take end buffer.old.items ++ piece.now) }
    ensures fits { OnOk result (end + length piece.now ≤ length buffer.new.items) }
    ensures same { OnErr result (buffer.new.items ≡ buffer.old.items) }
{
    let Some(wanted) = end.checked_add(piece.len()) else {
        return Err(AllocError);
    };
    if wanted > buffer.len() {
        buffer.resize(wanted, 0)?;
    }
    buffer[end..wanted].copy_from_slice(piece);
    Ok(())
}

/// Writes the bytes into a buffer so that they end where `from` is.
fn write_before(room: &mut [u8], from: usize, bytes: &[u8])
    requires before { length bytes.now ≤ from }
    requires within { from ≤ length room.old }
    ensures written { drop (from - length bytes.now) room.new ≡ bytes.now ++ drop from room.old }
    ensures len { length room.new ≡ length room.old }
{
    room[from - bytes.len()..from].copy_from_slice(bytes);
}

/// Makes the buffer at least `len` bytes long. Its first `end` bytes do not change, and if memory is refused, nothing
/// changes.
fn lengthen(buffer: &mut Vec<u8>, end: usize, len: usize) -> Result<(), AllocError>
    requires within { end ≤ length buffer.old.items }
    ensures front { take end buffer.new.items ≡ take end buffer.old.items }
    ensures within { end ≤ length buffer.new.items }
    ensures long { OnOk result (len ≤ length buffer.new.items) }
    ensures same { OnErr result (buffer.new.items ≡ buffer.old.items) }
{
    if buffer.len() < len {
        buffer.resize(len, 0)?;
    }
    Ok(())
}

/// Copies the bytes of a buffer from `start` up to `end` into another one, where they end at `from`, and exchanges the
/// two.
fn exchange(buffer: &mut Vec<u8>, start: usize, end: usize, room: &mut Vec<u8>, from: usize)
    requires order { start ≤ end }
    requires within { end ≤ length buffer.old.items }
    requires before { end - start ≤ from }
    requires inside { from ≤ length room.old.items }
    ensures joined { drop (from - (end - start)) buffer.new.items ≡ drop start (take end buffer.old.items) ++ drop from room.old.items }
    ensures len { length buffer.new.items ≡ length room.old.items }
    ensures room { length room.new.items ≡ length buffer.old.items }
{
    write_before(room, from, &buffer[start..end]);
    swap(buffer, room);
}

impl Window {
    /// An empty window. It does not allocate.
    pub fn new(alloc: Global) -> Window
        ensures { result ≡ [] }
    {
        Window {
            buffer: Vec::new(alloc),
            start: 0,
            end: 0,
        }
    }

    pub fn as_slice(&self) -> &[u8]
        ensures { result.now ≡ self.now }
    {
        &self.buffer[self.start..self.end]
    }

    pub fn len(&self) -> usize
        ensures { result ≡ length self.now }
    {
        self.end - self.start
    }

    /// Moves the bytes to the front if at least as many bytes were removed before them. So over the life of a window at
    /// most one byte is moved for each byte that is appended.
    fn move_up(&mut self)
        ensures { self.new ≡ self.old }
    {
        let left = self.end - self.start;
        if self.start == 0 || self.start < left {
            return;
        }
        move_to_front(&mut self.buffer, self.start, self.end);
        self.start = 0;
        self.end = left;
    }

    /// Appends the piece. If memory is refused, the bytes do not change.
    pub fn push(&mut self, piece: &[u8]) -> Result<(), AllocError>
        ensures ok { OnOk result (self.new ≡ self.old ++ piece.now) }
        ensures err { OnErr result (self.new ≡ self.old) }
    {
        self.move_up();
        write_behind(&mut self.buffer, self.end, piece)?;
        self.end += piece.len();
        Ok(())
    }

    /// Appends `count` bytes of `room`, starting at `from`. If fewer bytes are kept and fit before these, they are
    /// copied there and the two buffers are exchanged. The room gets no shorter. If memory is refused, nothing changes.
    pub fn take_from(
        &mut self,
        room: &mut Vec<u8>,
        from: usize,
        count: usize,
    ) -> Result<(), AllocError>
        requires within { from + count ≤ vec_len room.old }
        ensures ok { OnOk result (self.new ≡ self.old ++ take count (drop from room.old.items)) }
        ensures err { OnErr result ((self.new ≡ self.old) × (room.new.items ≡ room.old.items)) }
        ensures room { vec_len room.old ≤ vec_len room.new }
    {
        let (kept, behind) = (self.end - self.start, self.buffer.len() - self.end);
        // Of the bytes that are kept and those that come, the fewer are copied if there is room for that.
        if kept > from || (count <= kept && count <= behind) {
            return self.push(&room[from..from + count]);
        }
        lengthen(&mut self.buffer, self.end, room.len())?;
        exchange(&mut self.buffer, self.start, self.end, room, from);
        self.start = from - kept;
        self.end = from + count;
        Ok(())
    }

    /// Removes the first `count` bytes.
    pub fn skip(&mut self, count: usize)
        requires within { count ≤ length self.old }
        ensures { self.new ≡ drop count self.old }
    {
        self.start += count;
    }
}
