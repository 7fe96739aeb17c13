//! A link of hexadecimal lines.

ghost use Rattle.std.specs.Prelude.{◌≡◌, ◌≢◌, ◌⊎◌, ◌/◌, ◌++◌, ◌∷◌, ◌≤◌, [], true, false, take, Ok, Err, Some, IfSome, IfOk, IfErr, OnOk, OnErr, length};
ghost use Rattle.std.specs.Io.KnownBytes.{Appends, IsAtEnd, Keeps};
ghost use Rattle.std.specs.Io.BufRead.{first_piece, DropsThrough};
ghost use Rattle.hex.specs.Hex.{decode_of, encode_lower};
ghost use Rattle.engine.specs.Links.{counted};
ghost use Rattle.engine_streams.specs.Writing.{AppendsPart};
ghost use Rattle.mirrord_sessions.specs.Lines.{line, unread, Explains, HandsOut, IsOfWriting, ReadsLine, Receives, Sends};
ghost use Rattle.hex.specs.declared.error.FromHexError.TheVariants.{OutOfMemory};

use engine::{Link, LinkIn, LinkOut, Received, Sent};
use engine_streams::write_flushed;
use hex::FromHexError;
use mirrord_commands::Fault;
use std::alloc::{AllocError, Global};
use std::io;
use std::io::{BufRead, Write};
use std::marker::Model;

/// Reads the next line into `line`, without its line break. False means the end of the input.
fn read_line<I: BufRead>(reader: &mut I, line: &mut Vec<u8>) -> io::Result<bool>
    ensures line { IfOk result (λ more. more ≡ true
        → IfSome (I.remaining reader.old) (λ xs. (xs ≢ []) × (line.new.items ≡ first_piece 10 xs))) }
    ensures end { IfOk result (λ more. more ≡ false → IsAtEnd (I.remaining reader.old)) }
    ensures rest { OnOk result (DropsThrough (I.remaining reader.old) (I.remaining reader.new) 10) }
{
    line.clear();
    let read = reader.read_until(b'\n', line)?;
    if line.last() == Some(&b'\n') {
        line.pop();
    }
    Ok(read > 0)
}

/// Puts the bytes that a line spells into `piece`; if it spells none, `piece` is empty.
fn spell(line: &[u8], piece: &mut Vec<u8>) -> Result<(), FromHexError>
    ensures ok { OnOk result (decode_of line.now ≡ Ok piece.new.items) }
    ensures err { IfErr result (λ e. (e ≡ OutOfMemory) ⊎ (decode_of line.now ≡ Err e)) }
{
    piece.clear();
    piece.resize(line.len() / 2, 0)?;
    hex::decode_to_slice(line, piece.as_mut_slice())
}

/// Writes the digits of the frame into `line`, in lower case, with a line break.
fn write_digits(frame: &[u8], line: &mut Vec<u8>) -> Result<(), AllocError>
    ensures { OnOk result (line.new.items ≡ encode_lower frame.now ++ 10 ∷ []) }
{
    line.clear();
    line.resize(frame.len() * 2, 0)?;
    let _ = hex::encode_to_slice(frame, line.as_mut_slice());
    line.push(b'\n')?;
    Ok(())
}

/// A link whose client writes and reads hexadecimal digits. Each line of the input spells a piece of the stream, and an
/// empty line an empty piece. Each reply is a line.
#[derive(Drop)]
pub struct HexLink<I: BufRead, O: Write> {
    reader: I,
    writer: O,
    /// How many lines were read.
    lines: u64,
    /// The line that was read, or that is written.
    line: Vec<u8>,
    /// The bytes of the last line. Those before `start` were returned already.
    piece: Vec<u8>,
    start: usize,
    cause: Option<Fault>,
    /// How many of its calls have failed.
    failures: u64,
}

impl<I: BufRead, O: Write> Model for HexLink<I, O> {
    ghost use Rattle.std.specs.Prelude.{◌≤◌, length, drop};
    ghost use Rattle.mirrord_sessions.specs.Lines.{Hexing};

    ghost Value = { Hexing };

    ghost view = { λ l. record {
      lines = l.lines;
      kept = drop l.start l.piece.items;
      input = I.remaining l.reader;
      output = O.contents l.writer;
      cause = l.cause;
      failures = l.failures;
    } };

    ghost invariant = { λ l. l.start ≤ length l.piece.items };
}

impl<I: BufRead, O: Write> HexLink<I, O> {
    /// A link on which no line was read or written yet.
    pub fn new(alloc: Global, reader: I, writer: O) -> HexLink<I, O>
        ensures { result ≡ unread (I.remaining reader) (O.contents writer) }
    {
        HexLink {
            reader,
            writer,
            lines: 0,
            line: Vec::new(alloc),
            piece: Vec::new(alloc),
            start: 0,
            cause: None,
            failures: 0,
        }
    }

    /// Why the link is broken.
    pub fn cause(&self) -> Option<Fault>
        ensures { result ≡ self.now.cause }
    {
        self.cause
    }

    // Counts one more failure.
    fn fail(&mut self, fault: Fault)
        ensures { self.new ≡ record self.old { cause = Some fault; failures = counted self.old.failures 1 } }
    {
        self.cause = Some(fault);
        self.failures = self.failures.saturating_add(1);
    }

    // Keeps the bytes of the next line. False means that there is none.
    fn read_piece(&mut self) -> Result<bool, Fault>
        requires { self.old.kept ≡ [] }
        ensures more { IfOk result (λ more. more ≡ true → ReadsLine self.old self.new) }
        ensures end { IfOk result (λ more. more ≡ false → IsAtEnd self.old.input
            × (self.new ≡ record self.old { kept = []; input = self.new.input })) }
        ensures cause { IfErr result (Explains self.old self.new) }
        ensures others { OnErr result (self.new ≡ record self.old { lines = self.new.lines; kept = []; input = self.new.input }) }
    {
        if !read_line(&mut self.reader, &mut self.line)? {
            return Ok(false);
        }
        self.lines = self.lines.saturating_add(1);
        self.start = 0;
        match spell(&self.line, &mut self.piece) {
            Ok(()) => Ok(true),
            Err(error) => {
                self.piece.clear();
                Err(match error {
                    FromHexError::OutOfMemory => Fault::Memory,
                    _ => Fault::Line { line: self.lines },
                })
            }
        }
    }

    // Copies as many of the kept bytes as fit.
    fn hand_out(&mut self, room: &mut [u8]) -> usize
        ensures within { result ≤ length room.new }
        ensures bytes { HandsOut self.old result (take result room.new) self.new }
    {
        let kept = &self.piece[self.start..];
        let count = kept.len().min(room.len());
        room[..count].copy_from_slice(&kept[..count]);
        self.start += count;
        count
    }

    fn write_line(&mut self, frame: &[u8]) -> Result<(), Fault>
        ensures ok { OnOk result (Appends self.old.output self.new.output (line frame.now)) }
        ensures part { AppendsPart self.old.output self.new.output (line frame.now) }
        ensures stays { self.new ≡ record self.old { output = self.new.output } }
        ensures cause { IfErr result IsOfWriting }
    {
        write_digits(frame, &mut self.line)?;
        write_flushed(&mut self.writer, &self.line)?;
        Ok(())
    }
}

impl<I: BufRead + Drop, O: Write> HexLink<I, O> {
    /// Returns the writer.
    pub fn into_writer(self) -> O
        ensures { O.contents result ≡ self.output }
    {
        let HexLink {
            reader: _,
            writer,
            lines: _,
            line: _,
            piece: _,
            start: _,
            cause: _,
            failures: _,
        } = self;
        writer
    }
}

impl<I: BufRead, O: Write> LinkIn for HexLink<I, O> {
    ghost use Rattle.mirrord_sessions.specs.CountingLemmas.{receives_counted};

    ghost receives = { Receives };

    ghost failed_receives = { λ l. l.failures };

    ghost counts_receives = { receives_counted };

    fn receive(&mut self, room: &mut [u8]) -> Received {
        if self.start == self.piece.len() {
            match self.read_piece() {
                Ok(true) => {}
                Ok(false) => return Received::End,
                Err(fault) => {
                    self.fail(fault);
                    return Received::Broken;
                }
            }
        }
        Received::Bytes(self.hand_out(room))
    }
}

impl<I: BufRead, O: Write> LinkOut for HexLink<I, O> {
    ghost use Rattle.mirrord_sessions.specs.CountingLemmas.{sends_counted};

    ghost sends = { Sends };

    ghost failed_sends = { λ l. l.failures };

    ghost counts_sends = { sends_counted };

    fn send(&mut self, frame: &[u8]) -> Sent {
        match self.write_line(frame) {
            Ok(()) => Sent::Taken,
            Err(fault) => {
                self.fail(fault);
                Sent::Broken
            }
        }
    }
}

impl<I: BufRead, O: Write> Link for HexLink<I, O> {
    ghost use Rattle.std.specs.Prelude.{refl};

    ghost one_count = { λ _. refl };
}
