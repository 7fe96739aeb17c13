//! What is asked as words, and answers as text.

ghost use Rattle.std.specs.Prelude.{IfOk, IfSome, IsTrue};
ghost use Rattle.disk.specs.Names.{IsLawfulName, IsLinkText};

use backing::NewTime;
use disk::{Change, DiskError, Stat, is_lawful};
use paths::Name;
use payload::{Kind, Special, Time};
use std::alloc::{AllocError, Global};
use std::str;

/// So many words may be asked.
pub const WORDS: usize = 6;

/// The words of the text, with nothing behind the last one.
pub fn words_of(text: &str) -> [&str; WORDS] {
    let mut words = [""; WORDS];
    let mut place = 0usize;
    for word in text.split(' ') {
        if place < WORDS {
            words[place] = word;
            place += 1;
        }
    }
    words
}

pub fn number(text: &str) -> u64 {
    text.parse::<u64>().unwrap_or(0)
}

/// The octal number, or none at `-`.
pub fn octal(text: &str) -> Option<u32> {
    u32::from_str_radix(text, 8).ok()
}

fn owner(text: &str) -> Option<u32> {
    text.parse::<u32>().ok()
}

/// `now`, `-`, or seconds that may be below 0, a full stop and nanoseconds.
fn time(text: &str) -> Option<NewTime> {
    if text == "now" {
        return Some(NewTime::Now);
    }
    let (seconds, nanos) = text.split_once('.')?;
    let seconds = seconds.parse::<i64>().ok()?;
    let nanos = nanos.parse::<u32>().ok()?;
    Some(NewTime::At(Time {
        seconds: seconds.cast_unsigned(),
        nanos,
    }))
}

/// What the words behind the first ones say is to be set.
pub fn change_of(what: &str, first: &str, second: &str) -> Change {
    match what {
        "owner" => Change::Owner {
            uid: owner(first),
            gid: owner(second),
        },
        "times" => Change::Times {
            accessed: time(first),
            modified: time(second),
        },
        _ => Change::Permissions(octal(first).unwrap_or(0)),
    }
}

/// Before the digits of a name that is no text, two for each byte.
const SPELT: &str = "x:";

/// The bytes that the digits spell.
fn spelt(alloc: Global, digits: &str) -> Result<Vec<u8>, AllocError> {
    let mut bytes = Vec::new(alloc);
    let mut high = None;
    for digit in digits.chars() {
        let value = (digit.to_digit(16).unwrap_or(0) % 16) as u8;
        match high {
            None => high = Some(value),
            Some(first) => {
                bytes.push(first % 16 * 16 + value)?;
                high = None;
            }
        }
    }
    Ok(bytes)
}

/// The name as a word: itself, or if it is no text its bytes in digits.
pub fn name_text(alloc: Global, name: &Name) -> Result<String, AllocError> {
    if let Ok(text) = str::from_utf8(name.as_bytes()) {
        return String::from_str(alloc, text);
    }
    let mut text = String::from_str(alloc, SPELT)?;
    for byte in name.as_bytes() {
        text.push_str(format!(in alloc; "{byte:02x}")?.as_str())?;
    }
    Ok(text)
}

/// The name, if a folder can hold it.
pub fn name_of(alloc: Global, text: &str) -> Result<Option<Name>, AllocError>
    ensures { IfOk result (λ found. IfSome found (λ name. IsLawfulName name)) }
{
    let name = match text.strip_prefix(SPELT) {
        Some(digits) => Name::copy_of(alloc, &spelt(alloc, digits)?)?,
        None => Name::from_text(alloc, text)?,
    };
    if is_lawful(name.as_bytes()) {
        Ok(Some(name))
    } else {
        Ok(None)
    }
}

/// Whether a link can have that text.
pub fn is_link_text(text: &[u8]) -> bool
    ensures { IsTrue result → IsLinkText text.now }
{
    !text.is_empty() && text.len() < 4_096 && text.iter().all(|byte| *byte != 0)
}

/// Where the link leads.
pub fn target_text(alloc: Global, told: Result<Vec<u8>, DiskError>) -> Result<String, AllocError> {
    match told {
        Ok(target) => match str::from_utf8(target.as_slice()) {
            Ok(text) => format!(in alloc; "to {text}"),
            Err(_) => String::from_str(alloc, "no text"),
        },
        Err(error) => error_text(alloc, error),
    }
}

pub fn error_text(alloc: Global, error: DiskError) -> Result<String, AllocError> {
    match error {
        DiskError::Failed(errno) => format!(in alloc; "failed {errno}"),
        other => format!(in alloc; "{other:?}"),
    }
}

/// `done`, or why not.
pub fn done_text(alloc: Global, told: Result<(), DiskError>) -> Result<String, AllocError> {
    match told {
        Ok(()) => String::from_str(alloc, "done"),
        Err(error) => error_text(alloc, error),
    }
}

/// The kind, the size, of a device its number in place of that, and the permission bits.
pub fn stat_text(alloc: Global, told: Result<Stat, DiskError>) -> Result<String, AllocError> {
    let stat = match told {
        Ok(stat) => stat,
        Err(error) => return error_text(alloc, error),
    };
    let Some(kind) = stat.kind else {
        return String::from_str(alloc, "other");
    };
    let (kind, size) = kind_text(kind, stat.size);
    format!(in alloc; "{kind} {size} {:o}", stat.details.permissions)
}

fn kind_text(kind: Kind, size: u64) -> (&'static str, u64) {
    match kind {
        Kind::Folder => ("folder", size),
        Kind::File => ("file", size),
        Kind::Link => ("link", size),
        Kind::Special(Special::Pipe) => ("pipe", size),
        Kind::Special(Special::Socket) => ("socket", size),
        Kind::Special(Special::Character(device)) => ("character", u64::from(device)),
        Kind::Special(Special::Block(device)) => ("block", u64::from(device)),
    }
}

/// Whether both looks are at one file, and how many names it has.
pub fn same_text(
    alloc: Global,
    one: Result<Stat, DiskError>,
    other: Result<Stat, DiskError>,
) -> Result<String, AllocError> {
    match (one, other) {
        (Ok(one), Ok(other)) => {
            if one.id.is(&other.id) && one.details.ino == other.details.ino {
                format!(in alloc; "one of {}", other.details.links)
            } else {
                String::from_str(alloc, "two")
            }
        }
        (Err(error), _) => error_text(alloc, error),
        (_, Err(error)) => error_text(alloc, error),
    }
}

/// When it was last read and last changed, as `time` takes it.
pub fn times_text(alloc: Global, told: Result<Stat, DiskError>) -> Result<String, AllocError> {
    match told {
        Ok(stat) => {
            let read = stat.details.accessed;
            let changed = stat.details.modified;
            format!(in alloc;
                "{}.{} {}.{}",
                read.seconds.cast_signed(),
                read.nanos,
                changed.seconds.cast_signed(),
                changed.nanos
            )
        }
        Err(error) => error_text(alloc, error),
    }
}
