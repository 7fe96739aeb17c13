//! A path of two names.

ghost use Rattle.std.specs.Prelude.{◌≡◌, IfOk, length};

use crate::spelling::spells;
use paths::{Name, Path};
use std::alloc::{AllocError, Global};
use std::test::Fail;

/// The path of two names, the second of which is a copy.
fn two_names(alloc: Global) -> Result<Path, AllocError>
    ensures { IfOk result (λ p. length p ≡ 2) }
{
    let mut names = Vec::new(alloc);
    names.push(Name::from_text(alloc, "folder")?)?;
    names.push(Name::from_text(alloc, "x")?.copy()?)?;
    Path::from_names(names)
}

/// Whether the name and its copy have these bytes.
fn keeps(alloc: Global, bytes: &[u8]) -> Result<bool, AllocError> {
    let name = Name::copy_of(alloc, bytes)?;
    let copy = name.copy()?;
    Ok(
        name.as_bytes() == bytes
            && copy.as_bytes() == bytes
            && copy.is(&name)
            && name.len() == bytes.len()
            && copy.len() == bytes.len(),
    )
}

/// Whether each of these is kept as it came.
fn keeps_all(alloc: Global, rows: &[&[u8]]) -> Result<bool, AllocError> {
    for bytes in rows {
        if !keeps(alloc, bytes)? {
            return Ok(false);
        }
    }
    Ok(true)
}

/// Whether the two are different names.
fn differ(alloc: Global, one: &[u8], other: &[u8]) -> Result<bool, AllocError> {
    let one = Name::copy_of(alloc, one)?;
    let other = Name::copy_of(alloc, other)?;
    Ok(!one.is(&other) && one != other)
}

/// Whether the text is the name with these bytes.
fn is_text(alloc: Global, text: &str, bytes: &[u8]) -> Result<bool, AllocError> {
    let name = Name::copy_of(alloc, bytes)?;
    let text = Name::from_text(alloc, text)?;
    Ok(text.is(&name))
}

/// 73 bytes.
const LONG: &[u8] = b"abcdefghijklmnopqrstuvwxyz-abcdefghijklmnopqrstuvwxyz-abcdefghijklmnopqrs";

#[test]
fn a_name_of_each_form_is_spelt_as_it_came(rt: HostRuntime) -> Result<(), Fail> {
    // 22 bytes are stored in the name itself, and 72 in one allocation of fixed size.
    let (short, longer) = (&LONG[..22], &LONG[..23]);
    let kept = keeps_all(rt.alloc(), &[b"", short, longer, &LONG[..72], LONG])?;
    let apart = differ(rt.alloc(), short, longer)?;
    assert!(rt; kept && apart);
    Ok(())
}

/// Names that are no UTF-8 are kept as they came too, and differ where one byte does.
#[test]
fn a_name_has_any_bytes(rt: HostRuntime) -> Result<(), Fail> {
    let kept = keeps_all(
        rt.alloc(),
        &[
            b"\xff",
            b"\xc3(\x80\x01/\0",
            &[0xff; 23],
            &[0x80; 255],
            b"a\xff",
        ],
    )?;
    let apart = differ(rt.alloc(), b"a\xff", b"a\xfe")?;
    let same = is_text(rt.alloc(), "\u{e4}", b"\xc3\xa4")?;
    assert!(rt; kept && apart && same);
    Ok(())
}

/// Two names that differ in one byte or by one more, at each end of the words by which short names are compared, and the first eight bytes of
/// each as a number.
const APART: [(&[u8], u64, &[u8], u64); 7] = [
    (b"", 0, b"\0", 0),
    (b"a", 0x6100_0000_0000_0000, b"a\0", 0x6100_0000_0000_0000),
    (
        b"abcdefgh",
        0x6162_6364_6566_6768,
        b"abcdefgi",
        0x6162_6364_6566_6769,
    ),
    (
        b"abcdefgh",
        0x6162_6364_6566_6768,
        b"abcdefghi",
        0x6162_6364_6566_6768,
    ),
    (
        b"abcdefghijklmnop",
        0x6162_6364_6566_6768,
        b"abcdefghijklmnoq",
        0x6162_6364_6566_6768,
    ),
    (
        b"abcdefghijklmnopqrstuv",
        0x6162_6364_6566_6768,
        b"abcdefghijklmnopqrstuw",
        0x6162_6364_6566_6768,
    ),
    (
        b"\xffbcdefghijklmnopqrstuvw",
        0xff62_6364_6566_6768,
        b"\xfebcdefghijklmnopqrstuvw",
        0xfe62_6364_6566_6768,
    ),
];

/// Whether both are names of their own, with these numbers.
fn are_apart(
    alloc: Global,
    (one, first): (&[u8], u64),
    (other, second): (&[u8], u64),
) -> Result<bool, AllocError> {
    let one = Name::copy_of(alloc, one)?;
    let other = Name::copy_of(alloc, other)?;
    let is_each = one.is(&one) && other == other && !one.is(&other) && other != one;
    Ok(is_each && one.leading() == first && other.leading() == second)
}

#[test]
fn names_that_differ_in_one_byte_are_apart(rt: HostRuntime) -> Result<(), Fail> {
    for (place, (one, first, other, second)) in APART.iter().enumerate() {
        if !are_apart(rt.alloc(), (one, *first), (other, *second))? {
            return Err(Fail::from(("not apart", place)));
        }
    }
    Ok(())
}

/// How many names the path and how many bytes it has, and whether its copy is the same and has these names.
fn tell_two(alloc: Global) -> Result<(usize, Option<usize>, bool), AllocError> {
    let path = two_names(alloc)?;
    let copy = path.copy()?;
    let same = copy.is(&path) && spells(copy.names(), &["folder", "x"]);
    Ok((path.len(), path.bytes(), same))
}

#[test]
fn two_names_make_a_path(rt: HostRuntime) -> Result<(), Fail> {
    let told = tell_two(rt.alloc())?;
    assert_eq!(rt; told, (2, Some(9), true));
    Ok(())
}

/// The folder's path, the root's, and that of the names of the folder and then those of the path.
fn prefixes_of(alloc: Global) -> Result<(Path, Path, Path), AllocError> {
    let path = two_names(alloc)?;
    let folder = path.prefix(1)?;
    let root = folder.prefix(0)?;
    let below = Path::joined(alloc, folder.names(), path.names())?;
    Ok((folder, root, below))
}

/// Whether these are prefixes of one another just as they should be, and have the right names.
fn are_nested(folder: &Path, root: &Path, below: &Path) -> bool {
    root.is_prefix_of(below)
        && folder.is_prefix_of(below)
        && !below.is_prefix_of(folder)
        && spells(folder.names(), &["folder"])
        && spells(below.names(), &["folder", "folder", "x"])
}

fn lengths(path: &Path) -> (usize, Option<usize>) {
    (path.len(), path.bytes())
}

/// The lengths of the three paths, and whether they are nested, after the path that they come from was dropped.
fn tell_prefixes(alloc: Global) -> Result<([(usize, Option<usize>); 3], bool), AllocError> {
    let (folder, root, below) = prefixes_of(alloc)?;
    Ok((
        [lengths(&folder), lengths(&root), lengths(&below)],
        are_nested(&folder, &root, &below),
    ))
}

#[test]
fn prefixes_and_copies_are_paths_of_their_own(rt: HostRuntime) -> Result<(), Fail> {
    let told = tell_prefixes(rt.alloc())?;
    assert_eq!(rt; told, ([(1, Some(7)), (0, Some(0)), (3, Some(16))], true));
    Ok(())
}
