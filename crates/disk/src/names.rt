//! Names that a folder can hold.

ghost use Rattle.std.specs.Prelude.{◌↔◌, IsTrue};
ghost use Rattle.disk.specs.Names.{IsLawfulName, IsPlain};

/// Whether a folder can hold that name: it is not empty, not `.` or `..`, and has neither `/` nor NUL.
pub fn is_lawful(name: &[u8]) -> bool
    ensures { IsTrue result ↔ IsLawfulName name.now }
{
    if name.is_empty() {
        return false;
    }
    if name == b".".as_slice() {
        return false;
    }
    if name == b"..".as_slice() {
        return false;
    }
    is_plain(name)
}

/// Whether no byte is a slash or NUL.
fn is_plain(name: &[u8]) -> bool
    ensures { IsTrue result ↔ IsPlain name.now }
{
    name.iter().all(|byte| *byte != b'/' && *byte != 0)
}
