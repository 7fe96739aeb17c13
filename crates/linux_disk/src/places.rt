//! The texts that are handed to the system.

ghost use Rattle.std.specs.Prelude.{◌≡◌, ◌≢◌, ◌++◌, All, IsTrue, OnOk};
ghost use Rattle.std.specs.Fmt.{decimal};
ghost use Rattle.disk.specs.Names.{IsLawfulName};
ghost use Rattle.linux_disk.specs.Places.{way_to};

use crate::page::Page;
use disk::DiskError;
use errno::ENAMETOOLONG;
use itoa::Buffer;

/// Adds the number to the text, as the system spells a descriptor's.
pub fn push_number(page: &mut Page, number: u32) -> bool
    ensures { IsTrue result → page.new ≡ page.old ++ decimal number }
{
    let mut buffer = Buffer::new();
    let text = buffer.format(number);
    page.push(text.as_bytes())
}

/// The text becomes one name, of at most 4,094 bytes (else ENAMETOOLONG, own).
pub fn name_alone(page: &mut Page, name: &[u8]) -> Result<(), DiskError>
    requires { IsLawfulName name.now }
    ensures { OnOk result (page.new ≡ name.now) }
{
    page.clear();
    if page.push(name) {
        Ok(())
    } else {
        Err(DiskError::Failed(ENAMETOOLONG))
    }
}

/// The text becomes the guard, and then one name in the folder that is open under that number.
pub fn place(page: &mut Page, guard: &[u8], number: u32, name: &[u8]) -> Result<(), DiskError>
    requires guard { All (λ byte. byte ≢ 0) guard.now }
    requires name { IsLawfulName name.now }
    ensures { OnOk result (page.new ≡ guard.now ++ (way_to number ++ name.now)) }
{
    page.clear();
    if page.push(guard) && push_number(page, number) && page.push(b"/") && page.push(name) {
        Ok(())
    } else {
        Err(DiskError::Failed(ENAMETOOLONG))
    }
}

/// The text becomes the guard, and then the way from the folder that is open under that number.
pub fn place_way(page: &mut Page, guard: &[u8], number: u32, way: &[u8]) -> Result<(), DiskError>
    requires guard { All (λ byte. byte ≢ 0) guard.now }
    requires way { All (λ byte. byte ≢ 0) way.now }
    ensures { OnOk result (page.new ≡ guard.now ++ (way_to number ++ way.now)) }
{
    page.clear();
    if page.push(guard) && push_number(page, number) && page.push(b"/") && page.push(way) {
        Ok(())
    } else {
        Err(DiskError::Failed(ENAMETOOLONG))
    }
}

/// The same, and then one name there.
pub fn place_below(
    page: &mut Page,
    guard: &[u8],
    number: u32,
    way: &[u8],
    name: &[u8],
) -> Result<(), DiskError>
    requires guard { All (λ byte. byte ≢ 0) guard.now }
    requires way { All (λ byte. byte ≢ 0) way.now }
    requires name { IsLawfulName name.now }
    ensures { OnOk result (page.new ≡ guard.now ++ (way_to number ++ (way.now ++ name.now))) }
{
    place_way(page, guard, number, way)?;
    if page.push(name) {
        Ok(())
    } else {
        Err(DiskError::Failed(ENAMETOOLONG))
    }
}
