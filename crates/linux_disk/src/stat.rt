//! What a look tells.

ghost use Rattle.std.specs.Prelude.{◌≡◌, IfOk};
ghost use Rattle.linux_disk.specs.Stats.{AreShown, details_of, device_of, kind_of, shown, size_of, stat_of, time_of};

use crate::page::Page;
use crate::returned::expect_done;
use crate::unfilled::new_statx;
use disk::{DiskError, FileId, Stat};
use libc::types::{statx, statx_timestamp};
use payload::{Details, Kind, Special, Time};
use terms::Kinds;

/// The bits of a mode that are permission bits.
pub const PERMISSION_BITS: u32 = 0o7777;

/// So many minor numbers a device's major number may have.
const DEVICE_STEP: u64 = 0x1_0000_0000;

/// Where the higher bits of a minor number stand in the number of a device.
const MINOR_STEP: u32 = 0x10_0000;

/// What the system told, as far as it is shown.
pub fn stat_of(kinds: Kinds, told: &statx) -> Stat
    ensures { result ≡ stat_of kinds told.now }
{
    let device = device_of(told.stx_rdev_major, told.stx_rdev_minor);
    let kind = shown(kinds, kind_of(told.stx_mode, device));
    Stat {
        kind,
        id: FileId {
            device: u64::from(told.stx_dev_major) * DEVICE_STEP + u64::from(told.stx_dev_minor),
            inode: told.stx_ino,
        },
        size: size_of(kind, told.stx_size),
        details: details_of(told),
    }
}

/// By the bits of the mode that say the kind, and the number that a device has.
fn kind_of(mode: u16, device: u32) -> Option<Kind>
    ensures { result ≡ kind_of mode device }
{
    match u32::from(mode) & libc::S_IFMT {
        libc::S_IFDIR => Some(Kind::Folder),
        libc::S_IFREG => Some(Kind::File),
        libc::S_IFLNK => Some(Kind::Link),
        libc::S_IFIFO => Some(Kind::Special(Special::Pipe)),
        libc::S_IFSOCK => Some(Kind::Special(Special::Socket)),
        libc::S_IFCHR => Some(Kind::Special(Special::Character(device))),
        libc::S_IFBLK => Some(Kind::Special(Special::Block(device))),
        _ => None,
    }
}

/// A device's two numbers in one, as Linux's `new_encode_dev` has them: the lowest byte of the minor one, then the twelve bits of the
/// major one, and then the minor one's other twelve.
fn device_of(major: u32, minor: u32) -> u32
    ensures { result ≡ device_of major minor }
{
    minor % 256 + major % 4_096 * 256 + minor / 256 % 4_096 * MINOR_STEP
}

/// What is shown of what stands there: with `Plain` nothing but files and folders.
fn shown(kinds: Kinds, kind: Option<Kind>) -> Option<Kind>
    ensures { result ≡ shown kinds kind }
{
    match kinds {
        Kinds::All => kind,
        Kinds::Plain => match kind {
            Some(Kind::Folder) => Some(Kind::Folder),
            Some(Kind::File) => Some(Kind::File),
            Some(Kind::Link | Kind::Special(_)) | None => None,
        },
    }
}

/// A folder has none.
fn size_of(kind: Option<Kind>, size: u64) -> u64
    ensures { result ≡ size_of kind size }
{
    match kind {
        Some(Kind::Folder) => 0,
        Some(Kind::File | Kind::Link | Kind::Special(_)) | None => size,
    }
}

fn details_of(told: &statx) -> Details
    ensures { result ≡ details_of told.now }
{
    Details {
        ino: told.stx_ino,
        permissions: u32::from(told.stx_mode) & PERMISSION_BITS,
        links: told.stx_nlink,
        uid: told.stx_uid,
        gid: told.stx_gid,
        accessed: time_of(&told.stx_atime),
        modified: time_of(&told.stx_mtime),
        changed: time_of(&told.stx_ctime),
    }
}

fn time_of(time: &statx_timestamp) -> Time
    ensures { result ≡ time_of time.now }
{
    Time {
        seconds: time.tv_sec.cast_unsigned(),
        nanos: time.tv_nsec,
    }
}

/// What stands at the name, or what is open where there is none: one `statx`.
pub fn look(kinds: Kinds, dir: i32, name: &Page, flags: i32) -> Result<Stat, DiskError>
    ensures { IfOk result (λ stat. AreShown kinds stat.kind) }
{
    let mut told = new_statx();
    let ret = unsafe {
        libc::statx(
            dir,
            name.c_string(),
            flags,
            libc::STATX_BASIC_STATS,
            &mut told,
        )
    };
    expect_done(ret)?;
    Ok(stat_of(kinds, &told))
}
