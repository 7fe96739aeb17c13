//! Limits of a session's open folders.

ghost use Rattle.std.specs.Prelude.{◌≡◌};

/// The maximum number of folders that are open at once.
pub const MAX_OPEN_FOLDERS: u64 = 4_096;

/// The maximum number of names in all open folders, including `.` and `..` of each.
pub const MAX_KEPT_NAMES: u64 = 1_048_576;

/// Limits of a session's open folders.
#[derive(Clone, Copy, Debug, PartialEq, Eq)]
pub struct FolderLimits {
    /// Folders that are open at once.
    pub folders: u64,
    /// Names in all of them, including `.` and `..` of each.
    pub names: u64,
}

impl Default for FolderLimits {
    ghost is_default = { λ l. l ≡ record { folders = 4096; names = 1048576 } };

    fn default() -> FolderLimits {
        FolderLimits {
            folders: MAX_OPEN_FOLDERS,
            names: MAX_KEPT_NAMES,
        }
    }
}
