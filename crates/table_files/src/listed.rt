//! Open files as a list, sorted by handle.

ghost use Rattle.std.specs.Prelude.{true, false, ◌≡◌, ◌<◌, ◌≤◌, ℕ, AllPairs, None, IfNone, IfSome, length, slice_index_or};
ghost use Rattle.table_files.specs.declared.listed.OpenEntry.{OpenEntry};
ghost use Rattle.table_files.specs.OpenEntry.{file_in};

use crate::data::OpenFile;

/// A file with its handle.
#[derive(Clone, Copy, Debug, PartialEq, Eq)]
pub struct OpenEntry {
    pub handle: u64,
    pub file: OpenFile,
}

/// How many files have a smaller handle. It is a binary search.
fn place_for(files: &[OpenEntry], handle: u64) -> usize
    requires { AllPairs (λ (f g : OpenEntry). f.handle < g.handle) files.now }
    ensures within { result ≤ length files.now }
    ensures below { (k : ℕ) (d : OpenEntry) → k < result → (slice_index_or files.now k d).handle < handle }
    ensures above { (k : ℕ) (d : OpenEntry) → result ≤ k → k < length files.now → handle ≤ (slice_index_or files.now k d).handle }
{
    files.partition_point(|f| f.handle < handle)
}

/// The index of the handle in the list.
pub fn index_of(files: &[OpenEntry], handle: u64) -> Option<usize>
    requires { AllPairs (λ (f g : OpenEntry). f.handle < g.handle) files.now }
    ensures none { IfNone result (file_in files.now handle ≡ None) }
    ensures within { IfSome result (λ i. i < length files.now) }
    ensures found { IfSome result (λ i. (d : OpenEntry) → (slice_index_or files.now i d).handle ≡ handle) }
{
    let i = place_for(files, handle);
    if i < files.len() && files[i].handle == handle {
        Some(i)
    } else {
        None
    }
}
