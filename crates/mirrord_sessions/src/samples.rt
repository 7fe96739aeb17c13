//! The tree that `hex` serves.

ghost use Rattle.std.specs.Prelude.{◌≡◌, [], ◌∷◌, IfOk};
ghost use Rattle.mirrord_sessions.specs.Samples.{IsStart};

use backing::MemTree;
use paths::{Name, Path};
use std::alloc::{AllocError, Global};

/// The path of a name in the root.
fn in_root(alloc: Global, name: &str) -> Result<Path, AllocError>
    ensures { IfOk result (λ path. path ≡ name.now ∷ []) }
{
    let mut names = Vec::new(alloc);
    names.push(Name::from_text(alloc, name)?)?;
    Path::from_names(names)
}

/// A root, which if samples are asked for has the file `a` containing `abc`, the folder `d` and the empty file `e`.
pub fn new_tree(alloc: Global, sample: bool) -> Result<MemTree, AllocError>
    ensures { IfOk result (λ tree. IsStart sample tree) }
{
    let mut tree = MemTree::new(alloc);
    if !sample {
        return Ok(tree);
    }
    let a = in_root(alloc, "a")?;
    let d = in_root(alloc, "d")?;
    let e = in_root(alloc, "e")?;
    // Nothing is at that path yet, so only memory can be refused.
    let Ok(()) = tree.put_file(&a, b"abc") else {
        return Err(AllocError);
    };
    let Ok(()) = tree.put_dir(&d) else {
        return Err(AllocError);
    };
    let Ok(()) = tree.put_file(&e, b"") else {
        return Err(AllocError);
    };
    Ok(tree)
}
