//! The prefixes of a path.

ghost use Rattle.std.specs.Prelude.{◌≡◌, ◌++◌, IfOk, OnOk};
ghost use Rattle.paths.specs.Prefixes.{prefixes as prefixes_in};
ghost use Rattle.holds.specs.Conflicts.{ArePrefixes};

use crate::held::Paths;
use paths::Path;
use std::alloc::{AllocError, Global};

/// All prefixes of the path except the empty one, with the path itself last. They share its names.
pub fn prefixes_of(alloc: Global, path: &Path) -> Result<Paths, AllocError>
    ensures whole { IfOk result (λ ps. ps ≡ prefixes_in path.now) }
    ensures set { IfOk result (λ ps. ArePrefixes ps path.now) }
{
    let mut prefixes = Paths::new();
    push_prefixes(alloc, &mut prefixes, path)?;
    Ok(prefixes)
}

/// Appends all prefixes of the path except the empty one, with the path itself last.
pub fn push_prefixes(alloc: Global, paths: &mut Paths, path: &Path) -> Result<(), AllocError>
    ensures { OnOk result (paths.new ≡ paths.old ++ prefixes_in path.now) }
{
    paths.reserve(alloc, path.len())?;
    for i in 0..path.len() {
        paths.push(alloc, path.prefix(i + 1)?)?;
    }
    Ok(())
}
