//! The way to a folder that may be entered and not read.

ghost use Rattle.std.specs.Prelude.{◌≡◌, ◌≢◌, ◌++◌, All, IfOk, box_value, codes};
ghost use Rattle.disk.specs.Names.{IsLawfulName};
ghost use Rattle.linux_disk.specs.Ways.{IsWay, way_in};

use crate::page::Page;
use disk::DiskError;
use errno::{ENAMETOOLONG, ENOMEM};
use std::alloc::Global;
use std::marker::Model;

/// Names of folders, each with a slash behind it, below one that is open. Contracts see the text.
#[derive(Drop)]
pub struct Way {
    text: Box<Page>,
}

impl Model for Way {
    ghost use Rattle.std.specs.Prelude.{ℕ, List, box_value};
    ghost use Rattle.linux_disk.specs.Ways.{IsWay};

    ghost Value = { List ℕ };

    ghost view = { λ w. box_value w.text };

    ghost invariant = { λ w. IsWay (box_value w.text) };
}

impl Way {
    /// The way on into the folder with that name. It has at most 4,094 bytes (else ENAMETOOLONG, own), and takes a page of memory (ENOMEM, own).
    pub fn into(alloc: Global, above: &Option<Way>, name: &[u8]) -> Result<Way, DiskError>
        requires { IsLawfulName name.now }
        ensures { IfOk result (λ way. way ≡ way_in above.now ++ (name.now ++ codes "/")) }
    {
        let mut text = begin(alloc, above)?;
        if text.push(name) && text.push(b"/") {
            Ok(Way { text })
        } else {
            Err(DiskError::Failed(ENAMETOOLONG))
        }
    }

    /// The text.
    pub fn text(&self) -> &[u8]
        ensures text { result.now ≡ self.now }
        ensures plain { All (λ byte. byte ≢ 0) result.now }
        ensures leads { IsWay result.now }
    {
        self.text.text()
    }
}

/// A text of its own, of the way so far.
fn begin(alloc: Global, above: &Option<Way>) -> Result<Box<Page>, DiskError>
    ensures text { IfOk result (λ text. box_value text ≡ way_in above.now) }
    ensures leads { IfOk result (λ text. IsWay (box_value text)) }
{
    let Ok(mut text) = Box::new(alloc, Page::new()) else {
        return Err(DiskError::Failed(ENOMEM));
    };
    match above {
        None => Ok(text),
        Some(above) => {
            if text.push(above.text()) {
                Ok(text)
            } else {
                Err(DiskError::Failed(ENAMETOOLONG))
            }
        }
    }
}
