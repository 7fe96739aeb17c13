//! An open file that one handle has, or several.

ghost use Rattle.std.specs.Prelude.{◌≡◌};
ghost use Rattle.linux_disk.specs.Held.{held_value};

use std::sync::Arc;

/// An open file, or the last handle's share of one.
#[derive(Drop)]
pub enum Held<F> {
    Own(F),
    Shared(Arc<F>),
}

impl<F> Held<F> {
    /// What is open.
    pub fn get(&self) -> &F
        ensures { result.now ≡ held_value self.now }
    {
        match self {
            Held::Own(fd) => fd,
            Held::Shared(fd) => fd,
        }
    }
}
