//! What a session serves.

/// A directory, and the open folders of the session.
#[derive(Drop)]
pub struct Served<C, D> {
    pub calls: C,
    pub dirs: D,
}
