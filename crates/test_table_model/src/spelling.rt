//! Comparing names with texts.

use paths::Name;

/// Whether these are the names.
pub fn spells(names: &[Name], said: &[&str]) -> bool {
    if names.len() != said.len() {
        return false;
    }
    for (name, text) in names.iter().zip(said) {
        if name.as_bytes() != text.as_bytes() {
            return false;
        }
    }
    true
}
