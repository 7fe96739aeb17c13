//! Tests of the parts below the engine: the frames of `wire`, the open folders of `handles`, and the scripts of `ops`. This crate has only
//! tests.
#![tactic(auto)]

#[cfg(test)]
mod open_folders;
#[cfg(test)]
mod protocol;
#[cfg(test)]
mod scripts;
