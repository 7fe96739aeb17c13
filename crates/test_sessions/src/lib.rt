//! Tests across the crates: whole sessions, with all bytes taken from the description of the protocol, and command lines.
#![tactic(auto)]

#[cfg(test)]
mod attribute_words;
#[cfg(test)]
mod batches;
#[cfg(test)]
mod entry_lines;
#[cfg(test)]
mod exchange_frames;
#[cfg(test)]
mod file_frames;
#[cfg(test)]
mod folder_lines;
#[cfg(test)]
mod frames;
#[cfg(test)]
mod greetings;
#[cfg(test)]
mod hidden_frames;
#[cfg(test)]
mod host_frames;
#[cfg(test)]
mod lines;
#[cfg(test)]
mod link_frames;
#[cfg(test)]
mod lookups;
#[cfg(test)]
mod names;
#[cfg(test)]
mod open_folders;
#[cfg(test)]
mod recorded;
#[cfg(test)]
mod refused_words;
#[cfg(test)]
mod row;
#[cfg(test)]
mod runs;
#[cfg(test)]
mod sampled;
#[cfg(test)]
mod untaken;
#[cfg(test)]
mod words;
