//! Tests across the crates: requests one after another, with the reply to each and what is in the folder at the end; and links over streams
//! and over a device (`streams`).
#![tactic(auto)]

#[cfg(test)]
mod answers;
#[cfg(test)]
mod attributes;
#[cfg(test)]
mod batches;
#[cfg(test)]
mod byte_names;
#[cfg(test)]
mod entries;
#[cfg(test)]
mod entry_counts;
#[cfg(test)]
mod exchanges;
#[cfg(test)]
mod file_bytes;
#[cfg(test)]
mod file_handles;
#[cfg(test)]
mod folders;
#[cfg(test)]
mod hard_links;
#[cfg(test)]
mod hidden_files;
#[cfg(test)]
mod host_sets;
#[cfg(test)]
mod host_stories;
#[cfg(test)]
mod kept_targets;
#[cfg(test)]
mod last_handles;
#[cfg(test)]
mod links;
#[cfg(test)]
mod listings;
#[cfg(test)]
mod moved_links;
#[cfg(test)]
mod open_files;
#[cfg(test)]
mod owners;
#[cfg(test)]
mod refused_exchanges;
#[cfg(test)]
mod refused_links;
#[cfg(test)]
mod renames;
#[cfg(test)]
mod replaced_files;
#[cfg(test)]
mod requests;
#[cfg(test)]
mod stories;
#[cfg(test)]
mod streams;
