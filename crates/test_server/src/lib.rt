//! Tests of the programs that serve a folder: over standard input and output, over a socket with a client, and over a
//! device.
#![tactic(auto)]

#[cfg(test)]
mod bad_ends;
#[cfg(test)]
mod byte_names;
#[cfg(test)]
mod devices;
#[cfg(test)]
mod frames;
#[cfg(test)]
mod hard_links;
#[cfg(test)]
mod host;
#[cfg(test)]
mod host_attributes;
#[cfg(test)]
mod links;
#[cfg(test)]
mod meetings;
#[cfg(test)]
mod owners;
#[cfg(test)]
mod pipes;
#[cfg(test)]
mod sample_folders;
#[cfg(test)]
mod socket_places;
