//! The calls of `backing` on a memory tree and on a folder of a disk, side by side, row by row and at random.
#![tactic(auto)]

#[cfg(test)]
mod all_kinds;
#[cfg(test)]
mod asked;
#[cfg(test)]
mod asking;
#[cfg(test)]
mod attributes;
#[cfg(test)]
mod byte_names;
#[cfg(test)]
mod costs;
#[cfg(test)]
mod deep;
#[cfg(test)]
mod details;
#[cfg(test)]
mod faults;
#[cfg(test)]
mod gone;
#[cfg(test)]
mod kept;
#[cfg(test)]
mod linked;
#[cfg(test)]
mod links;
#[cfg(test)]
mod memory;
#[cfg(test)]
mod moved;
#[cfg(test)]
mod moves;
#[cfg(test)]
mod naming;
#[cfg(test)]
mod opening;
#[cfg(test)]
mod planned;
#[cfg(test)]
mod random;
#[cfg(test)]
mod remembered;
#[cfg(test)]
mod rooms;
#[cfg(test)]
mod rows;
#[cfg(test)]
mod sample_trees;
#[cfg(test)]
mod seen;
#[cfg(test)]
mod specials;
#[cfg(test)]
mod telling;
#[cfg(test)]
mod texts;
#[cfg(test)]
mod trusted;
#[cfg(test)]
mod two;
#[cfg(test)]
mod unseen;
#[cfg(test)]
mod watch;
#[cfg(test)]
mod watched;
#[cfg(test)]
mod worker_stories;
#[cfg(test)]
mod workers;
