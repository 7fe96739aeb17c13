//! One session in which each call of the tree and each reply fails in turn, compared with a plain, slow program.
#![tactic(auto)]

#[cfg(test)]
mod answers;
#[cfg(test)]
mod asks;
#[cfg(test)]
mod bytes;
#[cfg(test)]
mod client;
#[cfg(test)]
mod compare;
#[cfg(test)]
mod folders;
#[cfg(test)]
mod frames;
#[cfg(test)]
mod hostile;
#[cfg(test)]
mod hostile_frames;
#[cfg(test)]
mod hostile_links;
#[cfg(test)]
mod hostile_runs;
#[cfg(test)]
mod items;
#[cfg(test)]
mod product;
#[cfg(test)]
mod requests;
#[cfg(test)]
mod runs;
#[cfg(test)]
mod session;
#[cfg(test)]
mod slow;
#[cfg(test)]
mod watched;
#[cfg(test)]
mod world;
