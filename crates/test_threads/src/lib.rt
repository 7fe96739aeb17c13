//! Sessions on threads, compared with what a session on one thread would return.
#![tactic(auto)]

#[cfg(test)]
mod buffers;
#[cfg(test)]
mod client;
#[cfg(test)]
mod gates;
#[cfg(test)]
mod late;
#[cfg(test)]
mod overlap;
#[cfg(test)]
mod rows;
#[cfg(test)]
mod sleeping;
#[cfg(test)]
mod slow;
#[cfg(test)]
mod story;
#[cfg(test)]
mod teller;
#[cfg(test)]
mod turns;
#[cfg(test)]
mod writes;
