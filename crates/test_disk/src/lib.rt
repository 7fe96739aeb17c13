//! The calls of a real folder, one by one, and what they leave outside it.
#![tactic(auto)]

#[cfg(test)]
mod asking;
#[cfg(test)]
mod byte_names;
#[cfg(test)]
mod calls;
#[cfg(test)]
mod entered;
#[cfg(test)]
mod interrupted;
#[cfg(test)]
mod links;
#[cfg(test)]
mod naming;
#[cfg(test)]
mod setting;
#[cfg(test)]
mod sharing;
#[cfg(test)]
mod telling;
#[cfg(test)]
mod watched;
#[cfg(test)]
mod words;
