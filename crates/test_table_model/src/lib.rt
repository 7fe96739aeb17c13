//! The table is compared with one over plain lists: both are driven by the same calls. And the parts below it: paths, hidden names, the
//! ledger and its book, the tree of nodes, open files, requests in flight and images. This crate has only tests.
//!
//! What looks through a list is a loop and no closure, since each closure is three more functions to check.
#![tactic(auto)]

#[cfg(test)]
mod agreement;
#[cfg(test)]
mod asks;
#[cfg(test)]
mod biased_draws;
#[cfg(test)]
mod both;
#[cfg(test)]
mod both_runs;
#[cfg(test)]
mod draws;
#[cfg(test)]
mod handle_rows;
#[cfg(test)]
mod image_rows;
#[cfg(test)]
mod known;
#[cfg(test)]
mod ledger_rows;
#[cfg(test)]
mod link_rows;
#[cfg(test)]
mod list_begin;
#[cfg(test)]
mod list_ends;
#[cfg(test)]
mod list_finish;
#[cfg(test)]
mod list_ledger;
#[cfg(test)]
mod list_plans;
#[cfg(test)]
mod list_rows;
#[cfg(test)]
mod list_table;
#[cfg(test)]
mod list_teller;
#[cfg(test)]
mod name_rows;
#[cfg(test)]
mod pairs;
#[cfg(test)]
mod path_rows;
#[cfg(test)]
mod pin_rows;
#[cfg(test)]
mod postings;
#[cfg(test)]
mod runs;
#[cfg(test)]
mod sketch;
#[cfg(test)]
mod spelling;
#[cfg(test)]
mod tallies;
#[cfg(test)]
mod tree_rows;
#[cfg(test)]
mod under_test;
#[cfg(test)]
mod wants;
#[cfg(test)]
mod words;
