//! Runs of the table, checked step by step against its rules. This crate has only tests.
#![tactic(auto)]

#[cfg(test)]
mod beginnings;
#[cfg(test)]
mod change;
#[cfg(test)]
mod choices;
#[cfg(test)]
mod draws;
#[cfg(test)]
mod endings;
#[cfg(test)]
mod event;
#[cfg(test)]
mod exchange_rows;
#[cfg(test)]
mod free_rows;
#[cfg(test)]
mod givings_back;
#[cfg(test)]
mod handle_rows;
#[cfg(test)]
mod hidden_rows;
#[cfg(test)]
mod hiding_rows;
#[cfg(test)]
mod holding_rows;
#[cfg(test)]
mod image_rows;
#[cfg(test)]
mod law_rows;
#[cfg(test)]
mod least;
#[cfg(test)]
mod limit_rows;
#[cfg(test)]
mod link_rows;
#[cfg(test)]
mod long_rows;
#[cfg(test)]
mod long_run;
#[cfg(test)]
mod looks;
#[cfg(test)]
mod lookup_rows;
#[cfg(test)]
mod moving_rows;
#[cfg(test)]
mod opening_rows;
#[cfg(test)]
mod order_rows;
#[cfg(test)]
mod page_rows;
#[cfg(test)]
mod period_rows;
#[cfg(test)]
mod release_rows;
#[cfg(test)]
mod removal_rows;
#[cfg(test)]
mod replacing_rows;
#[cfg(test)]
mod run_rows;
#[cfg(test)]
mod share_rows;
#[cfg(test)]
mod shows;
#[cfg(test)]
mod story;
#[cfg(test)]
mod stranger_rows;
#[cfg(test)]
mod strangers;
#[cfg(test)]
mod tallies;
#[cfg(test)]
mod task;
#[cfg(test)]
mod teller;
#[cfg(test)]
mod thread_rows;
#[cfg(test)]
mod under_test;
