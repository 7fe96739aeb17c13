//! The scripts of `ops`, compared with a plain, slow program for them.

mod answers;
mod asks;
mod attribute_rows;
mod compare;
mod intents;
mod links;
mod owner_rows;
mod owners;
mod rows;
mod setting;
mod slow;
