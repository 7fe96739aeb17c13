//! What each request asks of the table and of the directory, and what its answer is, as data.
//!
//! A request has an intent: a reply at once, or a want for the table. The ticket for the want has the paths for its
//! script: the calls of the directory in order, which end with an outcome for the table and a result for the reply.
#![tactic(auto)]

mod attributes;
mod entries;
mod findings;
mod folders;
mod hiding;
mod intents;
mod judging;
mod links;
mod looks;
mod making;
mod moving;
mod opening;
mod parts;
mod replies;
mod script;
mod setting;
mod starting;
mod telling;
mod wanted;

pub use entries::{Paged, entries_reply};
pub use findings::{FoundFile, ScriptResult};
pub use folders::names_reply;
pub use intents::{FolderUse, Intent, intent_of};
pub use links::refusal_errno;
pub use looks::Looked;
pub use replies::{file_reply, opened_reply, reply_to};
pub use script::Script;
pub use terms::Settings;
pub use wanted::Wanted;
