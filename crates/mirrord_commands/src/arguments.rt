//! The arguments of the subcommands, as clap is given them.

ghost use Rattle.std.specs.Prelude.{◌≡◌, codes, false, IfOk, pos};
ghost use Rattle.clap.specs.Words.{app_of, rule_of};
ghost use Rattle.clap.specs.declared.builder.command.Command.TheViews.{out-Command as fields_of};
ghost use Rattle.mirrord_commands.specs.CommandLine.{attributes_rule, bounded, counted, flag_rule, limited, named, owned, number_rule, served, shown, single_rule, staffed, text_rule, user, word_rule};

use clap::builder::ValueParser;
use clap::{Arg, ArgAction, Command};
use std::alloc::{AllocError, Global};

const WORKERS: &str =
    "How many threads serve, from 1 to 4: each reads, works or writes, whatever is due";

const SINGLE: &str = "One thread does all, one request after another, whatever --workers says";

const ATTRIBUTES: &str =
    "Whose attributes are told: fixed (of one owner, without times), or host (those of the folder, which can be set)";

const KINDS: &str =
    "What is shown of the folder: files (and folders, nothing else), or all (links, pipes, sockets and devices too)";

const NAMES: &str =
    "Which names are taken and shown: text (UTF-8, nothing else), or bytes (all that the folder can hold)";

const UID: &str =
    "The user that each file and folder is told to belong to, if not 0; with fixed attributes";

const GID: &str =
    "The group that each file and folder is told to belong to, if not 0; with fixed attributes";

const NODES: &str = "How many files and folders the client may know at a time, the root among them";

const FILES: &str = "How many files may be open at a time";

const REQUESTS: &str = "How many requests may be in flight at a time";

const COUNTS: &str =
    "What bounds the lookup counts: bounded (by --postings), or free (by nothing; a period has two postings a node or more)";

const POSTINGS: &str =
    "How many entries of the ledger a period may have; the next begins where half of them are made";

/// How many postings a period of the ledger may have by default.
pub const DEFAULT_POSTINGS: u32 = 1_048_576;

/// A required option whose value is a text.
pub(crate) fn text_option<'a>(
    alloc: Global,
    name: &'a str,
    value: &'a str,
    help: &'a str,
) -> Arg<'a>
    ensures rule { rule_of result ≡ text_rule name.entry.now }
    ensures local { result.global ≡ false }
{
    Arg::new(alloc, name)
        .long(name)
        .value_name(value)
        .required(true)
        .action(ArgAction::Set)
        .help(help)
}

/// An option whose value is a number up to `most`.
fn number_option<'a>(
    alloc: Global,
    name: &'a str,
    least: u32,
    most: u32,
    default: &'a str,
    help: &'a str,
) -> Arg<'a>
    ensures rule { rule_of result ≡ number_rule name.entry.now least most default.entry.now }
    ensures local { result.global ≡ false }
{
    let parser = ValueParser::Signed(i64::from(least), i64::from(most));
    Arg::new(alloc, name)
        .long(name)
        .value_name("N")
        .value_parser(parser)
        .default_value(default)
        .action(ArgAction::Set)
        .help(help)
}

/// The option for a user or a group.
fn owner_option<'a>(alloc: Global, name: &'a str, help: &'a str) -> Arg<'a>
    ensures rule { rule_of result ≡ user name.entry.now }
    ensures local { result.global ≡ false }
{
    let parser = ValueParser::Signed(0, i64::from(u32::MAX));
    Arg::new(alloc, name)
        .long(name)
        .value_name("N")
        .value_parser(parser)
        .action(ArgAction::Set)
        .help(help)
}

/// An option whose value is a word.
fn word_option<'a>(
    alloc: Global,
    name: &'a str,
    value: &'a str,
    default: &'a str,
    help: &'a str,
) -> Arg<'a>
    ensures rule { rule_of result ≡ word_rule name.entry.now default.entry.now }
    ensures local { result.global ≡ false }
{
    Arg::new(alloc, name)
        .long(name)
        .value_name(value)
        .default_value(default)
        .action(ArgAction::Set)
        .help(help)
}

/// The option that says whose attributes are reported.
fn attributes_option<'a>(alloc: Global, default: &'a str) -> Arg<'a>
    ensures rule { rule_of result ≡ attributes_rule default.entry.now }
    ensures local { result.global ≡ false }
{
    word_option(alloc, "attributes", "WHOSE", default, ATTRIBUTES)
}

/// A flag.
pub(crate) fn flag<'a>(alloc: Global, name: &'a str, help: &'a str) -> Arg<'a>
    ensures rule { rule_of result ≡ flag_rule name.entry.now }
    ensures local { result.global ≡ false }
{
    Arg::new(alloc, name)
        .long(name)
        .action(ArgAction::SetTrue)
        .help(help)
}

/// The flag for one thread.
fn single_flag<'a>(alloc: Global) -> Arg<'a>
    ensures rule { rule_of result ≡ single_rule }
    ensures local { result.global ≡ false }
{
    flag(alloc, "single", SINGLE).short('s')
}

/// The command, with an option for how many postings a period of the ledger may have.
pub(crate) fn with_postings<'a>(
    alloc: Global,
    command: Command<'a>,
) -> Result<Command<'a>, AllocError>
    ensures app { IfOk result (λ c. app_of c ≡ bounded (app_of command.entry)) }
    ensures local { (fields_of command.entry).has_globals ≡ false → IfOk result (λ c. (fields_of c).has_globals ≡ false) }
{
    command.arg(number_option(alloc, "postings", 1, u32::MAX, "1048576", POSTINGS))
}

/// The command, with options for how many nodes, open files and requests there may be.
fn with_limits<'a>(
    alloc: Global,
    nodes: &'a str,
    files: &'a str,
    command: Command<'a>,
) -> Result<Command<'a>, AllocError>
    ensures app { IfOk result (λ c. app_of c ≡ limited nodes.entry.now files.entry.now (app_of command.entry)) }
    ensures local { (fields_of command.entry).has_globals ≡ false → IfOk result (λ c. (fields_of c).has_globals ≡ false) }
{
    command
        .arg(number_option(alloc, "nodes", 2, 16_777_216, nodes, NODES))?
        .arg(number_option(alloc, "files", 1, 1_048_576, files, FILES))?
        .arg(number_option(alloc, "requests", 1, 65_536, "64", REQUESTS))
}

/// The command, with an option for what bounds the lookup counts.
fn with_counts<'a>(
    alloc: Global,
    how: &'a str,
    command: Command<'a>,
) -> Result<Command<'a>, AllocError>
    ensures app { IfOk result (λ c. app_of c ≡ counted how.entry.now (app_of command.entry)) }
    ensures local { (fields_of command.entry).has_globals ≡ false → IfOk result (λ c. (fields_of c).has_globals ≡ false) }
{
    command.arg(word_option(alloc, "counts", "HOW", how, COUNTS))
}

/// The command, with an option for which kinds of files are shown.
pub(crate) fn with_kinds<'a>(
    alloc: Global,
    kinds: &'a str,
    command: Command<'a>,
) -> Result<Command<'a>, AllocError>
    ensures app { IfOk result (λ c. app_of c ≡ shown kinds.entry.now (app_of command.entry)) }
    ensures local { (fields_of command.entry).has_globals ≡ false → IfOk result (λ c. (fields_of c).has_globals ≡ false) }
{
    command.arg(word_option(alloc, "kinds", "WHICH", kinds, KINDS))
}

/// The command, with options for which kinds of files are shown, and which names are taken and shown.
pub(crate) fn with_shown<'a>(
    alloc: Global,
    kinds: &'a str,
    names: &'a str,
    command: Command<'a>,
) -> Result<Command<'a>, AllocError>
    ensures app { IfOk result (λ c. app_of c ≡ named names.entry.now (shown kinds.entry.now (app_of command.entry))) }
    ensures local { (fields_of command.entry).has_globals ≡ false → IfOk result (λ c. (fields_of c).has_globals ≡ false) }
{
    let shown = with_kinds(alloc, kinds, command)?;
    shown.arg(word_option(alloc, "names", "WHICH", names, NAMES))
}

/// The command, with options for whose attributes are reported, and for a user and a group.
fn with_owner<'a>(
    alloc: Global,
    attributes: &'a str,
    command: Command<'a>,
) -> Result<Command<'a>, AllocError>
    ensures app { IfOk result (λ c. app_of c ≡ owned attributes.entry.now (app_of command.entry)) }
    ensures local { (fields_of command.entry).has_globals ≡ false → IfOk result (λ c. (fields_of c).has_globals ≡ false) }
{
    command
        .arg(attributes_option(alloc, attributes))?
        .arg(owner_option(alloc, "uid", UID))?
        .arg(owner_option(alloc, "gid", GID))
}

/// The command, with options for all settings of a session but its kinds and names, and these defaults.
pub(crate) fn with_terms<'a>(
    alloc: Global,
    attributes: &'a str,
    nodes: &'a str,
    files: &'a str,
    counts: &'a str,
    command: Command<'a>,
) -> Result<Command<'a>, AllocError>
    ensures app { IfOk result (λ c. app_of c ≡ served attributes.entry.now nodes.entry.now files.entry.now counts.entry.now (app_of command.entry)) }
    ensures local { (fields_of command.entry).has_globals ≡ false → IfOk result (λ c. (fields_of c).has_globals ≡ false) }
{
    let owned = with_owner(alloc, attributes, command)?;
    let limited = with_limits(alloc, nodes, files, owned)?;
    let counted = with_counts(alloc, counts, limited)?;
    with_postings(alloc, counted)
}

/// The command, with options for how many threads work on requests.
pub(crate) fn with_workers<'a>(
    alloc: Global,
    command: Command<'a>,
) -> Result<Command<'a>, AllocError>
    ensures app { IfOk result (λ c. app_of c ≡ staffed (app_of command.entry)) }
    ensures local { (fields_of command.entry).has_globals ≡ false → IfOk result (λ c. (fields_of c).has_globals ≡ false) }
{
    command
        .arg(number_option(alloc, "workers", 1, 4, "2", WORKERS))?
        .arg(single_flag(alloc))
}
