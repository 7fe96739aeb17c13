//! What a command line asks for.

ghost use Rattle.std.specs.Prelude.{◌≡◌, ◌≢◌, codes, true, map, IfErr, IfOk, MatchResult};
ghost use Rattle.clap.specs.Words.{Text, fault_of, found_of, kind_of, rows_of, subcommand_of, subcommand_rows_of, takes, FailsBy};
ghost use Rattle.clap.specs.declared.error.kind.ErrorKind.TheVariants.{OutOfMemory};
ghost use Rattle.mirrord_commands.specs.CommandLine.{mirrord_app, AreRefused, IsAsked, IsAskedBy};
ghost use Rattle.mirrord_commands.specs.declared.options.Options.TheVariants.{Refused};

use crate::arguments::DEFAULT_POSTINGS;
use crate::command::command;
use crate::refusals::OptionsRefusal;
use crate::values::{flag_in, kinds_in, number_in, terms_in, text_in, workers_in};
use clap::{ArgMatches, Error};
use std::alloc::Global;
use std::convert::AsStr;
use terms::{Kinds, Terms};

/// What a command line asks for.
#[derive(Clone, Copy, Debug, PartialEq, Eq)]
pub enum Options<'a> {
    /// Serve a folder over a Unix socket.
    Serve {
        /// The folder.
        root: &'a str,
        /// Where the socket is created.
        socket: &'a str,
        /// How many threads serve, from 1 to 4.
        workers: u8,
        /// Whether one thread does everything, whatever the number of threads is.
        single: bool,
        /// What is shown of the folder, and how far the table may grow.
        terms: Terms,
    },
    /// Serve a folder over standard input and output.
    Pipe {
        /// The folder.
        root: &'a str,
        /// What is shown of the folder, and how far the table may grow.
        terms: Terms,
    },
    /// Serve a folder over the kernel's FUSE device.
    Device {
        /// The folder.
        root: &'a str,
        /// How many threads serve, from 1 to 4.
        workers: u8,
        /// Whether one thread does everything, whatever the number of threads is.
        single: bool,
        /// What is shown of the folder, and how far the table may grow.
        terms: Terms,
    },
    /// Serve a tree in memory over hexadecimal lines.
    Hex {
        /// Whether the tree has the sample names.
        sample: bool,
        /// Which kinds of files are shown.
        kinds: Kinds,
        /// How many postings a period of the ledger may have.
        postings: u32,
    },
    /// Nothing can be served with these options.
    Refused(OptionsRefusal),
}

/// What `serve` asks for.
fn serve_asked<'a>(matches: &ArgMatches<'a>) -> Result<Options<'a>, OptionsRefusal>
    ensures ok { IfOk result (IsAskedBy (codes "serve") (rows_of (found_of matches.now))) }
    ensures err { IfErr result (AreRefused (codes "serve") (rows_of (found_of matches.now))) }
{
    let terms = terms_in(matches)?;
    let workers = workers_in(matches)?;
    Ok(Options::Serve {
        root: text_in(matches, "root"),
        socket: text_in(matches, "socket"),
        workers,
        single: flag_in(matches, "single"),
        terms,
    })
}

/// What `pipe` asks for.
fn pipe_asked<'a>(matches: &ArgMatches<'a>) -> Result<Options<'a>, OptionsRefusal>
    ensures ok { IfOk result (IsAskedBy (codes "pipe") (rows_of (found_of matches.now))) }
    ensures err { IfErr result (AreRefused (codes "pipe") (rows_of (found_of matches.now))) }
{
    let terms = terms_in(matches)?;
    Ok(Options::Pipe {
        root: text_in(matches, "root"),
        terms,
    })
}

/// What `device` asks for.
fn device_asked<'a>(matches: &ArgMatches<'a>) -> Result<Options<'a>, OptionsRefusal>
    ensures ok { IfOk result (IsAskedBy (codes "device") (rows_of (found_of matches.now))) }
    ensures err { IfErr result (AreRefused (codes "device") (rows_of (found_of matches.now))) }
{
    let terms = terms_in(matches)?;
    let workers = workers_in(matches)?;
    Ok(Options::Device {
        root: text_in(matches, "root"),
        workers,
        single: flag_in(matches, "single"),
        terms,
    })
}

/// What `hex` asks for.
fn hex_asked<'a>(matches: &ArgMatches<'a>) -> Result<Options<'a>, OptionsRefusal>
    ensures ok { IfOk result (λ options. (name : Text) → (name ≢ codes "serve") → (name ≢ codes "pipe") → (name ≢ codes "device") → IsAskedBy name (rows_of (found_of matches.now)) options) }
    ensures err { IfErr result (AreRefused (codes "hex") (rows_of (found_of matches.now))) }
{
    let kinds = kinds_in(matches)?;
    let postings = number_in(matches, "postings")?;
    Ok(Options::Hex {
        sample: flag_in(matches, "sample"),
        kinds,
        postings,
    })
}

/// What was asked for, or why it is refused.
fn or_refused<'a>(asked: Result<Options<'a>, OptionsRefusal>) -> Options<'a>
    ensures { MatchResult asked.entry (λ options. result ≡ options) (λ refusal. result ≡ Refused refusal) }
{
    match asked {
        Ok(options) => options,
        Err(refusal) => Options::Refused(refusal),
    }
}

/// What a subcommand asks for.
fn asked_by<'a>(name: &str, matches: &ArgMatches<'a>) -> Options<'a>
    ensures { IsAskedBy name.now (rows_of (found_of matches.now)) result }
{
    if name == "serve" {
        return or_refused(serve_asked(matches));
    }
    if name == "pipe" {
        return or_refused(pipe_asked(matches));
    }
    if name == "device" {
        return or_refused(device_asked(matches));
    }
    or_refused(hex_asked(matches))
}

/// What a command line asks for, after clap has read it.
fn asked<'a>(matches: &ArgMatches<'a>) -> Options<'a>
    ensures { IsAsked (subcommand_rows_of matches.now) result }
{
    match matches.subcommand() {
        Some((name, met)) => asked_by(name, met),
        None => Options::Hex {
            sample: false,
            kinds: Kinds::Plain,
            postings: DEFAULT_POSTINGS,
        },
    }
}

/// Reads a command line, whose first word names the program. Help and the version are returned as clap's errors, too.
pub fn read_options<'a, S: AsStr>(alloc: Global, words: &'a [S]) -> Result<Options<'a>, Error>
    ensures asked { IfOk result (IsAsked (subcommand_of mirrord_app (map S.text words.entry.now))) }
    ensures fails { FailsBy (fault_of mirrord_app (map S.text words.entry.now)) result }
    ensures passes { IfErr result (λ e. takes mirrord_app (map S.text words.entry.now) ≡ true → kind_of e ≡ OutOfMemory) }
{
    let command = command(alloc)?;
    match command.try_get_matches_from(words) {
        Ok(matches) => Ok(asked(&matches)),
        Err(error) => Err(error),
    }
}
