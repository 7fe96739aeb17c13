//! The values of a command line's options.

ghost use Rattle.std.specs.Prelude.{◌≡◌, codes, true, IfErr, IfOk, MatchOption};
ghost use Rattle.clap.specs.Words.{first_of, found_of, rows_of};
ghost use Rattle.mirrord_commands.specs.CommandLine.{AreAttributes, AreBounds, AreCounts, AreKinds, AreNames, AreRefused, AreSettings, AreTerms, AreWorkers, IsFlag, IsNumber, IsSpelt, IsText, IsValueRefused, Spells, TextReads, is_given, takes_number};

use crate::refusals::OptionsRefusal;
use clap::ArgMatches;
use terms::{AttributeSource, Bounds, Counts, Kinds, Names, Settings, Terms};

/// The text of an option, or this one if there is none.
fn text_or<'a>(matches: &ArgMatches<'a>, name: &str, none: &'a str) -> &'a str
    ensures { TextReads none.entry.now (first_of name.now (rows_of (found_of matches.now))) result.now }
{
    matches.get_str(name).unwrap_or(none)
}

/// The text of an option.
pub(crate) fn text_in<'a>(matches: &ArgMatches<'a>, name: &str) -> &'a str
    ensures { IsText name.now (rows_of (found_of matches.now)) result.now }
{
    text_or(matches, name, "")
}

/// The number that a text spells. None means that it spells none.
fn number_of(text: &str) -> Option<u32>
    ensures { MatchOption result (IsSpelt text.now → ⊥) (Spells text.now) }
{
    match text.parse::<u32>() {
        Ok(number) => Some(number),
        Err(_) => None,
    }
}

/// The number of an option.
pub(crate) fn number_in(matches: &ArgMatches<'_>, name: &str) -> Result<u32, OptionsRefusal>
    requires { takes_number name.now ≡ true }
    ensures ok { IfOk result (IsNumber name.now (rows_of (found_of matches.now))) }
    ensures err { IfErr result (IsValueRefused name.now (rows_of (found_of matches.now))) }
{
    match number_of(text_or(matches, name, "0")) {
        Some(number) => Ok(number),
        None => Err(OptionsRefusal::Number),
    }
}

/// How many threads serve.
pub(crate) fn workers_in(matches: &ArgMatches<'_>) -> Result<u8, OptionsRefusal>
    ensures ok { IfOk result (AreWorkers (rows_of (found_of matches.now))) }
    ensures err { IfErr result (IsValueRefused (codes "workers") (rows_of (found_of matches.now))) }
{
    let workers = number_in(matches, "workers")?;
    if workers == 0 || workers > 4 {
        return Err(OptionsRefusal::Workers);
    }
    Ok(workers as u8)
}

/// Whether a flag is set.
pub(crate) fn flag_in(matches: &ArgMatches<'_>, name: &str) -> bool
    ensures { IsFlag name.now (rows_of (found_of matches.now)) result }
{
    matches.get_flag(name)
}

/// What bounds the lookup counts.
fn counts_in(matches: &ArgMatches<'_>) -> Result<Counts, OptionsRefusal>
    ensures ok { IfOk result (AreCounts (rows_of (found_of matches.now))) }
    ensures err { IfErr result (IsValueRefused (codes "counts") (rows_of (found_of matches.now))) }
{
    let counts = text_in(matches, "counts");
    if counts == "bounded" {
        return Ok(Counts::Bounded);
    }
    if counts != "free" {
        return Err(OptionsRefusal::Counts);
    }
    Ok(Counts::Free)
}

/// How far the table may grow.
fn bounds_in(matches: &ArgMatches<'_>) -> Result<Bounds, OptionsRefusal>
    ensures ok { IfOk result (AreBounds (rows_of (found_of matches.now))) }
    // Each subcommand that serves a folder has these options, and `pipe` has no number of workers besides.
    ensures err { IfErr result (AreRefused (codes "pipe") (rows_of (found_of matches.now))) }
{
    let counts = counts_in(matches)?;
    let nodes = number_in(matches, "nodes")?;
    let files = number_in(matches, "files")?;
    let requests = number_in(matches, "requests")?;
    let postings = number_in(matches, "postings")?;
    Ok(Bounds {
        nodes,
        files,
        requests,
        postings,
        counts,
    })
}

/// Whether an option without a default was given.
fn is_given(matches: &ArgMatches<'_>, name: &str) -> bool
    ensures { result ≡ is_given name.now (rows_of (found_of matches.now)) }
{
    matches.get_str(name).is_some()
}

/// Whose attributes are reported.
fn attributes_in(matches: &ArgMatches<'_>) -> Result<AttributeSource, OptionsRefusal>
    ensures ok { IfOk result (AreAttributes (rows_of (found_of matches.now))) }
    // Each subcommand that serves a folder has these options, and `pipe` has no number of workers besides.
    ensures err { IfErr result (AreRefused (codes "pipe") (rows_of (found_of matches.now))) }
{
    let attributes = text_in(matches, "attributes");
    if attributes == "fixed" {
        let uid = number_in(matches, "uid")?;
        let gid = number_in(matches, "gid")?;
        return Ok(AttributeSource::Fixed { uid, gid });
    }
    // Clap could restrict the option to some words, but not let its value exclude other options. So both refusals are
    // made here.
    if attributes != "host" {
        return Err(OptionsRefusal::Attributes);
    }
    if is_given(matches, "uid") || is_given(matches, "gid") {
        return Err(OptionsRefusal::Owner);
    }
    Ok(AttributeSource::Host)
}

/// Which kinds of files are shown.
pub(crate) fn kinds_in(matches: &ArgMatches<'_>) -> Result<Kinds, OptionsRefusal>
    ensures ok { IfOk result (AreKinds (rows_of (found_of matches.now))) }
    ensures err { IfErr result (IsValueRefused (codes "kinds") (rows_of (found_of matches.now))) }
{
    let kinds = text_in(matches, "kinds");
    if kinds == "files" {
        return Ok(Kinds::Plain);
    }
    if kinds != "all" {
        return Err(OptionsRefusal::Kinds);
    }
    Ok(Kinds::All)
}

/// Which names are taken and shown.
fn names_in(matches: &ArgMatches<'_>) -> Result<Names, OptionsRefusal>
    ensures ok { IfOk result (AreNames (rows_of (found_of matches.now))) }
    // Each subcommand that serves a folder has this option, and `pipe` has no number of workers besides.
    ensures err { IfErr result (AreRefused (codes "pipe") (rows_of (found_of matches.now))) }
{
    let names = text_in(matches, "names");
    if names == "text" {
        return Ok(Names::Text);
    }
    if names != "bytes" {
        return Err(OptionsRefusal::Names);
    }
    Ok(Names::Bytes)
}

/// What is shown of the folder.
fn settings_in(matches: &ArgMatches<'_>) -> Result<Settings, OptionsRefusal>
    ensures ok { IfOk result (AreSettings (rows_of (found_of matches.now))) }
    // Each subcommand that serves a folder has these options, and `pipe` has no number of workers besides.
    ensures err { IfErr result (AreRefused (codes "pipe") (rows_of (found_of matches.now))) }
{
    let attributes = attributes_in(matches)?;
    let kinds = kinds_in(matches)?;
    let names = names_in(matches)?;
    Ok(Settings {
        attributes,
        kinds,
        names,
    })
}

/// The settings of a session.
pub(crate) fn terms_in(matches: &ArgMatches<'_>) -> Result<Terms, OptionsRefusal>
    ensures ok { IfOk result (AreTerms (rows_of (found_of matches.now))) }
    // Each subcommand that serves a folder has these options, and `pipe` has no number of workers besides.
    ensures err { IfErr result (AreRefused (codes "pipe") (rows_of (found_of matches.now))) }
{
    let settings = settings_in(matches)?;
    let bounds = bounds_in(matches)?;
    Ok(Terms { settings, bounds })
}
