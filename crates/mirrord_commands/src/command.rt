//! The command line, as clap is given it.

ghost use Rattle.std.specs.Prelude.{◌≡◌, false, IfOk};
ghost use Rattle.clap.specs.Words.{app_of};
ghost use Rattle.clap.specs.declared.builder.command.Command.TheViews.{out-Command as fields_of};
ghost use Rattle.mirrord_commands.specs.CommandLine.{bare_app, device_app, hex_app, mirrord_app, pipe_app, serve_app, stream_app};

use crate::arguments::{
    flag, text_option, with_kinds, with_postings, with_shown, with_terms, with_workers,
};
use clap::Command;
use std::alloc::{AllocError, Global};

const ABOUT: &str = "A file system server that speaks the FUSE kernel protocol 7.31";

const EXAMPLES: &str =
    "Example: serve the folder /srv/files to the first client that connects to /tmp/mirrord.sock\n    \
    mirrord serve --root /srv/files --socket /tmp/mirrord.sock\n\n\
    Exit status: 0 at the end of the input and after DESTROY, 2 for a bad command line,\n\
    3 after a frame length that no frame has, 4 for any other failure.\n\
    3 and 4 come with one line on standard error that says why.";

const SERVE: &str =
    "Serves a folder to one client over a Unix socket: waits for it, serves it, removes the socket and ends";

const SERVE_EXAMPLE: &str =
    "Example:\n    mirrord serve --root /srv/files --socket /tmp/mirrord.sock --uid 1000 --gid 1000";

const PIPE: &str =
    "Serves a folder to a client that writes standard input and reads standard output";

const PIPE_EXAMPLE: &str =
    "Example: work off a file of requests\n    mirrord pipe --root /srv/files < requests > replies";

const DEVICE: &str =
    "Serves a folder to the kernel, whose FUSE device is standard input, until it is not mounted any more";

const DEVICE_EXAMPLE: &str =
    "examples/mount opens the device, mounts it and starts this program. What is taken where nothing is said \
    is what a\nkernel as the client wants: all kinds of files, any names, attributes of the host, counts that nothing bounds, a million nodes.";

const HEX: &str =
    "Serves a tree in memory: requests are read, and replies written, as lines of hexadecimal digits";

const HEX_EXAMPLE: &str = "Example: agree on a version\n    \
    echo 380000001a0000000100000000000000000000000000000000000000000000000000000000000000070000001f0000000000020000000000 \
    | mirrord hex";

const ROOT: &str = "The folder that is served";

const SOCKET: &str = "Where the socket is made; nothing may stand there";

const SAMPLE: &str = "Start with a file `a` holding `abc`, a folder `d` and an empty file `e`";

fn hex_command<'a>(alloc: Global) -> Result<Command<'a>, AllocError>
    ensures app { IfOk result (λ c. app_of c ≡ hex_app) }
    ensures local { IfOk result (λ c. (fields_of c).has_globals ≡ false) }
{
    let sampled = Command::new(alloc, "hex")
        .about(HEX)
        .after_help(HEX_EXAMPLE)
        .arg(flag(alloc, "sample", SAMPLE))?;
    let shown = with_kinds(alloc, "files", sampled)?;
    with_postings(alloc, shown)
}

fn pipe_command<'a>(alloc: Global) -> Result<Command<'a>, AllocError>
    ensures app { IfOk result (λ c. app_of c ≡ pipe_app) }
    ensures local { IfOk result (λ c. (fields_of c).has_globals ≡ false) }
{
    let rooted = Command::new(alloc, "pipe")
        .about(PIPE)
        .after_help(PIPE_EXAMPLE)
        .arg(text_option(alloc, "root", "DIR", ROOT))?;
    let shown = with_shown(alloc, "files", "text", rooted)?;
    with_terms(alloc, "fixed", "65536", "4096", "bounded", shown)
}

fn serve_command<'a>(alloc: Global) -> Result<Command<'a>, AllocError>
    ensures app { IfOk result (λ c. app_of c ≡ serve_app) }
    ensures local { IfOk result (λ c. (fields_of c).has_globals ≡ false) }
{
    let placed = Command::new(alloc, "serve")
        .about(SERVE)
        .after_help(SERVE_EXAMPLE)
        .arg(text_option(alloc, "root", "DIR", ROOT))?
        .arg(text_option(alloc, "socket", "PATH", SOCKET))?;
    let staffed = with_workers(alloc, placed)?;
    let shown = with_shown(alloc, "files", "text", staffed)?;
    with_terms(alloc, "fixed", "65536", "4096", "bounded", shown)
}

fn device_command<'a>(alloc: Global) -> Result<Command<'a>, AllocError>
    ensures app { IfOk result (λ c. app_of c ≡ device_app) }
    ensures local { IfOk result (λ c. (fields_of c).has_globals ≡ false) }
{
    let rooted = Command::new(alloc, "device")
        .about(DEVICE)
        .after_help(DEVICE_EXAMPLE)
        .arg(text_option(alloc, "root", "DIR", ROOT))?;
    let staffed = with_workers(alloc, rooted)?;
    let shown = with_shown(alloc, "all", "bytes", staffed)?;
    with_terms(alloc, "host", "1048576", "65536", "free", shown)
}

/// The program without its subcommands.
fn bare_command<'a>(alloc: Global) -> Command<'a>
    ensures app { app_of result ≡ bare_app }
    ensures local { (fields_of result).has_globals ≡ false }
{
    Command::new(alloc, "mirrord")
        .version("0.1.0")
        .about(ABOUT)
        .after_help(EXAMPLES)
        .subcommand_required(true)
        .arg_required_else_help(true)
}

/// The program with the subcommands that serve a folder to a client over a stream.
fn stream_command<'a>(alloc: Global) -> Result<Command<'a>, AllocError>
    ensures app { IfOk result (λ c. app_of c ≡ stream_app) }
    ensures local { IfOk result (λ c. (fields_of c).has_globals ≡ false) }
{
    let serve = serve_command(alloc)?;
    let pipe = pipe_command(alloc)?;
    bare_command(alloc).subcommand(serve)?.subcommand(pipe)
}

/// The whole command line.
pub fn command<'a>(alloc: Global) -> Result<Command<'a>, AllocError>
    ensures { IfOk result (λ c. app_of c ≡ mirrord_app) }
{
    let streams = stream_command(alloc)?;
    let device = device_command(alloc)?;
    let hex = hex_command(alloc)?;
    streams.subcommand(device)?.subcommand(hex)
}
