//! Why options that clap has read are still refused.

use std::fmt;
use std::fmt::Display;

/// Why options are refused. Each comes of an option that the subcommand has: so `hex` is refused only as `Kinds` or
/// `Number`, and `pipe` never as `Workers`.
#[derive(Clone, Copy, Debug, PartialEq, Eq)]
pub enum OptionsRefusal {
    /// `--attributes` is neither `fixed` nor `host`.
    Attributes,
    /// `--kinds` is neither `files` nor `all`.
    Kinds,
    /// `--names` is neither `text` nor `bytes`.
    Names,
    /// `--counts` is neither `bounded` nor `free`.
    Counts,
    /// An owner is given, although the attributes are to be the host's, which include the owners.
    Owner,
    /// The text of an option that takes a number spells none. Clap lets `-0` through, and nothing else of that kind.
    Number,
    /// `--workers` is not 1 to 4. Clap lets no such number through, but no contract rests on that.
    Workers,
}

impl Display for OptionsRefusal {
    ghost use Rattle.std.specs.Prelude.{Some};
    ghost use Rattle.mirrord_commands.specs.Faults.{refusal_message};

    ghost output = { λ refusal. Some (refusal_message refusal) };

    fn fmt<W: fmt::Write>(&self, f: &mut fmt::Formatter<W>) -> fmt::Result {
        match self {
            OptionsRefusal::Attributes => f.write_str("--attributes is fixed or host"),
            OptionsRefusal::Kinds => f.write_str("--kinds is files or all"),
            OptionsRefusal::Names => f.write_str("--names is text or bytes"),
            OptionsRefusal::Counts => f.write_str("--counts is bounded or free"),
            OptionsRefusal::Owner => f.write_str(
                "with --attributes host there is no --uid and no --gid",
            ),
            OptionsRefusal::Number => {
                f.write_str("a number is written in digits, without a minus sign")
            }
            OptionsRefusal::Workers => f.write_str("--workers is 1 to 4"),
        }
    }
}
