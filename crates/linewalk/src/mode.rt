//! What the program is asked to do by its argument.
ghost use Rattle.std.specs.Prelude.{◌≡◌, map, string_bytes};
ghost use Rattle.std.specs.Result.{result_ok};
ghost use Rattle.linewalk.specs.Modes.{GoesBy, mode_asked};

use thiserror::Error;

/// What the program does with standard input.
#[derive(Clone, Copy, Debug, PartialEq, Eq)]
pub enum Mode {
    /// Run one script, and print the line of each record.
    Walk,
    /// Run one script, and print each record in words beside its line.
    Explain,
    /// Run many scripts, each behind its length, and print their lines.
    Batch,
    /// Read nothing, and print how the program is used.
    Help,
}

impl Mode {
    /// The mode that the arguments ask for. There may be one, and none asks for a walk.
    pub fn parse<'a>(args: &'a [String]) -> Result<Mode, BadArgument<'a>>
        ensures { result_ok result ≡ mode_asked (map string_bytes args.now) }
    {
        match args {
            [] => Ok(Mode::Walk),
            [name] => Mode::try_from(name.as_str()),
            [name, extra, ..] => {
                Mode::try_from(name.as_str())?;
                Err(BadArgument::OneTooMany(extra.as_str()))
            }
        }
    }
}

/// The mode that goes by a name.
impl<'a> TryFrom<&'a str> for Mode {
    type Error = BadArgument<'a>;

    ghost try_from_gives = { λ name mode. GoesBy name.now mode };

    fn try_from(name: &'a str) -> Result<Mode, BadArgument<'a>> {
        match name {
            "--explain" => Ok(Mode::Explain),
            "--batch" => Ok(Mode::Batch),
            "--help" | "-h" => Ok(Mode::Help),
            _ => Err(BadArgument::Unknown(name)),
        }
    }
}

/// An argument that the program does not take. It comes last in the message, which is cut where it gets too long.
#[derive(Clone, Copy, Debug, Error)]
pub enum BadArgument<'a> {
    /// No mode goes by this name.
    #[error("unknown argument (see linewalk --help): {0}")]
    Unknown(&'a str),
    /// This one stands behind a mode.
    #[error("one argument too many (see linewalk --help): {0}")]
    OneTooMany(&'a str),
}
