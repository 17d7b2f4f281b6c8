// Why a command was refused, and why a run left the file as it was. Written by hand, since a derived `From` would have no contract.
ghost use Rattle.std.specs.Prelude.{◌≡◌};
ghost use Rattle.curves.specs.declared.error.CommandError.TheVariants as command;
ghost use Rattle.curves.specs.declared.error.RunError.TheVariants as run;

use rows::refusal::RowRefusal;
use std::error::Error;
use std::{fmt, io};

#[derive(Clone, Copy, Debug)]
pub enum CommandError<'a> {
    // a line that is no command
    NoCommand(&'a str),
    // a word that is no tenor's name and no number
    NoTenor(&'a str),
    // a value that is no whole number
    NoNumber(&'a str),
    // the row of this name
    Row(&'a str, RowRefusal),
    // the quotes could not be printed
    Io(io::Error),
}

impl fmt::Display for CommandError<'_> {
    fn fmt<W: fmt::Write>(&self, f: &mut fmt::Formatter<W>) -> fmt::Result {
        match self {
            CommandError::NoCommand(line) => {
                write!(f, "{line}: not a command: list, get ROW, put ROW VALUE")
            }
            CommandError::NoTenor(word) => write!(f, "{word}: no tenor of this name"),
            CommandError::NoNumber(word) => write!(f, "{word}: not a whole number"),
            CommandError::Row(name, why) => write!(f, "{name}: refused {why}"),
            CommandError::Io(e) => write!(f, "{e}"),
        }
    }
}

impl Error for CommandError<'_> {}

impl From<io::Error> for CommandError<'_> {
    ghost from_gives = { λ e x. x ≡ command.Io e };

    fn from(e: io::Error) -> Self {
        CommandError::Io(e)
    }
}

#[derive(Clone, Copy, Debug)]
pub enum RunError {
    // something was refused, and standard output told what
    Left,
    // the file or standard output failed
    Io(io::Error),
}

impl fmt::Display for RunError {
    fn fmt<W: fmt::Write>(&self, f: &mut fmt::Formatter<W>) -> fmt::Result {
        match self {
            RunError::Left => f.write_str("the file is left as it was"),
            RunError::Io(why) => write!(f, "{why}"),
        }
    }
}

impl Error for RunError {}

impl From<io::Error> for RunError {
    ghost from_gives = { λ e x. x ≡ run.Io e };

    fn from(e: io::Error) -> RunError {
        RunError::Io(e)
    }
}
