// Commands on the rows of a stream, of any kind of quote over any stream, and the table of what they changed.
use crate::command::{Command, Row};
use crate::error::{CommandError, RunError};
use quotes::quote::Quote;
use rows::refusal::RowRefusal;
use rows::rows::{get, patch};
use std::io;
use std::marker::PhantomData;
use stream::raw::RawStream;

// What the commands work on: the rows of a stream, and the names of the first ones.
#[derive(Drop)]
pub struct Editor<'a, Q, S> {
    rt: &'a HostRuntime,
    stream: S,
    tenors: &'a [String],
    // what came of the commands so far, as `run` answers it
    outcome: Result<(), RunError>,
    kind: PhantomData<Q>,
}

impl<'a, Q: Quote, S: RawStream> Editor<'a, Q, S> {
    pub fn new(rt: &'a HostRuntime, stream: S, tenors: &'a [String]) -> Editor<'a, Q, S> {
        Editor {
            rt,
            stream,
            tenors,
            outcome: Ok(()),
            kind: PhantomData,
        }
    }

    // Runs the command of each line of a text, and prints what is refused.
    pub fn run(&mut self, text: &str) -> Result<(), RunError> {
        for line in text.lines() {
            self.serve(line).or_else(|e| self.tell(e))?;
        }
        self.outcome
    }

    // Runs the command of one line.
    fn serve<'l>(&mut self, line: &'l str) -> Result<(), CommandError<'l>> {
        match Command::parse(line)? {
            None => {}
            Some(Command::List) => self.list()?,
            Some(Command::Get(name)) => self.show(Row::find(self.tenors, name)?)?,
            Some(Command::Put(name, value)) => self.put(Row::find(self.tenors, name)?, value)?,
        }
        Ok(())
    }

    // Prints what was refused; a failure of the printing itself is passed on.
    fn tell(&mut self, e: CommandError<'_>) -> io::Result<()> {
        if let CommandError::Io(e) = e {
            return Err(e);
        }
        self.outcome = Err(RunError::Left);
        println!(self.rt; "{e}")
    }

    // Prints the quotes of all tenors, past those that are refused.
    fn list(&mut self) -> io::Result<()> {
        for (index, name) in self.tenors.iter().enumerate() {
            self.show(Row::of_tenor(name.as_str(), index))
                .or_else(|e| self.tell(e))?;
        }
        Ok(())
    }

    // Prints the quote of one row.
    fn show<'r>(&mut self, row: Row<'r>) -> Result<(), CommandError<'r>> {
        let Row { name, number } = row;
        let value = get::<Q, S>(&mut self.stream, number).map_err(|why| row.refused(why))?;
        println!(self.rt; "{name:>8} {number:>8} {value:>8}")?;
        Ok(())
    }

    // Puts a value, as it was typed, into a row that is there, flushes, and reads it back.
    fn put<'r>(&mut self, row: Row<'r>, value: &'r str) -> Result<(), CommandError<'r>> {
        let typed = value
            .parse::<i128>()
            .map_err(|_| CommandError::NoNumber(value))?;
        // one past 32 bits is one that no kind can write
        let value = i32::try_from(typed).map_err(|_| row.refused(RowRefusal::Unwritable))?;
        if let Err(RowRefusal::Missing) = get::<Q, S>(&mut self.stream, row.number) {
            return Err(row.refused(RowRefusal::Missing));
        }
        patch::<Q, S>(&mut self.stream, row.number, value).map_err(|e| row.refused(e.why))?;
        Ok(())
    }
}

// Prints each row whose quote differs, what was there and what is there now, and answers how many there are.
pub fn changes<Q: Quote, S: RawStream, T: RawStream>(
    rt: &HostRuntime,
    old: &mut S,
    new: &mut T,
) -> io::Result<u32> {
    // how many differ: no index, and no chain, since each is printed
    let mut count = 0u32;
    for row in 0..u32::MAX {
        let Ok(was) = get::<Q, S>(old, row) else {
            break;
        };
        let Ok(now) = get::<Q, T>(new, row) else {
            break;
        };
        if was == now {
            continue;
        }
        if count == 0 {
            println!(rt; "     row      was      now")?;
        }
        println!(rt; "{row:>8} {was:>8} {now:>8}")?;
        count = count.saturating_add(1);
    }
    Ok(count)
}
