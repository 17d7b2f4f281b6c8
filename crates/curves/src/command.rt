// One command of a line, and the row that it names.
use crate::error::CommandError;
use rows::refusal::RowRefusal;

#[derive(Clone, Copy, Debug, PartialEq, Eq)]
pub enum Command<'a> {
    List,
    Get(&'a str),
    Put(&'a str, &'a str),
}

impl<'a> Command<'a> {
    // The command that a line holds: none in a blank one or a remark.
    pub fn parse(line: &'a str) -> Result<Option<Command<'a>>, CommandError<'a>> {
        let mut words = line.split_whitespace();
        match (words.next(), words.next(), words.next(), words.next()) {
            (None, _, _, _) => Ok(None),
            (Some(name), _, _, _) if name.starts_with('#') => Ok(None),
            (Some("list"), None, _, _) => Ok(Some(Command::List)),
            (Some("get"), Some(row), None, _) => Ok(Some(Command::Get(row))),
            (Some("put"), Some(row), Some(value), None) => Ok(Some(Command::Put(row, value))),
            _ => Err(CommandError::NoCommand(line)),
        }
    }
}

// A row, under the name that it was asked for by.
#[derive(Clone, Copy, Debug, PartialEq, Eq)]
pub struct Row<'a> {
    pub name: &'a str,
    pub number: u32,
}

impl<'a> Row<'a> {
    // The row of the tenor at an index; one past all row numbers has the last.
    pub fn of_tenor(name: &'a str, index: usize) -> Row<'a> {
        let number = u32::try_from(index).unwrap_or(u32::MAX);
        Row { name, number }
    }

    // The row of a tenor's name, or of a number.
    pub fn find(tenors: &[String], name: &'a str) -> Result<Row<'a>, CommandError<'a>> {
        if let Some(index) = tenors.iter().position(|tenor| tenor.as_str() == name) {
            return Ok(Row::of_tenor(name, index));
        }
        let number = name.parse().map_err(|_| CommandError::NoTenor(name))?;
        Ok(Row { name, number })
    }

    // A command on this row was refused.
    pub fn refused(self, why: RowRefusal) -> CommandError<'a> {
        CommandError::Row(self.name, why)
    }
}
