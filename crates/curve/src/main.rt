// Patches a curve file: commands on standard input, and the file is replaced only where everything was granted.
#![tactic(auto)]

use std::process::ExitCode;

mod options;

const HELP: &str = "curve FILE [--header H] [--buffer B] TENOR..

Patches the quotes of a curve file. A quote is a row of two bytes, low byte first,
in two's complement: whole basis points from -32768 to 32767. Row 0 follows the
header of H bytes (0 to 65535; 0 if none is given); the first TENOR names row 0,
the next row 1, and so on. B is how many bytes at most are handed to the file at
a time (1 to 8192; 8192 if none is given).

Commands, one to a line of standard input; blank lines and lines that begin with
# are passed over. ROW is a tenor's name or a row's number.

  list             print the quote of each tenor: its name, its row, its quote
  get ROW          print the quote of a row
  put ROW VALUE    put a quote into a row, and read it back

At the end a table tells, for each row that is changed, what was there and what is
there now. The file is replaced in one step (written beside as FILE.new, then
renamed) where rows are changed and everything was granted; otherwise it is left
as it was, and the program ends with status 1 where anything was refused.

Refusals: 1 buffer size below 1; 2 buffer size above 8192; 3 header longer than
the file; 13 row not wholly there; 14 row bytes that are no quote; 15 a value
that cannot be written as a quote.
";

// The lines of standard input.
fn input(rt: &HostRuntime) -> anyhow::Result<String> {
    let mut text = String::new(rt.alloc());
    for line in rt.lines(rt.alloc()) {
        text.push_str(line?.as_str())?;
        text.push('\n')?;
    }
    Ok(text)
}

fn start(rt: &HostRuntime) -> anyhow::Result<()> {
    let Some(settings) = options::read(rt)? else {
        print!(rt; "{HELP}")?;
        return Ok(());
    };
    let text = input(rt)?;
    let path = settings.path.as_str();
    match curves::run(rt, &settings, text.as_str())? {
        0 => println!(rt; "{path} is not changed")?,
        count => println!(rt; "rows changed: {count}; {path} is replaced")?,
    }
    Ok(())
}

// A refusal is one line on standard error, and status 1: an error that main returns would be told in other words.
fn main(rt: HostRuntime) -> anyhow::Result<ExitCode> {
    match start(&rt) {
        Ok(()) => Ok(ExitCode::SUCCESS),
        Err(e) => {
            eprintln!(rt; "curve: {e}")?;
            Ok(ExitCode::FAILURE)
        }
    }
}
