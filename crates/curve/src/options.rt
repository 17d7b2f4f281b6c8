// What the program is told by its arguments.
use anyhow::{Context, anyhow};
use curves::Settings;
use std::env;
use std::rt::Env;

// The value of a flag: the word behind it.
fn number(flag: &str, word: Option<String>) -> anyhow::Result<i64> {
    word.and_then(|word| word.as_str().parse().ok())
        .context(format_args!("{flag} wants a whole number"))
}

// Takes the arguments, and answers none where help is asked for or no file is named. Ranges are tested where they are used.
pub fn read(rt: &HostRuntime) -> anyhow::Result<Option<Settings>> {
    // help is given only once all words are looked at, so that a wrong one is still told
    let mut help = false;
    let mut path = None;
    let mut header = 0;
    let mut buffer = 8192;
    let mut tenors = Vec::new(rt.alloc());
    let mut args = env::args(rt)?.skip(1);
    while let Some(word) = args.next() {
        match word.as_str() {
            "--help" => help = true,
            "--header" => header = number("--header", args.next())?,
            "--buffer" => buffer = number("--buffer", args.next())?,
            flag if flag.starts_with("--") => {
                return Err(anyhow!("an unknown flag: --help tells those that there are"));
            }
            // an empty word names no file
            "" if path.is_none() => {}
            _ if path.is_none() => path = Some(word),
            _ => tenors.push(word)?,
        }
    }
    if help {
        return Ok(None);
    }
    Ok(path.map(|path| Settings {
        path,
        header,
        buffer,
        tenors,
    }))
}
