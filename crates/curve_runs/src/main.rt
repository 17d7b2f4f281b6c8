// Runs of the curve program's work on a file of its own: the file is the new one where all was granted, and else the old one.
#![tactic(auto)]

use curves::{RunError, Settings};
use std::{fs, io};

struct Case {
    header: i64,
    buffer: i64,
    text: &'static str,
}

// A header of two bytes, and the rows 1, -2 and 3.
const OLD: &[u8] = &[9, 9, 1, 0, 254, 255, 3, 0];

const CASES: [Case; 14] = [
    // granted: put, put twice, or only read
    Case {
        header: 2,
        buffer: 3,
        text: "put 2Y -25\nput 2 -32768\n",
    },
    Case {
        header: 2,
        buffer: 8192,
        text: "put 1Y 7\nput 1Y 8\n",
    },
    Case {
        header: 2,
        buffer: 8192,
        text: "# nothing\n\nlist\nget 2\n",
    },
    // a row past the end, to get and to put
    Case {
        header: 2,
        buffer: 8192,
        text: "put 0 7\nget 3\n",
    },
    Case {
        header: 2,
        buffer: 8192,
        text: "put 0 7\nput 3 1\n",
    },
    // values that do not fit, or are none
    Case {
        header: 2,
        buffer: 8192,
        text: "put 0 7\nput 1 32768\n",
    },
    Case {
        header: 2,
        buffer: 8192,
        text: "put 0 99999999999\n",
    },
    Case {
        header: 2,
        buffer: 8192,
        text: "put 0 7\nput 1 x\n",
    },
    // no tenor, no command
    Case {
        header: 2,
        buffer: 8192,
        text: "put 0 7\nget 30Y\n",
    },
    Case {
        header: 2,
        buffer: 8192,
        text: "put 0 7\nwipe\n",
    },
    // a header longer than the file, or none; a buffer too small, or too large
    Case {
        header: 9,
        buffer: 8192,
        text: "put 0 7\n",
    },
    Case {
        header: -1,
        buffer: 8192,
        text: "put 0 7\n",
    },
    Case {
        header: 2,
        buffer: 0,
        text: "put 0 7\n",
    },
    Case {
        header: 2,
        buffer: 8193,
        text: "put 0 7\n",
    },
];

fn settings(rt: &HostRuntime, case: &Case) -> io::Result<Settings> {
    let heap = rt.alloc();
    let tenors = vec![in heap;
        String::from_str(heap, "1Y")?,
        String::from_str(heap, "2Y")?,
    ]?;
    Ok(Settings {
        path: String::from_str(heap, "tried.curve")?,
        header: case.header,
        buffer: case.buffer,
        tenors,
    })
}

// Prints what came of a run: at this one place, so that no type serves it.
fn tell(rt: &HostRuntime, run: Result<u32, RunError>) -> io::Result<()> {
    match run {
        Ok(0) => println!(rt; "same"),
        Ok(n) => println!(rt; "replaced, rows changed: {n}"),
        Err(RunError::Left) => println!(rt; "left"),
        Err(RunError::Io(e)) => Err(e),
    }
}

// Prints what came of a run on a new file, and what the file then holds, at this one place too.
fn go(rt: &HostRuntime, case: &Case) -> io::Result<()> {
    fs::write(rt, "tried.curve", OLD)?;
    tell(rt, curves::run(rt, &settings(rt, case)?, case.text))?;
    for b in fs::read(rt, "tried.curve")? {
        print!(rt; " {b:02x}")?;
    }
    println!(rt; "")
}

fn main(rt: HostRuntime) -> io::Result<()> {
    for case in &CASES {
        go(&rt, case)?;
    }
    Ok(())
}
