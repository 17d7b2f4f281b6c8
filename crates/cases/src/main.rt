// Runs the worked cases and every refusal, and prints the answers; the file stdout has what the rules say they are.
#![tactic(auto)]

use std::io;

mod answer;
mod digit;
mod quoted;
mod steps;
mod streams;

fn main(rt: HostRuntime) -> io::Result<()> {
    streams::in_memory(&rt)?;
    streams::behind_header(&rt)?;
    streams::passed_on(&rt)?;
    streams::sizes(&rt)?;
    quoted::basis_points(&rt)?;
    quoted::in_memory(&rt)?;
    quoted::in_trouble(&rt)?;
    quoted::digits(&rt)?;
    streams::each_kind(&rt)
}
