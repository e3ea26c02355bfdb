//! Reads a network, a model and sheets from standard input, and says of each sheet how it stands.
#![tactic(auto)]

mod answer;
mod session;
mod setup;

use session::Session;
use std::io;
use std::io::{BufReader, Read, Write};

fn main(rt: HostRuntime) -> io::Result<()> {
    let mut out = rt.stdout();
    let mut session = Session::new();
    for byte in BufReader::new(rt.alloc(), rt.stdin())?.bytes() {
        if let Some(reply) = session.take(byte?) {
            writeln!(out, "{reply}")?;
        }
    }
    if let Some(reply) = session.end() {
        writeln!(out, "{reply}")?;
    }
    writeln!(out, "{}", session.summary())
}
