// Reads a line, and prints its accounts or why it is refused.
#![tactic(auto)]

mod accounts;
mod trouble;

use accounts::accounts;
use std::io::Write;
use std::process::ExitCode;
use std::{env, fs};
use trouble::Trouble;

// The names of the two files.
fn names(rt: &HostRuntime) -> Result<(String, String), Trouble> {
    let mut args = env::args(rt).map_err(Trouble::Arguments)?;
    let _ = args.next();
    let (Some(line), Some(bookings), None) = (args.next(), args.next(), args.next()) else {
        return Err(Trouble::Usage);
    };
    Ok((line, bookings))
}

// What a file holds.
fn contents(rt: &HostRuntime, name: String) -> Result<Vec<u8>, Trouble> {
    fs::read(rt, name.as_str()).map_err(|why| Trouble::Unreadable(name, why))
}

// Tells the accounts, or why the line is refused; the status says whether it was taken.
fn run(rt: &HostRuntime) -> Result<ExitCode, Trouble> {
    let (line, bookings) = names(rt)?;
    let line = contents(rt, line)?;
    let bookings = contents(rt, bookings)?;
    match accounts(rt.alloc(), line.as_slice()) {
        Err(Trouble::Refused(refusal)) => {
            rt.println(refusal).map_err(Trouble::Output)?;
            Ok(ExitCode::FAILURE)
        }
        Ok(_) if !bookings.is_empty() => Err(Trouble::Bookings),
        told => {
            // in one piece, as a reader who leaves early does not cut it off then
            let text = told?;
            let written = rt.stdout().write_all(text.as_bytes());
            written.map_err(Trouble::Output)?;
            Ok(ExitCode::SUCCESS)
        }
    }
}

// Tells what is wrong with the call or the machine on standard error; the status is 0 only if the line was taken.
fn main(rt: HostRuntime) -> ExitCode {
    match run(&rt) {
        Ok(status) => status,
        Err(trouble) => {
            let _ = rt.eprintln(trouble);
            ExitCode::FAILURE
        }
    }
}
