//! The program: picks the call by the first word, hands it the words, standard input, the network and standard
//! output, and ends with the status of the outcome.
//!
//! ```text
//!   local, follow ADDRESS --> following   |   sync ADDRESS --> syncing
//!   generate S A T ---------> generating  |   serve ---------> serving
//! ```
//!
//! Each of these modules has one function over any dialer, listener, source and sink, whose contract says what the
//! outcome's call says of it. Words that begin otherwise, or none, go to `following`, which answers `error usage`.
#![tactic(auto)]

mod following;
mod generating;
mod serving;
mod syncing;

use ledger_codec::{Reading, Writing};
use ledger_program::starved;
use std::alloc::AllocError;
use std::process::ExitCode;
use std::rt::Env;
use std::{env, io};
use sync_dial::TcpDialer;

#[cfg(test)]
mod tests;

/// The words behind the name of the program; none where they aren't text. Err where there is no memory for them.
fn words<R: Env + AllocGlobal>(rt: &R) -> Result<Vec<String>, AllocError> {
    let mut words = Vec::new(rt.alloc());
    let args = match env::args(rt) {
        Ok(args) => args,
        Err(error) if error.kind() == io::ErrorKind::OutOfMemory => return Err(AllocError),
        Err(_) => return Ok(words),
    };
    for word in args.skip(1) {
        words.push(word)?;
    }
    Ok(words)
}

/// The first of these words, which says what is asked for.
fn first_word(words: &[String]) -> &str {
    match words.first() {
        Some(word) => word.as_str(),
        None => "",
    }
}

fn main(rt: HostRuntime) -> ExitCode {
    let alloc = rt.alloc();
    let mut out = Writing::new(io::writer(&rt));
    let Ok(words) = words(&rt) else {
        return ExitCode::from(starved(&mut out).status);
    };
    let mut job = Reading::new(rt.reader());
    let mut dialer = TcpDialer::new(&rt);
    match first_word(&words) {
        "sync" => syncing::ended(alloc, &words, &mut dialer, &mut out),
        "generate" => generating::ended(&rt, alloc, &words, &mut out),
        "serve" => serving::serve(&rt, alloc, &words, &mut job, &mut out),
        _ => following::ended(&rt, alloc, &words, &mut job, &mut dialer, &mut out),
    }
}
