//! What the program `tree_run` prints for its arguments, and its statuses.

use rhai_rows::command::{NOT_WRITTEN, run};
use rhai_rows::runner::Runner;
use std::alloc::{AllocError, Global};
use std::io;
use std::io::Write;

/// A writer that takes some writes and refuses all later ones.
#[derive(Drop)]
struct Full {
    taken: usize,
}

impl Write for Full {
    fn write(&mut self, buf: &[u8]) -> io::Result<usize> {
        match self.taken.checked_sub(1) {
            Some(taken) => {
                self.taken = taken;
                Ok(buf.len())
            }
            None => Err(io::Error::from(io::ErrorKind::WriteZero)),
        }
    }

    fn flush(&mut self) -> io::Result<()> {
        Ok(())
    }
}

/// Reads the arguments of a call, each between brackets.
fn arguments(alloc: Global, words: &str) -> Result<Vec<String>, AllocError> {
    let mut arguments = Vec::new(alloc);
    for word in words.split('[').skip(1) {
        let (word, _) = word.split_once(']').unwrap_or((word, ""));
        arguments.push(String::from_str(alloc, word)?)?;
    }
    Ok(arguments)
}

/// Writes the program's lines, with `; ` for the end of each, and its status.
pub fn write_run<R: Runner>(alloc: Global, words: &str, out: &mut Vec<u8>) -> io::Result<()> {
    let args = arguments(alloc, words)?;
    let mut printed = Vec::new(alloc);
    let status = run::<R, _>(alloc, args.as_slice(), &mut printed);
    for &byte in printed.as_slice() {
        if byte == b'\n' {
            write!(out, "; ")?;
        } else {
            out.push(byte)?;
        }
    }
    write!(out, "status {status}")
}

/// Writes the status where a write is refused, whichever it is. More and more writes are taken until the
/// program needs no other.
pub fn write_refusals<R: Runner>(alloc: Global, words: &str, out: &mut Vec<u8>) -> io::Result<()> {
    let args = arguments(alloc, words)?;
    let needed = (0..100).find(|&taken| run::<R, _>(alloc, args.as_slice(), &mut Full { taken })
        != NOT_WRITTEN);
    match needed {
        Some(0) => write!(out, "no write"),
        Some(_) => write!(out, "status {NOT_WRITTEN}"),
        None => write!(out, "more than 99 writes"),
    }
}
