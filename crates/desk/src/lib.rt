// What the two programs share at the desk: the files that they open, and the line that they print.
#![tactic(auto)]

ghost use Rattle.std.specs.Prelude.{◌≤◌, length};
ghost use Rattle.io.specs.Counts.{IsPrefixLen};

mod line;
#[cfg(test)]
mod tests;

use answer::Answer;
pub use line::{Mode, Report, put_line};
use std::io::Read;
use std::rt::Files;
use std::{fs, io, str};

// The bytes of each file that are used; a table of 3,000 nodes of ten words; a result with space for any grouping, 2 * 240 + 1.
pub const FILE: usize = 4096;

pub const TABLE: usize = 30000;

pub const RESULT: usize = 481;

// Puts the first bytes of a file at the start of the buffer, as many as it has space for, and answers how many. A missing file is empty,
// and so is one that cannot be opened; one whose reading fails ends there. A name is any bytes, since a `&str` would ask more of a caller;
// a buffer and a count, since it is public and promises so, as `Read::read` does.
pub fn read_file<R: Files>(rt: &R, name: &[u8], buffer: &mut [u8]) -> usize
    ensures { IsPrefixLen result buffer.new }
{
    let Ok(path) = str::from_utf8(name) else {
        return 0;
    };
    let Ok(mut file) = fs::open(rt, path) else {
        return 0;
    };
    read_full(&mut file, buffer)
}

// Reads until the buffer is full, the input ends or a read fails.
fn read_full<F: Read>(file: &mut F, buffer: &mut [u8]) -> usize
    ensures { IsPrefixLen result buffer.new }
{
    let mut done = 0;
    // A while: a read gives any number of bytes, so no range counts them.
    while done < buffer.len() {
        match file.read(&mut buffer[done..]) {
            Ok(0) | Err(_) => break,
            Ok(count) => done += count,
        }
    }
    done
}

// Prints the line of an answer as `put_line` puts it, whose contract says each byte of it, the end of the line too: a `Report` that is printed
// says nothing where it ends in an Err.
pub fn print_answer<R: Print>(rt: &R, mode: Mode, answer: Answer) -> io::Result<()> {
    let mut text = [0u8; 128];
    let count = put_line(mode, answer, &mut text);
    rt.write_all(&text[..count])
}
