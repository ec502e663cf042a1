// Files by name. The paths of std are UTF-8 text, so a path of other bytes names no file here.
ghost use Rattle.std.specs.Prelude.{IfSome, ◌≤◌, length};

use crate::page::say;
use std::fs;
use std::io::{Eprint, Print, Read};
use std::rt::Files;

// Reads as much as there is room for: how many bytes, or nothing where a read fails.
fn read_open<S: Read>(source: &mut S, file: &mut [u8]) -> Option<usize>
    ensures { IfSome result (λ n. n ≤ length file.new) }
{
    let mut length = 0;
    while length < file.len() {
        let n = source.read(&mut file[length..]).ok()?;
        if n == 0 {
            break;
        }
        length += n;
    }
    Some(length)
}

// Opens a file for reading.
pub fn open_file<R: Files>(rt: &R, path: &[u8]) -> Option<R::File> {
    let name = str::from_utf8(path).ok()?;
    fs::open(rt, name).ok()
}

// The whole file, or as much of it as there is room for. A directory opens and cannot be read.
pub fn read_file(rt: &impl Files, path: &[u8], file: &mut [u8]) -> Option<usize>
    ensures { IfSome result (λ n. n ≤ length file.new) }
{
    read_open(&mut open_file(rt, path)?, file)
}

// Writes the file anew. Nothing where it cannot be made or not all of it could be written.
pub fn write_file(rt: &impl Files, path: &[u8], content: &[u8]) -> Option<()> {
    let name = str::from_utf8(path).ok()?;
    fs::write(rt, name, content).ok()
}

// A listing, to the terminal or a file.
pub fn deliver(rt: &(impl Files + Print + Eprint), path: &[u8], listing: &[u8]) {
    if path == b"TTY".as_slice() {
        say(rt, listing);
    } else if write_file(rt, path, listing).is_none() {
        not_found(rt);
    }
}

pub fn not_found(rt: &(impl Print + Eprint)) {
    say(rt, b"FILE NOT FOUND!!!\n");
}
