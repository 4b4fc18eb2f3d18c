// Runs the report on each file that the arguments name, under its name.
#![tactic(auto)]

use std::env::{Env, FillError};
use std::fs::File;
use std::io::{Error, ErrorKind, Read, Result};
use std::rt::Files;

// A file; where it could not be opened, each read fails.
#[derive(Drop)]
struct Opened<F> {
    file: Option<F>,
}

impl<F: Read> Read for Opened<F> {
    fn read(&mut self, buf: &mut [u8]) -> Result<usize> {
        match &mut self.file {
            Some(file) => file.read(buf),
            None => Err(Error::from(ErrorKind::NotFound)),
        }
    }
}

// A name that is not UTF-8 counts as that of no file.
fn file_at<R: Files>(rt: &R, path: &[u8]) -> Opened<R::File> {
    let file = match str::from_utf8(path) {
        Ok(name) => File::open(rt, name).ok(),
        Err(_) => None,
    };
    Opened { file }
}

// Prints the name, and opens its file.
fn open<R: Files + Env + Print>(rt: &R, argument: usize) -> Opened<R::File> {
    let mut path = [0u8; 4096];
    let size = rt.arg(argument, &mut path).unwrap_or(0);
    let _ = rt.write_all(b"-- ");
    let _ = rt.write_all(&path[..size]);
    let _ = rt.write_all(b"\n");
    file_at(rt, &path[..size])
}

fn report_on<R: Files + Env + Print>(rt: &R, argument: usize) {
    let mut file = open(rt, argument);
    let mut buffer = [0u8; 65537];
    let mut out = [0u8; report::MOST_TEXT];
    let output = report::input::report_from(&mut file, &mut buffer, &mut out);
    let count = output.count;
    let _ = rt.write_all(&out[..count]);
}

fn main(rt: HostRuntime) {
    for argument in 1..usize::MAX {
        if let Err(FillError::NotPresent) = rt.arg(argument, &mut []) {
            break;
        }
        report_on(&rt, argument);
    }
}
