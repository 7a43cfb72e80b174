// Marks each script that an argument names, and prints its name before its lines: several inputs in one run.
#![tactic(auto)]

use std::env::{Env, FillError};
use std::fs::{File, Files};
use std::io::{Error, ErrorKind};

fn mark_file(rt: &(impl Files + Print + Eprint), path: &str) {
    match File::open(rt, path) {
        Ok(mut file) => {
            if let Err(error) = println!(rt; "{path}:") {
                marking_io::fail(rt, "mark: standard output", error);
            }
            marking_io::mark_from(rt, &mut file, path);
        }
        Err(error) => marking_io::fail(rt, path, error),
    }
}

// Marks the script that an argument names. A name that is no text is told to be none.
fn mark_named(rt: &(impl Files + Print + Eprint), name: &[u8]) {
    match std::str::from_utf8(name) {
        Ok(path) => mark_file(rt, path),
        Err(_) => marking_io::fail(rt, "argument", Error::from(ErrorKind::InvalidData)),
    }
}

fn main(rt: HostRuntime) {
    for i in 1..65 {
        let mut name = [0u8; 4096];
        match rt.arg(i, &mut name) {
            Ok(n) => mark_named(&rt, &name[..n]),
            Err(FillError::TooLong) => {
                marking_io::fail(&rt, "argument", Error::from(ErrorKind::InvalidFilename));
            }
            Err(FillError::NotPresent) => return,
        }
    }
}
