// Each service on lent bytes: what is asked and the answer, as one line.
use crate::show;
use crate::show::{Accepted, Bytes, Compared, Minimal};
use std::io;

pub fn rewrite(rt: &impl Print, name: &str, bytes: &[u8]) -> io::Result<()> {
    let mut out = [0u8; 1039];
    show::line(rt, name, codec::rewrite(bytes, &mut out).map(Bytes))
}

pub fn test(rt: &impl Print, name: &str, bytes: &[u8], word: &[u8]) -> io::Result<()> {
    show::line(rt, name, testing::test(bytes, word).map(Accepted))
}

pub fn minimal(rt: &impl Print, name: &str, bytes: &[u8], out: &mut [u8]) -> io::Result<()> {
    show::line(rt, name, minimal::minimal(bytes, out).map(Minimal))
}

pub fn compare(rt: &impl Print, name: &str, first: &[u8], second: &[u8]) -> io::Result<()> {
    let mut word = [0u8; 63];
    show::line(
        rt,
        name,
        compare::compare(first, second, &mut word).map(Compared),
    )
}

pub fn sum(rt: &impl Print, name: &str, first: &[u8], second: &[u8]) -> io::Result<()> {
    let mut out = [0u8; 1039];
    show::line(
        rt,
        name,
        operations::sum(first, second, &mut out).map(Bytes),
    )
}

pub fn meet(rt: &impl Print, name: &str, first: &[u8], second: &[u8]) -> io::Result<()> {
    let mut out = [0u8; 1039];
    show::line(
        rt,
        name,
        intersection::meet(first, second, &mut out).map(Bytes),
    )
}

pub fn product(
    rt: &impl Print,
    name: &str,
    first: &[u8],
    second: &[u8],
    out: &mut [u8],
) -> io::Result<()> {
    show::line(rt, name, operations::product(first, second, out).map(Bytes))
}

pub fn star(rt: &impl Print, name: &str, bytes: &[u8], out: &mut [u8]) -> io::Result<()> {
    show::line(rt, name, star::star(bytes, out).map(Bytes))
}

pub fn complement(rt: &impl Print, name: &str, bytes: &[u8]) -> io::Result<()> {
    let mut out = [0u8; 1039];
    show::line(rt, name, operations::complement(bytes, &mut out).map(Bytes))
}

pub fn catalogue(rt: &impl Print, name: &str, number: usize) -> io::Result<()> {
    let mut out = [0u8; 1039];
    show::line(rt, name, catalogue::give(number, &mut out).map(Bytes))
}
