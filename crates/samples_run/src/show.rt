// Answers of the services as lines.
use compare::Difference;
use minimal::Minimised;
use record::Refusal;
use std::fmt::Display;
use std::{fmt, io};
use verdict::Side;

// What a service granted, as its line says it.
#[derive(Clone, Copy)]
pub struct Bytes(pub usize);

#[derive(Clone, Copy)]
pub struct Accepted(pub bool);

#[derive(Clone, Copy)]
pub struct Minimal(pub Minimised);

#[derive(Clone, Copy)]
pub struct Compared(pub Option<Difference>);

impl Display for Bytes {
    fn fmt<W: fmt::Write>(&self, f: &mut fmt::Formatter<W>) -> fmt::Result {
        write!(f, "{} bytes", self.0)
    }
}

impl Display for Accepted {
    fn fmt<W: fmt::Write>(&self, f: &mut fmt::Formatter<W>) -> fmt::Result {
        f.write_str(if self.0 { "accepted" } else { "rejected" })
    }
}

impl Display for Minimal {
    fn fmt<W: fmt::Write>(&self, f: &mut fmt::Formatter<W>) -> fmt::Result {
        write!(f, "{} bytes, dimension {}", self.0.length, self.0.dimension)
    }
}

impl Display for Compared {
    fn fmt<W: fmt::Write>(&self, f: &mut fmt::Formatter<W>) -> fmt::Result {
        match self.0 {
            None => f.write_str("same"),
            Some(d) => {
                let side = match d.side {
                    Side::First => "first",
                    Side::Second => "second",
                };
                write!(
                    f,
                    "differs, word of {} letters, accepted by the {side}",
                    d.length
                )
            }
        }
    }
}

// What was asked, and the answer to it.
pub fn line<T: Copy + Display>(
    rt: &impl Print,
    name: &str,
    answer: Result<T, Refusal>,
) -> io::Result<()> {
    match answer {
        Ok(granted) => println!(rt; "{name}{granted}"),
        Err(r) => {
            let number = r.rule.number();
            println!(rt;
                "{name}refused {number}, record {}, place {}",
                r.record, r.place
            )
        }
    }
}
