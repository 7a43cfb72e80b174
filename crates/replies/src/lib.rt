// The reply that the C host gets: one struct for every service, and how each answer becomes one.
#![tactic(auto)]

ghost use Rattle.std.specs.Prelude.{◌≡◌};
ghost use Rattle.replies.specs.Reply.{reply, of_refusal, of_checked, of_written, of_tested, of_minimised, of_compared};

use compare::Difference;
use minimal::Minimised;
use record::{Fault, Refusal};

// A reply: number 0 grants, any other is the refusal's. What a service has no use for is 0.
#[repr(C)]
#[derive(Clone, Copy)]
pub struct Reply {
    pub number: usize,
    pub record: usize,
    pub place: usize,
    pub length: usize,
    pub value: usize,
}

// A service that is granted: the bytes written, and what else it answers.
fn grant(length: usize, value: usize) -> Reply
    ensures { result ≡ reply 0 0 0 length value }
{
    Reply {
        number: 0,
        record: 0,
        place: 0,
        length,
        value,
    }
}

// The reply of a service that is refused.
impl From<Refusal> for Reply {
    ghost from_gives = { λ r x. x ≡ of_refusal r };

    fn from(r: Refusal) -> Reply {
        Reply {
            number: r.rule.number(),
            record: r.record,
            place: r.place,
            length: 0,
            value: 0,
        }
    }
}

// The reply of the record check, which has one record.
impl From<Result<(), Fault>> for Reply {
    ghost from_gives = { λ c x. x ≡ of_checked c };

    fn from(c: Result<(), Fault>) -> Reply {
        match c {
            Ok(()) => grant(0, 0),
            Err(f) => Reply::from(f.rule.of(1, f.place)),
        }
    }
}

// The reply of a service that writes.
impl From<Result<usize, Refusal>> for Reply {
    ghost from_gives = { λ w x. x ≡ of_written w };

    fn from(w: Result<usize, Refusal>) -> Reply {
        match w {
            Ok(length) => grant(length, 0),
            Err(r) => Reply::from(r),
        }
    }
}

// The reply of the test of a word.
impl From<Result<bool, Refusal>> for Reply {
    ghost from_gives = { λ t x. x ≡ of_tested t };

    fn from(t: Result<bool, Refusal>) -> Reply {
        match t {
            Ok(accepted) => grant(0, usize::from(accepted)),
            Err(r) => Reply::from(r),
        }
    }
}

// The reply of the minimal service.
impl From<Result<Minimised, Refusal>> for Reply {
    ghost from_gives = { λ m x. x ≡ of_minimised m };

    fn from(m: Result<Minimised, Refusal>) -> Reply {
        match m {
            Ok(minimal) => grant(minimal.length, minimal.dimension),
            Err(r) => Reply::from(r),
        }
    }
}

// The reply of a comparison: a side by the number of its record.
impl From<Result<Option<Difference>, Refusal>> for Reply {
    ghost from_gives = { λ c x. x ≡ of_compared c };

    fn from(c: Result<Option<Difference>, Refusal>) -> Reply {
        match c {
            Ok(None) => grant(0, 0),
            Ok(Some(d)) => grant(d.length, d.side as usize),
            Err(r) => Reply::from(r),
        }
    }
}
