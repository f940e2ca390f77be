//! What is told of an operation's answer.
use answers::Meant;
use literal::{Literal, Refusal};
use party::Report;
use try_io::{say, say_refusal};

/// 0, or the refusal's number and the place of a bad term.
pub fn say_reply(rt: &impl Print, reply: Result<(), Refusal>) {
    match reply {
        Ok(()) => say(rt, 0),
        Err(refusal) => say_refusal(rt, refusal),
    }
}

/// 0 and what is reported, or the refusal's number.
pub fn say_report(rt: &impl Print, report: Result<Report, Refusal>) {
    match report {
        Ok(told) => {
            say(rt, 0);
            say(rt, told.total);
            say(rt, told.clauses);
            say(rt, told.drawn);
        }
        Err(refusal) => say(rt, refusal.number()),
    }
}

/// 0, whether there is a literal, and it; or the refusal's number.
pub fn say_bound(rt: &impl Print, answer: Result<Option<Literal>, Refusal>) {
    match answer {
        Ok(None) => {
            say(rt, 0);
            say(rt, 0);
        }
        Ok(Some(literal)) => {
            say(rt, 0);
            say(rt, 1);
            say(rt, literal.word);
        }
        Err(refusal) => say(rt, refusal.number()),
    }
}

/// A number for each kind of meaning, 12 for damage, and then its values.
pub fn say_meaning(rt: &impl Print, meaning: Meant) {
    match meaning {
        Meant::Input => say(rt, 1),
        Meant::Bound {
            value,
            above,
            only_above,
        } => {
            say(rt, 2);
            say(rt, value);
            say(rt, u8::from(above));
            say(rt, u8::from(only_above));
        }
        Meant::Sum(node) => {
            say(rt, 3);
            say(rt, node);
        }
        Meant::Carry(node) => {
            say(rt, 4);
            say(rt, node);
        }
        Meant::Dropped => say(rt, 5),
        Meant::DroppedOrCallers => say(rt, 6),
        Meant::Foreign => say(rt, 7),
        Meant::Damaged => say(rt, 12),
    }
}
