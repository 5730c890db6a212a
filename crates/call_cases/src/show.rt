// Writing answers, and what has changed.
use cases::{print_changes, print_number, print_refused};
use exchange::call::{Accepted, Answer};
use realm::header::Realm;
use replay::entry::Entry;

pub fn print_ok() {
    io::write_all(1, b": ok");
}

fn print_names(names: Option<u8>) {
    print_ok();
    match names {
        Some(r) => {
            print_number(b" ", r as u64);
        }
        None => {
            io::write_all(1, b" -");
        }
    }
}

// What a call was answered.
pub fn print_answer(answer: Answer) {
    match answer {
        Ok(Accepted::Old(i)) => {
            print_number(b": term ", i as u64);
            io::write_all(1, b" old");
        }
        Ok(Accepted::New(i)) => {
            print_number(b": term ", i as u64);
            io::write_all(1, b" new");
        }
        Ok(Accepted::Taken { names, added }) => {
            print_names(names);
            print_number(b" +", added as u64);
        }
        Err(refusal) => print_refused(u8::from(refusal)),
    }
}

// A realm, field by field.
fn fields(h: Realm) -> [u64; 9] {
    [
        h.n as u64,
        h.rules as u64,
        h.flags as u64,
        h.ls as u64,
        h.la as u64,
        h.clock as u64,
        h.terms as u64,
        h.runs as u64,
        h.entries as u64,
    ]
}

// Writes each field of the realm that has changed.
pub fn print_realm(before: Realm, after: Realm) {
    let old = fields(before);
    let new = fields(after);
    print_changes(b", field ", &old, &new);
}

// Writes each word of the table of runs that has changed: the run, and the place of the word in it.
pub fn print_runs(before: &[u32], after: &[u32]) {
    for (i, (old, new)) in before.iter().zip(after).enumerate() {
        if old != new {
            print_number(b", run ", (i / 7) as u64);
            print_number(b".", (i % 7) as u64);
            print_number(b" = ", u64::from(*new));
        }
    }
}

// Writes each place of the cache that has changed.
pub fn print_cache(before: &[Entry], after: &[Entry]) {
    for (i, (old, new)) in before.iter().zip(after).enumerate() {
        if old != new {
            print_number(b", entry ", i as u64);
            print_number(b" = ", u64::from(new.b));
            print_number(b" ", u64::from(new.k));
            print_number(b" ", u64::from(new.ta));
        }
    }
}
