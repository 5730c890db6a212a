// Writing answers.
use cases::{print_number, print_refused};
use messages::lent::Stored;
use refusals::Refusal;
use terms::table::Added;

fn print_term(number: usize) {
    print_number(b": term ", number as u64);
}

pub fn print_found(answer: Result<Option<usize>, Refusal>) {
    match answer {
        Ok(Some(i)) => print_term(i),
        Ok(None) => {
            io::write_all(1, b": nothing");
        }
        Err(refusal) => print_refused(u8::from(refusal)),
    }
}

pub fn print_added(answer: Result<Added, Refusal>) {
    match answer {
        Ok(Added::Old(i)) => {
            print_term(i);
            io::write_all(1, b", present");
        }
        Ok(Added::New(i)) => {
            print_term(i);
            io::write_all(1, b", new");
        }
        Err(refusal) => print_refused(u8::from(refusal)),
    }
}

pub fn print_stored(answer: Result<Stored, Refusal>) {
    match answer {
        Ok(stored) => {
            print_term(stored.number as usize);
            print_number(b" of ", stored.count as u64);
        }
        Err(refusal) => print_refused(u8::from(refusal)),
    }
}
