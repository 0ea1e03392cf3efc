// Replays lists of calls with the answers that they must have: the files that its arguments name. The
// Rust's own answers stand in four of them (`oracle/run lists`), and those of a model of docs/RULES.md
// in the fifth (`oracle/worked.py`). All lists have one form, which `oracle/README.md` states.
//
// Of each list it writes a line for each record that differs, with the first number that does, and
// last how many records there are and how many differ. A list that ends inside a record differs there.
#![tactic(auto)]

use replay_list::read_full;
use replay_record::record;
use std::env::FillError;
use std::fs;
use std::io::Read;
use std::rt::{Env, Files};

// How many records a list has, and how many of them differ.
#[derive(Clone, Copy, Debug, Default)]
struct Tally {
    records: u64,
    differences: u64,
}

// All records of an open list.
fn replayed(rt: &impl Print, list: &mut impl Read) -> Tally {
    let mut tally = Tally::default();
    for number in 0..u64::MAX {
        let mut head = [0u8; 7];
        if read_full(list, &mut head) == 0 {
            break;
        }
        if record(rt, list, head) {
            let _ = println!(rt; " in record {number}");
            tally.differences += 1;
        }
        tally.records = number + 1;
    }
    tally
}

// The system's files are named by text, and none is opened by a name that is not.
fn opened<R: Files>(rt: &R, name: &[u8]) -> Option<R::File> {
    let path = str::from_utf8(name).ok()?;
    fs::open(rt, path).ok()
}

// A list by its name, with its last line. One that cannot be opened has no records.
fn named(rt: &(impl Files + Print), name: &[u8]) {
    let tally = match opened(rt, name) {
        Some(mut list) => replayed(rt, &mut list),
        None => Tally::default(),
    };
    let records = tally.records;
    let differences = tally.differences;
    let _ = rt.write_all(name);
    let _ = println!(rt; ": {records} records, {differences} differences");
}

// The names one after the other. `argument` of io_names makes one error of a name too long and of none: here the first
// is a list that cannot be opened, and the second the end.
fn main(rt: HostRuntime) {
    let mut name = [0u8; 4096];
    for argument in 1..usize::MAX {
        match rt.arg(argument, &mut name) {
            Ok(length) => named(&rt, &name[..length]),
            Err(FillError::TooLong) => named(&rt, b""),
            Err(FillError::NotPresent) => break,
        }
    }
}
