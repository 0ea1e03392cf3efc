// Checks a narration: reads the file that its argument names twice, as `rescue` does, and says the report of a
// rescue and what it would keep, but makes nothing. What is said of a block is proved; that the file is read is
// tested.
//
// Assumes of the launcher (the script `tns`) what io_streams says, and that it gives one argument.
#![tactic(auto)]

use io_names::{argument, opened};
use io_progress::of_file;
use io_read_twice::{first_reading, second_reading, summed};
use io_reading::Named;
use io_reading_mend::Mending;
use io_streams::{failed, refuse};

// The file is sound if the report is empty. Of another it is said how much of it a rescue keeps.
fn judge(rt: &HostRuntime, found: Mending) {
    if found.is_reported {
        refuse(rt, summed(found).as_bytes());
    }
}

// Checks what is in an open file: neither reading makes one.
fn check_of(rt: &HostRuntime, file: Named) {
    let progress = of_file(rt, file.file);
    if let Some(counted) = first_reading(rt, file, progress) {
        if let Some(found) = second_reading(rt, file, None, counted, progress) {
            judge(rt, found);
        }
    }
}

fn check(rt: &HostRuntime, name: &[u8]) {
    if let Some(input) = opened(rt, name) {
        check_of(rt, Named { file: &input, name });
    }
}

fn main(rt: HostRuntime) {
    match argument::<4096>(&rt, 1) {
        Ok(name) => check(&rt, name.as_bytes()),
        Err(reason) => failed(&rt, b"tns: the name", reason),
    }
}
