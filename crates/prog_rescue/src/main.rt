// Rescues a damaged narration: reads the file that its first argument names, which it never changes, and
// makes the one that its second names of the blocks that are kept. What a block becomes, and what is said
// of it, is proved; that files are read, written and named is tested.
//
// The damaged file is read twice: first its blocks to keep are counted, so that nothing is written where
// there are too many. Assumes of the launcher (the script `tns`) what io_streams says, that it gives two
// arguments, and that it removes the part of a run that a signal ends: for that it is given the part's number.
#![tactic(auto)]

use io_names::{
    LONGEST, argument, complain_of, failed_at, is_free, make_part, named, note_parts, opened,
    removed,
};
use io_paths::part_name;
use io_progress::{Progress, of_file};
use io_read_twice::{first_reading, second_reading, summed};
use io_reading::{Named, Standing};
use io_reading_mend::Mending;
use io_streams::{failed, say, to_launcher};
use std::fs::File;
use std::io::ErrorKind;
use text_put::Text;

// A damaged file whose blocks to keep are counted, and how far its readings are.
#[derive(Clone, Copy)]
struct Damaged<'a> {
    file: Named<'a>,
    counted: Standing,
    progress: Progress,
}

// Gives the launcher the number of the part.
fn begin_part(rt: &HostRuntime, number: u64) {
    let mut text = Text::<32>::new();
    text.put_numbered(b"[", number);
    text.put(b"]");
    to_launcher(rt, text.as_bytes());
}

// The part is gone: it has its own name, or is removed.
fn end_part(rt: &HostRuntime) {
    to_launcher(rt, b"-");
}

// Says how much was kept, where something was dropped.
fn sum_up(rt: &HostRuntime, found: Mending) {
    say(rt, summed(found).as_bytes());
}

// Fills the part, gives it its own name, and sums up. Answers whether it has that name.
fn is_made(rt: &HostRuntime, damaged: Damaged, output: File, part: &[u8], mended: &[u8]) -> bool {
    let made = Named {
        file: &output,
        name: mended,
    };
    let Damaged {
        file,
        counted,
        progress,
    } = damaged;
    let Some(found) = second_reading(rt, file, Some(made), counted, progress) else {
        return false;
    };
    if !named(rt, output, part, mended) {
        return false;
    }
    end_part(rt);
    sum_up(rt, found);
    true
}

// Makes the file under another name beside its place. Where it does not come out whole, it is removed. The answer is
// matched, here and in `name_of`: its other arm says what failed, which a closure would say no more plainly.
fn make(rt: &HostRuntime, damaged: Damaged, mended: &[u8]) {
    let (output, number) = match make_part(rt, mended) {
        Ok(made) => made,
        Err(reason) => {
            if reason.kind() == ErrorKind::AlreadyExists {
                complain_of(rt, mended, b": too many part files beside it\n");
            } else {
                failed_at(rt, mended, reason);
            }
            return;
        }
    };
    begin_part(rt, number);
    note_parts(rt, mended, number);
    let name: Text<LONGEST> = part_name(mended, number);
    let part = name.as_bytes();
    if !is_made(rt, damaged, output, part, mended) {
        removed(rt, part);
        end_part(rt);
    }
}

// Rescues what is in an open file.
fn rescue_of(rt: &HostRuntime, file: Named, mended: &[u8]) {
    let progress = of_file(rt, file.file);
    if let Some(counted) = first_reading(rt, file, progress) {
        let damaged = Damaged {
            file,
            counted,
            progress,
        };
        make(rt, damaged, mended);
    }
}

fn rescue(rt: &HostRuntime, damaged: &[u8], mended: &[u8]) {
    if !is_free(rt, mended) {
        return;
    }
    if let Some(input) = opened(rt, damaged) {
        let file = Named {
            file: &input,
            name: damaged,
        };
        rescue_of(rt, file, mended);
    }
}

// The name that an argument gives. Where it is not there, that is said of what `what` names.
fn name_of(rt: &HostRuntime, number: usize, what: &[u8]) -> Option<Text<4096>> {
    match argument(rt, number) {
        Ok(name) => Some(name),
        Err(reason) => {
            failed(rt, what, reason);
            None
        }
    }
}

fn main(rt: HostRuntime) {
    let Some(damaged) = name_of(&rt, 1, b"tns: the first name") else {
        return;
    };
    let Some(mended) = name_of(&rt, 2, b"tns: the second name") else {
        return;
    };
    rescue(&rt, damaged.as_bytes(), mended.as_bytes());
}
