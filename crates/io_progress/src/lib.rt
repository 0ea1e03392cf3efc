// How far a rescue is, on standard error where that is a terminal: the part of both readings that is done,
// each second from the second one on. And how a file is named where something is said of it meanwhile.
// How high a percent is, and from when on one is shown, is promised; that it is shown, once a second and at a
// terminal alone, is tested.
#![tactic(auto, using(text_put::proofs::Pieces::pieces))]

ghost use Rattle.std.specs.Prelude.{◌≡◌};
ghost use Rattle.text_put.specs.Text.{after};
ghost use Rattle.io_progress.specs.Named.{name_text};
ghost use Rattle.io_progress.specs.Percents.{percent_of, in_second};

use std::fs::File;
use std::io;
use std::io::{IsTerminal, Seek, SeekFrom};
use std::time::{SystemTime, UNIX_EPOCH};
use text_put::Text;

// Back to the line's start, blanks over what stands there, and back again.
const ERASING: &[u8] = b"\r           \r";

// What is known of a run: whether its progress is shown, whether its report goes to a terminal too, how large
// its file is, the second in which it began and the last that was seen, and whether something stands on the
// terminal.
#[derive(Clone, Copy, Debug, PartialEq, Eq)]
pub struct Progress {
    pub is_terminal: bool,
    pub is_shared: bool,
    pub size: u64,
    pub began: u64,
    pub second: u64,
    pub is_shown: bool,
}

// The clock, as the system answers; 0 where it stands before its own beginning.
fn clock(rt: &HostRuntime) -> io::Result<u64> {
    let gone = SystemTime::now(rt)?.duration_since(UNIX_EPOCH);
    Ok(gone.map_or(0, |gone| gone.as_secs()))
}

// The seconds of the clock, or 0 where the system has none: then no second is another one, and nothing is shown.
pub fn seconds(rt: &HostRuntime) -> u64 {
    clock(rt).unwrap_or(0)
}

// A run that begins with a file.
pub fn of_file(rt: &HostRuntime, input: &File) -> Progress {
    let is_terminal = rt.stderr().is_terminal();
    let is_shared = rt.stdout().is_terminal();
    let mut input = input;
    let end = input.seek(SeekFrom::End(0));
    let now = seconds(rt);
    Progress {
        is_terminal,
        is_shared,
        size: end.unwrap_or(0),
        began: now,
        second: now,
        is_shown: false,
    }
}

fn show(rt: &HostRuntime, percent: u64) {
    let mut text = Text::<32>::new();
    text.put_numbered(b"\rtns: ", percent);
    text.put(b"%");
    let _ = rt.stderr().write_all(text.as_bytes());
}

// The part of both readings that is done, in percent: a file of so many bytes has a block in each 512, and each is
// read twice.
fn percent_of(size: u64, done: u64) -> u64
    ensures { result ≡ percent_of size done }
{
    done / (size / 25600 + 1)
}

// What is known of a run in another second than the last that was seen: something is shown from the second one on.
fn in_second(progress: Progress, now: u64) -> Progress
    ensures { result ≡ in_second progress now }
{
    Progress {
        second: now,
        is_shown: now.saturating_sub(progress.began) > 1,
        ..progress
    }
}

// So many blocks are done, of both readings of the file.
pub fn shown(rt: &HostRuntime, progress: Progress, done: u64) -> Progress {
    if !progress.is_terminal {
        return progress;
    }
    let now = seconds(rt);
    if now == progress.second {
        return progress;
    }
    let next = in_second(progress, now);
    if next.is_shown {
        show(rt, percent_of(next.size, done));
    }
    next
}

// What stands on the terminal is gone.
pub fn erase(rt: &HostRuntime, progress: Progress) {
    if progress.is_shown {
        let _ = rt.stderr().write_all(ERASING);
    }
}

// The report is about to be written: what stands on the terminal is gone if the report comes there too, and stays
// if it does not.
pub fn give_way(rt: &HostRuntime, progress: Progress) {
    if progress.is_shared {
        erase(rt, progress);
    }
}

// Puts how a file is named where something is said of it, in the place of what stands on the terminal.
pub fn put_name<const ROOM: usize>(progress: Progress, name: &[u8], out: &mut Text<ROOM>)
    ensures { out.new ≡ after ROOM out.old (name_text progress.is_shown name.now) }
{
    if progress.is_shown {
        out.put(ERASING);
    }
    out.put(b"tns: ");
    out.put(name);
}
