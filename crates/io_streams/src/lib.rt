// What every program here does alike: it reads and writes in large pieces, says on standard error what
// fails, and says to the launcher that something did. Proved is what a read gives by what the system answered,
// that it stays within the piece that it is lent, and after how many reads a program makes no more; of which
// bytes are read and written nothing can be.
//
// Assumes of the launcher (the script `tns`) that it opens descriptor 3 and ends with status 1 if a 1 is
// written there, and with 2 if a 2 is. Where it is not open for writing, the status does not say it. Assumes of the
// system that /proc/self/fd has the descriptors by their numbers, as Linux's has: std writes to a file by its name.
#![tactic(auto)]

ghost use Rattle.std.specs.Prelude.{◌≡◌};
ghost use Rattle.io_streams.specs.Reads.{read_of, is_spent, ReadAfter};

use std::fs::OpenOptions;
use std::io::Write;
use std::{fs, io};

// The descriptor that the launcher opens for a program to say that something was refused, or failed: 3.
const LAUNCHER: &str = "/proc/self/fd/3";

// What one read gives: bytes, one at least; the end of input; or nothing, since it failed. It has three cases, each
// with its own name: an `io::Result` has a count of 0 for the end, and carries the reason, which is said at once.
#[derive(Clone, Copy, Debug, PartialEq, Eq)]
pub enum Read {
    Bytes(usize),
    End,
    Failed,
}

// The words of a reason, as the system has them: std puts the system's number behind them.
fn words(reason: &str) -> &str {
    reason
        .split_once(" (os error ")
        .map_or(reason, |(words, _)| words)
}

// Says what failed, and the system's reason, and that the launcher's status is 2.
pub fn failed(rt: &HostRuntime, what: &[u8], reason: io::Error) {
    say(rt, what);
    say(rt, b": ");
    match format!(in rt.alloc(); "{reason}") {
        Ok(text) => say(rt, words(text.as_str()).as_bytes()),
        Err(_) => {
            let _ = rt.eprint(reason);
        }
    }
    say(rt, b"\n");
    to_launcher(rt, b"2");
}

// Says a line of a failure that the system has no reason for, and that the launcher's status is 2.
pub fn complain(rt: &HostRuntime, line: &[u8]) {
    say(rt, line);
    to_launcher(rt, b"2");
}

// Says a line on standard error that changes no status.
pub fn say(rt: &HostRuntime, line: &[u8]) {
    let _ = rt.stderr().write_all(line);
}

// Writes to the launcher, where its descriptor is open for writing: one that is open to be read alone is a file of
// the program's own, and nothing may be written there.
fn try_to_launcher(rt: &HostRuntime, text: &[u8]) -> io::Result<()> {
    if fs::symlink_metadata(rt, LAUNCHER)?.permissions().readonly() {
        return Ok(());
    }
    let mut launcher = OpenOptions::new().append(true).open(rt, LAUNCHER)?;
    launcher.write_all(text)
}

// Writes something else to the launcher than a status, which its program and the launcher agree on.
pub fn to_launcher(rt: &HostRuntime, text: &[u8]) {
    let _ = try_to_launcher(rt, text);
}

// What a read gives, by what the system answered.
fn read_of(answer: &io::Result<usize>) -> Read
    ensures { result ≡ read_of answer.now }
{
    match answer {
        Ok(0) => Read::End,
        Ok(count) => Read::Bytes(*count),
        Err(_) => Read::Failed,
    }
}

// One read of an input, into `piece` after its first `held` bytes, which it leaves alone. A failure
// is said at once, of what `what` names.
pub fn read_from<R: io::Read>(
    rt: &HostRuntime,
    input: &mut R,
    what: &[u8],
    piece: &mut [u8],
    held: usize,
) -> Read
    ensures { ReadAfter held piece.old piece.new result }
{
    if held >= piece.len() {
        return Read::End;
    }
    let answer = input.read(&mut piece[held..]);
    let got = read_of(&answer);
    if let Err(reason) = answer {
        failed(rt, what, reason);
    }
    got
}

// The same of standard input.
pub fn read_after(rt: &HostRuntime, piece: &mut [u8], held: usize) -> Read
    ensures { ReadAfter held piece.old piece.new result }
{
    let mut input = rt.stdin();
    read_from(rt, &mut input, b"tns: standard input", piece, held)
}

// Whether a program that has made so many reads, and has more to read, has made all that it makes, so that its
// loop ends. No run makes so many, but one that did would be cut short, which its program reports as a failure.
pub fn is_spent(goes_on: bool, reads: u64) -> bool
    ensures { result ≡ is_spent goes_on reads }
{
    goes_on && reads >= 0x20_0000_0000_0000
}

// Says that standard input was cut short after the last read that is made, and that the launcher's status is 2.
pub fn complain_of_reads(rt: &HostRuntime) {
    complain(rt, b"tns: standard input: too many reads\n");
}

// Writes all of a text to an output, and answers whether it could. A failure is said at once, of what
// `what` names; a closure would say it no more plainly than the match. It has no promise: no contract can say what a call writes, nor
// whether the system takes it.
pub fn write_to<W: Write>(rt: &HostRuntime, output: &mut W, what: &[u8], text: &[u8]) -> bool {
    match output.write_all(text) {
        Ok(()) => true,
        Err(reason) => {
            failed(rt, what, reason);
            false
        }
    }
}

// The same of standard output, as `what` names it.
pub fn write_as(rt: &HostRuntime, what: &[u8], text: &[u8]) -> bool {
    let mut output = rt.stdout();
    write_to(rt, &mut output, what, text)
}

// The same of standard output, by its own name.
pub fn write(rt: &HostRuntime, text: &[u8]) -> bool {
    write_as(rt, b"tns: standard output", text)
}

// Says a refusal on standard error, and that the launcher's status is 1, or 2 if that cannot be said. It
// has no promise, as `write` has none.
pub fn refuse(rt: &HostRuntime, line: &[u8]) {
    match rt.stderr().write_all(line) {
        Ok(()) => to_launcher(rt, b"1"),
        Err(_) => to_launcher(rt, b"2"),
    }
}
