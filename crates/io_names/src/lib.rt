// Files by their names: whether a name is taken, what is said of one, and how the file that is made gets its own.
// What a look at a name finds is promised by what the system answered, and so are the texts; what the system does
// with a name cannot be.
#![tactic(auto, using(text_put::proofs::Pieces::pieces))]

ghost use Rattle.std.specs.Prelude.{◌≡◌, ◌≤◌, true, [], length, IfOk, IfSome};
ghost use Rattle.std.specs.Fd.{file_raw_fd};
ghost use Rattle.text_put.specs.Text.{after};
ghost use Rattle.io_names.specs.Looks.{look_of};
ghost use Rattle.io_names.specs.Said.{said_text};
ghost use Rattle.io_names.specs.Opened.{is_apart};

use io_paths::{folder_of, part_name};
use io_streams::{complain, failed, say};
use std::env::FillError;
use std::fs::{File, Metadata, OpenOptions};
use std::io::ErrorKind;
use std::os::fd::{AsRawFd, IntoRawFd};
use std::rt::Env;
use std::{fs, io, str};
use text_put::Text;

// Room for what is said of the longest path that there is.
pub const LONGEST: usize = 4200;

// What is said of a file, by its name.
fn said(name: &[u8], what: &[u8]) -> Text<LONGEST>
    ensures { result ≡ after LONGEST [] (said_text name.now what.now) }
{
    let mut text = Text::new();
    text.put(b"tns: ");
    text.put(name);
    text.put(what);
    text
}

// Says what failed of a file, by its name, and the system's reason.
pub fn failed_at(rt: &HostRuntime, name: &[u8], reason: io::Error) {
    failed(rt, said(name, b"").as_bytes(), reason);
}

// Says something else of a file, by its name.
pub fn complain_of(rt: &HostRuntime, name: &[u8], what: &[u8]) {
    complain(rt, said(name, what).as_bytes());
}

// Says of a file, by its name, what is no failure: `complain_of` with `say`, where a closure for it would be longer.
fn note(rt: &HostRuntime, name: &[u8], what: &[u8]) {
    say(rt, said(name, what).as_bytes());
}

// Says of a file that it is another than it was when it was first read.
pub fn complain_of_change(rt: &HostRuntime, name: &[u8]) {
    complain_of(rt, name, b": changed while it was read\n");
}

// The system's numbers of two reasons: that an argument is not valid, and that a name is too long.
const EINVAL: i32 = 22;

const ENAMETOOLONG: i32 = 36;

// Why an argument is not taken, as the system would say it: it is missing, or longer than any path may be.
fn reason_of(missing: FillError) -> io::Error {
    io::Error::from_raw_os_error(match missing {
        FillError::NotPresent => EINVAL,
        FillError::TooLong => ENAMETOOLONG,
    })
}

// The name that an argument gives, or why it is not there.
pub fn argument<const ROOM: usize>(rt: &HostRuntime, number: usize) -> io::Result<Text<ROOM>>
    ensures { IfOk result (λ name. length name ≤ ROOM) }
{
    let mut name = [0u8; ROOM];
    let count = rt.arg(number, &mut name[..]).map_err(reason_of)?;
    Ok(Text::filled(name, count))
}

// A path as the system is given it: as text. One that is not UTF-8 names no file here.
fn text_of(path: &[u8]) -> io::Result<&str> {
    str::from_utf8(path).map_err(|_| io::Error::new(
        ErrorKind::InvalidInput,
        "the name is not UTF-8",
    ))
}

fn open_read(rt: &HostRuntime, path: &[u8]) -> io::Result<File> {
    File::open(rt, text_of(path)?)
}

// Opens a file to be read, and answers it, or none where it cannot be; that is said. A caller may
// have closed descriptors that programs write to, 1 to 3: the file is opened until those are taken, so that what is
// written there goes into no file that is made. Those that take them stay open.
pub fn opened(rt: &HostRuntime, path: &[u8]) -> Option<File>
    ensures { IfSome result (λ file. is_apart (file_raw_fd file) ≡ true) }
{
    for _ in 0..5 {
        match open_read(rt, path) {
            Ok(file) => {
                if file.as_raw_fd() > 3 {
                    return Some(file);
                }
                file.into_raw_fd();
            }
            Err(reason) => {
                failed_at(rt, path, reason);
                return None;
            }
        }
    }
    complain_of(rt, path, b": cannot be opened\n");
    None
}

// Whether a name is free, by what the system answered to a look at it, or why that is not known. It is free only where
// the system said that nothing is there.
fn look_of(answer: io::Result<Metadata>) -> io::Result<bool>
    ensures { result ≡ look_of answer }
{
    match answer {
        Ok(_) => Ok(false),
        Err(reason) if reason.kind() == ErrorKind::NotFound => Ok(true),
        Err(reason) => Err(reason),
    }
}

fn look_at(rt: &HostRuntime, path: &[u8]) -> io::Result<Metadata> {
    fs::symlink_metadata(rt, text_of(path)?)
}

// Whether nothing has this name yet, not even a link to nothing: a link is looked at itself. What stands in the way
// is said.
pub fn is_free(rt: &HostRuntime, path: &[u8]) -> bool {
    match look_of(look_at(rt, path)) {
        Ok(true) => true,
        Ok(false) => {
            complain_of(rt, path, b": File exists\n");
            false
        }
        Err(reason) => {
            failed_at(rt, path, reason);
            false
        }
    }
}

fn create(rt: &HostRuntime, path: &[u8]) -> io::Result<File> {
    OpenOptions::new()
        .write(true)
        .create_new(true)
        .open(rt, text_of(path)?)
}

// Makes a file beside the place of this one, under the first such name that is not taken. Answers it with the number
// in its name, or why there is none, which is that something exists where all of them are taken.
pub fn make_part(rt: &HostRuntime, path: &[u8]) -> io::Result<(File, u64)> {
    for number in 0..1000 {
        match create(rt, part_name::<LONGEST>(path, number).as_bytes()) {
            Ok(file) => return Ok((file, number)),
            Err(reason) if reason.kind() == ErrorKind::AlreadyExists => {}
            Err(reason) => return Err(reason),
        }
    }
    Err(io::Error::from(ErrorKind::AlreadyExists))
}

// Names the parts of files that were there before the part of this number was made beside the place of this file.
pub fn note_parts(rt: &HostRuntime, path: &[u8], number: u64) {
    for old in 0..number {
        note(
            rt,
            part_name::<LONGEST>(path, old).as_bytes(),
            b": a rescue that was killed left this file, unless one is running; if none is, remove it\n",
        );
    }
}

fn settle(rt: &HostRuntime, folder: &[u8]) -> io::Result<()> {
    open_read(rt, folder)?.sync_all()
}

// What is known of a folder's names reaches the disk, as far as its file system can do that.
fn folder_settled(rt: &HostRuntime, path: &[u8]) {
    let folder = folder_of(path);
    if folder == 0 {
        let _ = settle(rt, b".");
    } else {
        let _ = settle(rt, &path[..folder]);
    }
}

fn rename(rt: &HostRuntime, name: &[u8], path: &[u8]) -> io::Result<()> {
    fs::rename(rt, text_of(name)?, text_of(path)?)
}

fn try_named(rt: &HostRuntime, file: File, name: &[u8], path: &[u8]) -> io::Result<bool> {
    file.sync_all()?;
    drop(file);
    if !is_free(rt, path) {
        return Ok(false);
    }
    rename(rt, name, path)?;
    folder_settled(rt, path);
    Ok(true)
}

// Gives the file that was made its own name, once it is on the disk. Answers whether it has it. The answer is matched,
// here and above: its other arm says what failed, which a closure would say no more plainly.
pub fn named(rt: &HostRuntime, file: File, name: &[u8], path: &[u8]) -> bool {
    match try_named(rt, file, name, path) {
        Ok(is_named) => is_named,
        Err(reason) => {
            failed_at(rt, path, reason);
            false
        }
    }
}

// Removes the file that was made, as far as the system does that.
pub fn removed(rt: &HostRuntime, name: &[u8]) {
    if let Ok(text) = text_of(name) {
        let _ = fs::remove_file(rt, text);
    }
}
