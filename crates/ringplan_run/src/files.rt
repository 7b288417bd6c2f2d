//! The files of a command line.

ghost use Rattle.std.specs.Prelude.{◌≡◌, ◌⊎◌, IfErr};

use ringplan_answers::MAX_INPUT;
use std::fmt::{Display, Formatter};
use std::fs::{OpenFile, OpenOptions, Permissions};
use std::io::{ErrorKind, Write};
use std::os::unix::fs::OpenOptionsExt;
use std::path::PathBuf;
use std::rt::Files;
use std::{fmt, fs, io};

#[derive(Clone, Copy, Debug, PartialEq, Eq)]
pub(crate) enum Limit {
    /// At most `MAX_INPUT` bytes, since it is read whole.
    Whole,
    Endless,
}

/// A terminal's text, with question marks for control characters except newlines.
#[derive(Clone, Copy)]
pub(crate) struct Harmless<'a> {
    pub(crate) text: &'a str,
}

impl<'a> Display for Harmless<'a> {
    fn fmt<W: fmt::Write>(&self, f: &mut Formatter<W>) -> fmt::Result {
        for letter in self.text.chars() {
            let is_shown = letter == '\n' || !letter.is_control();
            f.write_char(if is_shown { letter } else { '?' })?;
        }
        Ok(())
    }
}

/// Writes to standard error. Omits invalid UTF-8; control characters become question marks.
pub(crate) fn say<RT: Eprint>(rt: &RT, text: &[u8]) {
    for chunk in text.utf8_chunks() {
        let _ = rt.eprint(Harmless {
            text: chunk.valid(),
        });
    }
}

fn say_of<RT: Eprint, D: Display>(rt: &RT, name: &str, fault: &D) {
    let name = Harmless { text: name };
    let _ = eprint!(rt; "ringplan: {name}: {fault}\n");
}

/// Opens a file to read. On failure says why, and returns the exit status: 2 if too long, otherwise 3.
pub(crate) fn open<RT: Files + Eprint>(rt: &RT, name: &str, limit: Limit) -> Result<RT::File, u8>
    ensures { IfErr result (λ status. (status ≡ 2) ⊎ (status ≡ 3)) }
{
    match fs::open(rt, name) {
        Ok(file) => sized(rt, name, file, limit),
        Err(error) => {
            say_of(rt, name, &error);
            Err(3)
        }
    }
}

// Refuses a directory, or a file that is too long.
fn sized<RT: Files + Eprint>(
    rt: &RT,
    name: &str,
    file: RT::File,
    limit: Limit,
) -> Result<RT::File, u8>
    ensures { IfErr result (λ status. (status ≡ 2) ⊎ (status ≡ 3)) }
{
    let (is_folder, size) = match file.metadata() {
        Ok(metadata) => (metadata.is_dir(), metadata.len()),
        Err(_) => (false, 0),
    };
    if is_folder {
        say_of(rt, name, &"is a directory");
        return Err(3);
    }
    if limit == Limit::Whole && size > MAX_INPUT as u64 {
        say_of(rt, name, &format_args!("has more than {MAX_INPUT} bytes"));
        return Err(2);
    }
    Ok(file)
}

// The most links followed, as in Linux.
const MOST_LINKS: u32 = 40;

const MOST_BESIDE: u32 = 1_000;

// Follows links, even to a missing file.
#[inline(never)]
fn end_of_links<RT: Files + AllocGlobal>(rt: &RT, name: &str) -> io::Result<PathBuf> {
    let mut path = PathBuf::from_str(rt.alloc(), name)?;
    for turn in 0..MOST_LINKS {
        match fs::symlink_metadata(rt, &path) {
            Ok(metadata) if metadata.is_symlink() => {
                let next = rt.read_link(rt.alloc(), path.as_path().as_str())?;
                let _ = path.pop();
                path.push(next)?;
            }
            _ => break,
        }
    }
    Ok(path)
}

// Creates a new file. A replacement is private until it gets the old file's permissions.
fn create_beside<RT: Files>(
    rt: &RT,
    beside: &str,
    permissions: &Option<Permissions>,
) -> io::Result<RT::File> {
    let mut options = OpenOptions::new();
    options.write(true).create_new(true);
    if permissions.is_some() {
        options.mode(0o600);
    }
    options.open(rt, beside)
}

// Writes and syncs a new file, with these permissions, if any.
fn write_new<F: OpenFile + Write>(
    file: &mut F,
    permissions: Option<Permissions>,
    text: &[u8],
) -> io::Result<()> {
    if let Some(permissions) = permissions {
        file.set_permissions(permissions)?;
    }
    file.write_all(text)?;
    file.sync_all()
}

// Renames a file that was written to the path. If writing or renaming failed, removes the file.
fn take_place<RT: Files>(
    rt: &RT,
    beside: &str,
    path: &str,
    written: io::Result<()>,
) -> io::Result<()> {
    let mut done = written;
    if done.is_ok() {
        done = fs::rename(rt, beside, path);
    }
    if done.is_err() {
        let _ = fs::remove_file(rt, beside);
    }
    done
}

// Replaces the file atomically. Uses the first free temporary name of `PATH.1.part`, `PATH.2.part` ..
fn exchange<RT: Files + AllocGlobal>(
    rt: &RT,
    path: &str,
    permissions: Option<Permissions>,
    text: &[u8],
) -> io::Result<()> {
    for number in 1..MOST_BESIDE {
        let beside = format!(in rt.alloc(); "{path}.{number}.part")?;
        match create_beside(rt, beside.as_str(), &permissions) {
            Ok(mut file) => {
                let written = write_new(&mut file, permissions, text);
                return take_place(rt, beside.as_str(), path, written);
            }
            Err(error) if error.kind() == ErrorKind::AlreadyExists => {}
            Err(error) => return Err(error),
        }
    }
    Err(io::Error::from(ErrorKind::AlreadyExists))
}

// Replaces the file atomically: it has all of the new text or its old content. Links and permissions stay.
//
// Writes directly to anything but a plain file, such as a terminal.
#[inline(never)]
fn replace<RT: Files + AllocGlobal>(rt: &RT, name: &str, text: &[u8]) -> io::Result<()> {
    let permissions = match fs::metadata(rt, name) {
        Ok(metadata) if metadata.is_file() => Some(metadata.permissions()),
        Ok(_) => {
            let mut file = fs::create(rt, name)?;
            return file.write_all(text);
        }
        Err(error) if error.kind() == ErrorKind::NotFound => None,
        Err(error) => return Err(error),
    };
    let path = end_of_links(rt, name)?;
    exchange(rt, path.as_path().as_str(), permissions, text)
}

/// Writes the whole text to the file, or nothing. Returns the text's exit status; on failure says so, and returns 3.
pub(crate) fn save<RT: Files + Eprint + AllocGlobal>(
    rt: &RT,
    name: &str,
    text: &[u8],
    status: u8,
) -> u8
    ensures { (result ≡ status) ⊎ (result ≡ 3) }
{
    match replace(rt, name, text) {
        Ok(()) => status,
        Err(error) => {
            say_of(rt, name, &error);
            3
        }
    }
}
