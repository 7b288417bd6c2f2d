//! Makes the manual page, in man(7), from all help.

use crate::help::{ABOUT, STREAMS, VERSION};
use crate::tree::command;
use clap::Error;
use clap::error::ErrorKind;
use std::alloc::{AllocError, Global};
use std::convert::AsStr;
use texts::Words;

const STATUSES: &str = "Exit status:\n";

pub(crate) fn manual(alloc: Global) -> Result<Vec<u8>, AllocError> {
    let (about, statuses) = STREAMS.split_once(STATUSES).unwrap_or((STREAMS, ""));
    let mut out = Words::new(alloc);
    out.fill(
        b".TH RINGPLAN 1 \"\" \"ringplan @\" \"User Commands\"\n.SH NAME\nringplan \\- @\n.SH SYNOPSIS\n",
        &[VERSION.as_bytes(), ABOUT.as_bytes()],
        &[],
    );
    out.text(b".B ringplan\n.I command\n[\\fIoptions\\fR] [\\fIfile\\fR]\n.SH DESCRIPTION\n");
    push_lines(&mut out, about);
    out.text(b".SH COMMANDS\n");
    push_commands(alloc, &mut out)?;
    out.text(b".SH EXIT STATUS\n");
    push_lines(&mut out, statuses);
    match out.end() {
        Ok(text) => Ok(text),
        Err(_) => Err(AllocError),
    }
}

fn push_commands(alloc: Global, out: &mut Words) -> Result<(), AllocError> {
    let program = command(alloc)?;
    for sub in program.get_subcommands() {
        let name = sub.get_name();
        let help = help_of(alloc, &["ringplan", name, "--help"])?;
        out.fill(b".SS @\n", &[name.as_bytes()], &[]);
        push_lines(out, help.as_str());
    }
    Ok(())
}

fn help_of<S: AsStr>(alloc: Global, words: &[S]) -> Result<String, AllocError> {
    match command(alloc)?.try_get_matches_from(words) {
        Ok(_matches) => Err(AllocError),
        Err(error) => text_of(alloc, &error),
    }
}

// Returns the help. Any other error means that memory ran out.
fn text_of(alloc: Global, error: &Error) -> Result<String, AllocError> {
    if error.kind() == ErrorKind::DisplayHelp {
        return format!(in alloc; "{error}");
    }
    Err(AllocError)
}

// Adds a help text's lines. An indented line begins a list entry, or continues one if indented by ten.
fn push_lines(out: &mut Words, text: &str) {
    let mut is_apart = false;
    for line in text.lines() {
        let words = line.trim_start();
        let indent = line.len().saturating_sub(words.len());
        if words.is_empty() {
            is_apart = true;
        } else if indent == 0 {
            if is_apart || words.starts_with("Standard output") {
                out.text(b".PP\n");
            }
            is_apart = false;
            push_line(out, words);
        } else if indent < 10 {
            push_entry(out, words);
        } else {
            push_line(out, words);
        }
    }
}

// Adds a list entry: a name, and perhaps two spaces and words.
fn push_entry(out: &mut Words, entry: &str) {
    let (name, words) = entry.split_once("  ").unwrap_or((entry, ""));
    out.text(b".TP\n.B ");
    push_line(out, name);
    if !words.is_empty() {
        push_line(out, words.trim_start());
    }
}

// Escapes the line for roff.
fn push_line(out: &mut Words, line: &str) {
    if line.starts_with('.') || line.starts_with('\'') {
        out.text(b"\\&");
    }
    for byte in line.as_bytes() {
        match *byte {
            b'\\' => out.text(b"\\e"),
            b'-' => out.text(b"\\-"),
            b'`' => out.text(b"\\(ga"),
            b'\'' => out.text(b"\\(aq"),
            other => out.byte(other),
        }
    }
    out.byte(b'\n');
}
