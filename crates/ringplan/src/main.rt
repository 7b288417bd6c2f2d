//! Plans, checks, shows, runs and judges changes of a replicated store's members.
#![tactic(auto)]

use ringplan_run::{Screen, end_without_memory, end_without_words, run_advised};
use std::env;
use std::env::{Env, FillError};
use std::io::{ErrorKind, IsTerminal, Read, Result as IoResult};
use std::process::ExitCode;

fn main(rt: HostRuntime) -> ExitCode {
    let mut output = rt.stdout();
    let mut input = Console {
        rt: &rt,
        is_new: true,
        is_over: false,
    };
    let status = match words(&rt) {
        Ok(words) => run_advised(&rt, screen(&rt), words.as_slice(), &mut input, &mut output),
        Err(ErrorKind::InvalidData) => end_without_words(&mut output),
        Err(_) => end_without_memory(&mut output),
    };
    ExitCode::from(status)
}

// Colours need a terminal as standard output, and an empty NO_COLOR or none (no-color.org).
fn screen(rt: &HostRuntime) -> Screen {
    let mut first = [0u8; 1];
    let is_forbidden = match rt.var("NO_COLOR", &mut first) {
        Ok(count) => count > 0,
        Err(FillError::TooLong) => true,
        Err(FillError::NotPresent) => false,
    };
    if !rt.stdout().is_terminal() {
        return Screen::Plain;
    }
    if is_forbidden {
        return Screen::Bare;
    }
    Screen::Colored
}

// The command line's words, if they are text and memory suffices.
fn words(rt: &HostRuntime) -> Result<Vec<String>, ErrorKind> {
    match env::args(rt) {
        Ok(arguments) => match arguments.collect::<Vec<String>>(rt.alloc()) {
            Ok(words) => Ok(words),
            Err(_) => Err(ErrorKind::OutOfMemory),
        },
        Err(error) => Err(error.kind()),
    }
}

// Standard input. Before a terminal's first read, standard error says that a bundle is awaited. An ended terminal is
// not asked again.
#[derive(Drop)]
struct Console<'a> {
    rt: &'a HostRuntime,
    is_new: bool,
    is_over: bool,
}

impl<'a> Read for Console<'a> {
    fn read(&mut self, buf: &mut [u8]) -> IoResult<usize> {
        if self.is_over {
            return Ok(0);
        }
        if self.is_new && self.rt.stdin().is_terminal() {
            let _ = eprint!(self.rt;
                "ringplan: reads a bundle from the terminal, up to Ctrl-D; ringplan check FILE reads a file\n"
            );
        }
        self.is_new = false;
        let count = self.rt.stdin().read(buf)?;
        self.is_over = count == 0 && !buf.is_empty();
        Ok(count)
    }
}
