//! Reads files as one text.

ghost use Rattle.std.specs.Prelude.{◌≡◌, ◌⊎◌, IfErr};

use crate::files::{Limit, open, say};
use crate::program::{FAILED, NO_MEMORY};
use std::io;
use std::io::Read;
use std::rt::Files;

/// Files read in order, as one. The input may be among them.
#[derive(Drop)]
pub(crate) struct Several<'a, F, R> {
    // None is the input.
    parts: Vec<Option<F>>,
    input: &'a mut R,
    ended: usize,
}

impl<'a, F: Read + Drop, R: Read + Drop> Several<'a, F, R> {
    ghost use Rattle.std.specs.Io.{ReadsAtMost};

    fn read_part(&mut self, place: usize, buf: &mut [u8]) -> io::Result<usize>
        ensures { ReadsAtMost result buf.new }
    {
        match self.parts.get_mut(place) {
            Some(Some(file)) => file.read(buf),
            _ => self.input.read(buf),
        }
    }
}

impl<'a, F: Read + Drop, R: Read + Drop> Read for Several<'a, F, R> {
    fn read(&mut self, buf: &mut [u8]) -> io::Result<usize> {
        for place in self.ended..self.parts.len() {
            let count = self.read_part(place, buf)?;
            if count > 0 || buf.is_empty() {
                return Ok(count);
            }
            self.ended = place.saturating_add(1);
        }
        Ok(0)
    }
}

/// Opens files to read in order; `-` names the input. Fails as `open` does.
pub(crate) fn open_all<'a, RT: AllocGlobal + Files + Eprint, R: Read + Drop>(
    rt: &RT,
    names: &[String],
    limit: Limit,
    input: &'a mut R,
) -> Result<Several<'a, RT::File, R>, u8>
    ensures { IfErr result (λ status. (status ≡ 2) ⊎ (status ≡ 3)) }
{
    let mut parts = Vec::new(rt.alloc());
    for name in names {
        let part = if name.as_str() == "-" {
            None
        } else {
            Some(open(rt, name.as_str(), limit)?)
        };
        if parts.push(part).is_err() {
            say(rt, NO_MEMORY);
            return Err(FAILED);
        }
    }
    Ok(Several {
        parts,
        input,
        ended: 0,
    })
}
