//! Opens an input.

ghost use Rattle.std.specs.Prelude.{◌≡◌, ◌≢◌, true, ℕ, List, IfOk, IfErr, Err};
ghost use Rattle.ring_names.specs.declared.refusal.Refusal.TheVariants.{OutOfMemory, ReadFailed};
ghost use Rattle.texts.specs.Parts.{lines_of};
ghost use Rattle.plan_cert.specs.declared.front.Front.{Front};
ghost use Rattle.plan_cert.specs.Front.{front_at};
ghost use Rattle.history_text.specs.Front.{IsFront};
ghost use Rattle.history_text.specs.Cutting.{HasNone, IsNoFront, IsOpened, IsTried};

use crate::front::{FrontText, read_front};
use crate::input::{Head, read_head};
use plan_cert::MAX_INPUT;
use ring_names::Refusal;
use std::alloc::Global;
use std::io::Read;

// How many bytes are searched for a front: first these, then `MIDDLE`.
const SHORT: usize = 1_048_576;

const MIDDLE: usize = 16_777_216;

/// An input's first bytes, and their front.
#[derive(Drop)]
pub struct Opened {
    pub head: Head,
    pub front: FrontText,
}

// Whether some first bytes have a whole front.
#[derive(Drop)]
enum Tried {
    Found(Opened),
    // No whole front, and the input goes on.
    More(Vec<u8>),
}

fn try_front(alloc: Global, head: Head) -> Result<Tried, Refusal>
    ensures ok { IfOk result (λ tried. IsTried head tried) }
    ensures err { IfErr result (λ e. e ≢ OutOfMemory → (head.is_whole ≡ true) × (front_at (record { line = 1; lines = lines_of head.bytes.items }) ≡ Err e)) }
{
    match read_front(alloc, head.bytes.as_slice()) {
        Ok(front) => Ok(Tried::Found(Opened { head, front })),
        Err(Refusal::OutOfMemory) => Err(Refusal::OutOfMemory),
        Err(refusal) => {
            if head.is_whole {
                Err(refusal)
            } else {
                Ok(Tried::More(head.bytes))
            }
        }
    }
}

fn last_front(alloc: Global, head: Head) -> Result<Opened, Refusal>
    ensures ok { IfOk result (λ opened. (opened.head ≡ head) × (value : Front) × (rest : List ℕ) × IsFront head.bytes.items opened.front value rest) }
    ensures err { IfErr result (λ e. e ≢ OutOfMemory → IsNoFront head e) }
{
    match read_front(alloc, head.bytes.as_slice()) {
        Ok(front) => Ok(Opened { head, front }),
        Err(Refusal::OutOfMemory) => Err(Refusal::OutOfMemory),
        Err(refusal) => Err(if head.is_whole {
            refusal
        } else {
            Refusal::TooLarge(0)
        }),
    }
}

/// Reads an input's front, and some bytes after it: few if the front is short.
pub fn open<R: Read + Drop>(alloc: Global, input: &mut R) -> Result<Opened, Refusal>
    ensures ok { IfOk result (λ opened. IsOpened (R.remaining input.old) (R.remaining input.new) opened) }
    ensures err { IfErr result (λ e. e ≢ OutOfMemory → e ≢ ReadFailed → HasNone (R.remaining input.old) (R.remaining input.new) e) }
{
    let head = read_head(alloc, Vec::new(alloc), input, SHORT)?;
    let bytes = match try_front(alloc, head)? {
        Tried::Found(opened) => return Ok(opened),
        Tried::More(bytes) => bytes,
    };
    let head = read_head(alloc, bytes, input, MIDDLE)?;
    let bytes = match try_front(alloc, head)? {
        Tried::Found(opened) => return Ok(opened),
        Tried::More(bytes) => bytes,
    };
    let head = read_head(alloc, bytes, input, MAX_INPUT)?;
    last_front(alloc, head)
}
