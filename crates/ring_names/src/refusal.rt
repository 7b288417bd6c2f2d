//! The only refusal type.

ghost use Rattle.std.specs.Prelude.{◌≡◌, ◌<◌, ◌++◌, ◌∷◌, OnOk, option_to_list};
ghost use Rattle.std.specs.Fmt.{decimal};
ghost use Rattle.ring_names.specs.Refusals.{number_of, values_of, line_of};

use crate::decimal::push_decimal;
use std::alloc::{AllocError, AllocFailed};
use std::fmt;
use thiserror::Error;

/// Why a text, a plan, an event or a run was refused.
///
/// Lines count from 1; steps, facts, chains, nodes and entries from 0.
#[derive(Clone, Copy, PartialEq, Eq, Error)]
pub enum Refusal {
    /// 1 (line): not in the grammar.
    BadLine(u32),
    /// 2 (line): over a limit.
    TooLarge(u32),
    /// 3 (line): an undeclared name.
    UnknownNode(u32),
    /// 4 (line): declared, joined, retired or named twice.
    Repeated(u32),
    /// 10 (line): not 1 <= R <= N, 1 <= W <= N and R + W > N + f, if f nodes may lose their data.
    QuorumTooSmall(u32),
    /// 11 (line): one owner twice in a partition.
    SharedNode(u32),
    /// 12 (line; events: node): not a member.
    NotMember(u32),
    /// 20 (line): the dependency is not an earlier step.
    LaterDependency(u32),
    /// 21 (step): does not fit the slot's stage.
    WrongStage(u32),
    /// 22 (step): not ordered after the slot's previous step.
    UnorderedSlot(u32),
    /// 23 (step): lists a slot twice, or fewer than R slots.
    BadSource(u32),
    /// 24 (step): a listed slot's switch is neither before nor after the copy.
    MovingSource(u32),
    /// 25 (step): the node may still serve another slot of the partition, from the start or since an earlier step.
    SharedInPlan(u32),
    /// 26 (step): the node is `out`, without a join ordered before the mirror or retirement.
    NotJoined(u32),
    /// 27 (step): a slot that the node owned or mirrored has no drop ordered before the retirement.
    RetiredInUse(u32),
    /// 28: the planner found no plan.
    NoPlan,
    /// 30 (fact): fewer than two steps, or a link that is not a direct dependency.
    BadPath(u32),
    /// 32 (node, step): the node takes part in the copy, but none of its chains has it.
    CoverMissing(u32, u32),
    /// 33 (chain): an unordered link, or an entry that is not a copy with the node.
    ChainBroken(u32),
    /// 34 (node): more chains than the allowance of a side.
    TooManyChains(u32),
    /// 40: a dependency is not done, or a named get has not ended.
    NotReady,
    /// 41: already done.
    AlreadyDone,
    /// 42 (node): not up.
    NodeDown(u32),
    /// 43: the keeper has a hint for another slot of the partition.
    KeeperTaken,
    /// 44: the keeper owns or mirrors a slot of the partition.
    KeeperInPartition,
    /// 45 (current): fewer than W current tickets.
    StaleTickets(u32),
    /// 46 (read): fewer than R slots read.
    TooFewSlots(u32),
    /// 47: no such step, put, get, partition, slot or chunk.
    UnknownNumber,
    /// 48: hints must be handed off first.
    HintsLeft,
    /// 49: the copy is not open.
    NotOpen,
    /// 50 (left): so many chunks are unmarked.
    ChunksLeft(u32),
    /// 51: the history has 1,000,000 entries.
    HistoryFull,
    /// 52: the allowed number of nodes lost their data.
    LossesSpent,
    /// 60: memory ran out.
    OutOfMemory,
    /// 61: the input failed.
    ReadFailed,
    /// 62: the output failed.
    WriteFailed,
    /// 70 (index, code): the first entry refused (with that code), or with another reply (code 0).
    Mismatch(u32, u32),
    /// 70: the run's records disagree.
    Disagree,
    /// 71: a limit of turns is used up.
    TurnsSpent,
}

impl Refusal {
    /// Returns the number that formats and programs use.
    pub fn number(&self) -> u8
        ensures { result ≡ number_of self.now }
    {
        match self {
            Refusal::BadLine(_) => 1,
            Refusal::TooLarge(_) => 2,
            Refusal::UnknownNode(_) => 3,
            Refusal::Repeated(_) => 4,
            Refusal::QuorumTooSmall(_) => 10,
            Refusal::SharedNode(_) => 11,
            Refusal::NotMember(_) => 12,
            Refusal::LaterDependency(_) => 20,
            _ => self.number_past_texts(),
        }
    }

    fn number_past_texts(&self) -> u8
        requires { 20 < number_of self.now }
        ensures { result ≡ number_of self.now }
    {
        match self {
            Refusal::WrongStage(_) => 21,
            Refusal::UnorderedSlot(_) => 22,
            Refusal::BadSource(_) => 23,
            Refusal::MovingSource(_) => 24,
            Refusal::SharedInPlan(_) => 25,
            Refusal::NotJoined(_) => 26,
            Refusal::RetiredInUse(_) => 27,
            Refusal::NoPlan => 28,
            Refusal::BadPath(_) => 30,
            Refusal::CoverMissing(_, _) => 32,
            Refusal::ChainBroken(_) => 33,
            Refusal::TooManyChains(_) => 34,
            _ => self.number_past_plans(),
        }
    }

    fn number_past_plans(&self) -> u8
        requires { 34 < number_of self.now }
        ensures { result ≡ number_of self.now }
    {
        match self {
            Refusal::NotReady => 40,
            Refusal::AlreadyDone => 41,
            Refusal::NodeDown(_) => 42,
            Refusal::KeeperTaken => 43,
            Refusal::KeeperInPartition => 44,
            Refusal::StaleTickets(_) => 45,
            Refusal::TooFewSlots(_) => 46,
            Refusal::UnknownNumber => 47,
            Refusal::HintsLeft => 48,
            Refusal::NotOpen => 49,
            Refusal::ChunksLeft(_) => 50,
            Refusal::HistoryFull => 51,
            Refusal::LossesSpent => 52,
            Refusal::OutOfMemory => 60,
            Refusal::ReadFailed => 61,
            Refusal::WriteFailed => 62,
            Refusal::Mismatch(_, _) | Refusal::Disagree => 70,
            Refusal::TurnsSpent => 71,
            _ => unreachable!(),
        }
    }

    /// Adds the line: `no`, number, values, newline.
    pub fn write_line(&self, out: &mut Vec<u8>) -> Result<(), AllocError>
        ensures ok { OnOk result (out.new.items ≡ out.old.items ++ line_of self.now) }
    {
        out.extend_from_slice(b"no")?;
        push_spaced(out, self.number() as u32)?;
        let (first, second) = self.values();
        if let Some(value) = first {
            push_spaced(out, value)?;
        }
        if let Some(value) = second {
            push_spaced(out, value)?;
        }
        out.push(b'\n')?;
        Ok(())
    }

    /// Returns the line's values, in order.
    pub fn values(&self) -> (Option<u32>, Option<u32>)
        ensures { option_to_list result.0 ++ option_to_list result.1 ≡ values_of self.now }
    {
        match self {
            Refusal::BadLine(a)
            | Refusal::TooLarge(a)
            | Refusal::UnknownNode(a)
            | Refusal::Repeated(a)
            | Refusal::QuorumTooSmall(a)
            | Refusal::SharedNode(a)
            | Refusal::NotMember(a)
            | Refusal::LaterDependency(a)
            | Refusal::WrongStage(a)
            | Refusal::UnorderedSlot(a)
            | Refusal::BadSource(a)
            | Refusal::MovingSource(a)
            | Refusal::SharedInPlan(a)
            | Refusal::NotJoined(a)
            | Refusal::RetiredInUse(a)
            | Refusal::BadPath(a)
            | Refusal::ChainBroken(a)
            | Refusal::TooManyChains(a)
            | Refusal::NodeDown(a)
            | Refusal::StaleTickets(a)
            | Refusal::TooFewSlots(a)
            | Refusal::ChunksLeft(a) => (Some(*a), None),
            Refusal::CoverMissing(a, b) | Refusal::Mismatch(a, b) => (Some(*a), Some(*b)),
            _ => (None, None),
        }
    }
}

impl fmt::Display for Refusal {
    fn fmt<W: fmt::Write>(&self, f: &mut fmt::Formatter<W>) -> fmt::Result {
        let number = self.number();
        match self.values() {
            (Some(first), Some(second)) => write!(f, "no {number} {first} {second}"),
            (Some(first), None) => write!(f, "no {number} {first}"),
            _ => write!(f, "no {number}"),
        }
    }
}

impl fmt::Debug for Refusal {
    fn fmt<W: fmt::Write>(&self, f: &mut fmt::Formatter<W>) -> fmt::Result {
        write!(f, "{self}")
    }
}

fn push_spaced(out: &mut Vec<u8>, number: u32) -> Result<(), AllocError>
    ensures { OnOk result (out.new.items ≡ out.old.items ++ 32 ∷ decimal number) }
{
    out.push(b' ')?;
    push_decimal(out, number)
}

impl From<AllocError> for Refusal {
    ghost use Rattle.ring_names.specs.declared.refusal.Refusal.TheVariants.{OutOfMemory};

    ghost from_gives = { λ _ e. e ≡ OutOfMemory };

    fn from(_e: AllocError) -> Refusal {
        Refusal::OutOfMemory
    }
}

impl<T: Drop> From<AllocFailed<T>> for Refusal {
    ghost use Rattle.ring_names.specs.declared.refusal.Refusal.TheVariants.{OutOfMemory};

    ghost from_gives = { λ _ e. e ≡ OutOfMemory };

    fn from(_e: AllocFailed<T>) -> Refusal {
        Refusal::OutOfMemory
    }
}
