//! What a reply's fields say, still text.

ghost use Rattle.std.specs.Prelude.{◌≡◌, true, IfOk, IfErr};
ghost use Rattle.ring_names.specs.declared.refusal.Refusal.TheVariants.{OutOfMemory};
ghost use Rattle.texts.specs.Numbers.{are_small};
ghost use Rattle.history_text.specs.Said.{reply_of};

use plan_runs::Reply;
use ring_names::{Listed, Refusal, Slot};
use std::alloc::Global;
use std::marker::Model;
use texts::NumberRow;

/// Numbers of 32 bits, still in the text.
#[derive(Drop)]
pub struct SmallRow<'a> {
    row: NumberRow<'a>,
}

impl<'a> Model for SmallRow<'a> {
    ghost use Rattle.std.specs.Prelude.{List, ℕ, ◌≡◌, true};
    ghost use Rattle.texts.specs.Numbers.{are_small};

    ghost Value = { List ℕ };

    ghost view = { λ a. a.row };

    ghost invariant = { λ a. are_small a.row ≡ true };
}

impl<'a> SmallRow<'a> {
    /// Wraps the numbers.
    pub fn of(row: NumberRow<'a>) -> SmallRow<'a>
        requires { are_small row ≡ true }
        ensures { result ≡ row.entry }
    {
        SmallRow { row }
    }

    /// Returns the numbers in owned memory.
    pub fn to_listed(&self, alloc: Global) -> Result<Listed<u32>, Refusal>
        ensures ok { IfOk result (λ numbers. numbers ≡ self.now) }
        ensures memory { IfErr result (λ e. e ≡ OutOfMemory) }
    {
        let numbers = self.row.to_vec(alloc)?;
        Ok(Listed::from_vec(numbers))
    }
}

/// A reply without memory of its own.
#[derive(Drop)]
pub enum SaidReply<'a> {
    Plain,
    Put(u32),
    Ticket(Slot, u32),
    Get(u32),
    Found(SmallRow<'a>),
    Answer(SmallRow<'a>),
}

impl<'a> SaidReply<'a> {
    /// Returns the reply in owned memory.
    pub fn to_reply(&self, alloc: Global) -> Result<Reply, Refusal>
        ensures ok { IfOk result (λ reply. reply ≡ reply_of self.now) }
        ensures memory { IfErr result (λ e. e ≡ OutOfMemory) }
    {
        match self {
            SaidReply::Plain => Ok(Reply::Plain),
            SaidReply::Put(number) => Ok(Reply::Put(*number)),
            SaidReply::Ticket(slot, generation) => Ok(Reply::Ticket(*slot, *generation)),
            SaidReply::Get(number) => Ok(Reply::Get(*number)),
            SaidReply::Found(puts) => {
                let puts = puts.to_listed(alloc)?;
                Ok(Reply::Found(puts))
            }
            SaidReply::Answer(puts) => {
                let puts = puts.to_listed(alloc)?;
                Ok(Reply::Answer(puts))
            }
        }
    }
}
