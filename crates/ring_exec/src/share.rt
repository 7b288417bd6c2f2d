//! Counts of events, one for each thread.

ghost use Rattle.std.specs.Prelude.{◌≡◌, ◌<◌, ◌≤◌, ◌+◌};
ghost use Rattle.std.specs.List.{sum_by};

use std::sync::ledger::{Book, Ledger, Share as Token};

/// A ledger's count of a thread's accepted events. One thread has it at a time.
#[derive(Drop)]
pub struct Share<L: Ledger> {
    pub(crate) count: u64,
    pub(crate) token: Token<L>,
    ghost counted: { token.amount ≡ count },
    ghost some_part: { 0 < token.parts },
}

impl<L: Ledger> Share<L> {
    /// Returns the count of events.
    pub fn count(&self) -> u64
        ensures { result ≡ self.now.count }
    {
        self.count
    }

    /// Splits off a share with no events and one part of the ledger.
    pub fn split(&mut self) -> Share<L>
        requires { 2 ≤ self.old.token.parts }
        ensures new { (result.count ≡ 0) × (result.token.parts ≡ 1) }
        ensures count { self.new.count ≡ self.old.count }
        ensures parts { self.new.token.parts + 1 ≡ self.old.token.parts }
    {
        let token = self.token.split_off(1, 0);
        Share { count: 0, token }
    }
}

/// Returns the shares' count of events: the book's total, if they have all parts of the ledger.
pub(crate) fn count_of<L: Ledger>(book: &mut Book<L>, mut shares: Vec<Share<L>>) -> u64
    requires { book.old.total ≤ 1000000 }
    ensures count { result ≡ sum_by (λ s. s.count) shares.items }
    ensures whole { 0 < L.parts → sum_by (λ s. s.token.parts) shares.items ≡ L.parts → result ≡ book.old.total }
    ensures same { book.new.total ≡ book.old.total }
{
    let Some(first) = shares.pop() else {
        return 0;
    };
    let Share {
        mut count,
        mut token,
    } = first;
    book.audit(&mut token);
    while let Some(next) = shares.pop() {
        let Share {
            count: more,
            token: mut other,
        } = next;
        book.audit(&mut other);
        token.merge(other);
        book.audit(&mut token);
        count += more;
    }
    count
}
