//! Joins the results for a line's fields.

ghost use Rattle.std.specs.Prelude.{◌≡◌, []};
ghost use Rattle.texts.specs.Judging.{both_of, end_at, need_at, map_ok};

use crate::fields::Fields;
use ring_names::Refusal;

/// Returns both values, or the refusal with the least number.
#[tactic(auto, unfolding(crate::specs::Judging::both_of))]
pub fn both<A: Drop, B: Drop>(
    first: Result<A, Refusal>,
    second: Result<B, Refusal>,
) -> Result<(A, B), Refusal>
    ensures { result ≡ both_of first second }
{
    match (first, second) {
        (Ok(a), Ok(b)) => Ok((a, b)),
        (Ok(_), Err(f)) => Err(f),
        (Err(e), Ok(_)) => Err(e),
        (Err(e), Err(f)) => Err(if f.number() < e.number() { f } else { e }),
    }
}

fn outcome<A>(item: &Result<A, Refusal>) -> Result<(), Refusal>
    ensures { result ≡ map_ok (λ _. tt) item.now }
{
    match item {
        Ok(_) => Ok(()),
        Err(e) => Err(*e),
    }
}

/// Fails with `TooLarge` unless there is room.
pub fn need(room: bool, fields: &Fields) -> Result<(), Refusal>
    ensures { result ≡ (need_at fields.now.number room []).0 }
{
    if room {
        Ok(())
    } else {
        Err(Refusal::TooLarge(fields.line()))
    }
}

/// Returns `item`. Fails with `BadLine` if a field is left.
pub fn finish<A: Drop>(item: Result<A, Refusal>, fields: Fields) -> Result<A, Refusal>
    ensures { result ≡ map_ok (λ x. x.0) (both_of item (end_at fields.entry.number fields.entry.fields).0) }
{
    let mut fields = fields;
    let end = fields.ended();
    match both(item, end) {
        Ok((value, ())) => Ok(value),
        Err(e) => Err(e),
    }
}

/// Returns the last two values, or the least fault. A field that is left is a fault too.
#[tactic(auto, unfolding(crate::specs::Judging::both_of))]
pub fn finish_both<Z: Drop, A: Drop, B: Drop>(
    before: Result<Z, Refusal>,
    first: Result<A, Refusal>,
    second: Result<B, Refusal>,
    fields: Fields,
) -> Result<(A, B), Refusal>
    ensures { result ≡ map_ok (λ x. (x.0.0.1, x.0.1))
        (both_of (both_of (both_of before first) second) (end_at fields.entry.number fields.entry.fields).0) }
{
    let faults = both(both(before, outcome(&first)), outcome(&second));
    match finish(faults, fields) {
        Ok(_) => Ok((first?, second?)),
        Err(e) => Err(e),
    }
}
