//! Names, lists, rows and places.

ghost use Rattle.std.specs.Prelude.{◌≡◌, []};

use crate::same::{holds, same};
use ring_names::{Lists, Names, NodeId, Refusal, Rows, Value};
use ring_space::{Place, place};
use std::process::Abort;
use std::test::Fail;

fn add_name(names: &mut Names, name: &[u8]) -> Result<u32, Refusal> {
    if names.len() >= 100 {
        return Err(Refusal::OutOfMemory);
    }
    names.add(name)
}

fn numbered<RT: Abort>(rt: &RT, names: &mut Names) -> Result<(), Fail> {
    same!(rt; add_name(names, b"b")?, 0);
    same!(rt; add_name(names, b"a")?, 1);
    same!(rt; add_name(names, b"b")?, 0);
    same!(rt; names.len(), 2);
    same!(rt; names.number_of(b"a"), Some(1));
    holds!(rt; names.name_of(2).is_none());
    Ok(())
}

#[test]
fn names_numbered(rt: HostRuntime) -> Result<(), Fail> {
    let mut names = Names::new(rt.alloc());
    numbered(&rt, &mut names)
}

fn listed<RT: Abort>(rt: &RT, lists: &mut Lists<NodeId, u32>) -> Result<(), Fail> {
    lists.add(NodeId(3), 7)?;
    lists.add(NodeId(3), 8)?;
    same!(rt; lists.items(&NodeId(3)), [7, 8].as_slice());
    holds!(rt; lists.items(&NodeId(4)).is_empty());
    Ok(())
}

fn rowed<RT: Abort>(rt: &RT, rows: &mut Rows) -> Result<(), Fail>
    requires { rows.old ≡ [] }
{
    rows.push(&[])?;
    rows.push(&[5, 9])?;
    same!(rt; rows.len(), 2);
    same!(rt; rows.total(), 2);
    same!(rt; rows.row(1), [5, 9].as_slice());
    Ok(())
}

#[test]
fn lists_and_rows_kept(rt: HostRuntime) -> Result<(), Fail> {
    let mut lists = Lists::new(rt.alloc());
    listed(&rt, &mut lists)?;
    let mut rows = Rows::new(rt.alloc());
    rowed(&rt, &mut rows)
}

#[test]
fn values_limited(rt: HostRuntime) -> Result<(), Fail> {
    for (length, is_one) in [(0usize, true), (1024, true), (1025, false)] {
        let bytes = vec![in rt.alloc(); b' '; length]?;
        assert_eq!(rt;
            Value::of(rt.alloc(), bytes)?.is_some(),
            is_one,
            "at {length}"
        );
    }
    Ok(())
}

#[test]
fn values_copied(rt: HostRuntime) -> Result<(), Fail> {
    let bytes = Vec::from_slice(rt.alloc(), b"x1")?;
    let value = Value::of(rt.alloc(), bytes)?.ok_or("no value")?;
    let copy = value.try_copy()?;
    same!(rt; copy.as_slice(), b"x1".as_slice());
    Ok(())
}

const LETTERS: &[u8] = b"abcdefghijklmnopqrstuvwxyz";

// Places of keys by their digests in RFC 1321: 0cc1.., 9001.., c3fc.., and d41d.. for the empty key.
#[test]
#[tactic(auto, unfolding(ring_names::specs::Space::is_space))]
fn places(rt: HostRuntime) {
    let at = |partition, chunk| Place { partition, chunk };
    same!(rt; place(4, b"a"), at(0, 3));
    same!(rt; place(4, b"abc"), at(2, 4));
    same!(rt; place(4, LETTERS), at(3, 0));
    same!(rt; place(1, b"a"), at(0, 0));
    same!(rt; place(1, b"abc"), at(0, 9));
    same!(rt; place(1, LETTERS), at(0, 12));
    same!(rt; place(4096, LETTERS), at(3135, 12));
    same!(rt; place(4096, b""), at(3393, 13));
}
