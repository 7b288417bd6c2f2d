//! The subjects of facts.

ghost use Rattle.std.specs.Prelude.{◌≡◌, ◌++◌, IfOk};
ghost use Rattle.change_text.specs.Facts.{subject_of};

use crate::layout::Fact;
use ring_names::push_decimal;
use std::alloc::{AllocError, Global};

fn about(alloc: Global, word: &[u8], node: &[u8]) -> Result<Vec<u8>, AllocError>
    ensures { IfOk result (λ subject. subject.items ≡ word.now ++ node.now) }
{
    let mut subject = Vec::from_slice(alloc, word)?;
    subject.extend_from_slice(node)?;
    Ok(subject)
}

/// Returns a fact's subject: the first two fields of its line.
pub fn subject_of(alloc: Global, fact: &Fact) -> Result<Vec<u8>, AllocError>
    ensures { IfOk result (λ subject. subject.items ≡ subject_of fact.now) }
{
    match fact {
        Fact::Rack { node, rack: _ } => about(alloc, b"rack ", node.as_slice()),
        Fact::Weight { node, parts: _ } => about(alloc, b"weight ", node.as_slice()),
        Fact::Alias { node, alias: _ } => about(alloc, b"alias ", node.as_slice()),
        Fact::Size { partition, size: _ } => {
            let mut subject = Vec::from_slice(alloc, b"size ")?;
            push_decimal(&mut subject, *partition)?;
            Ok(subject)
        }
        Fact::Dead { node } => about(alloc, b"dead ", node.as_slice()),
    }
}
