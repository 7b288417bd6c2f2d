//! Why texts are refused.

use crate::faults::{later_dependency, not_member, repeated, shared_node};
use crate::limits::too_large;
use crate::lines::bad_line;
use crate::names::unknown_node;
use crate::page::Page;
use crate::quorum::quorum;
use crate::said::Said;
use ring_names::Refusal;
use std::alloc::Global;

/// Reports why texts are refused. Returns whether they are.
pub fn tell_text(
    alloc: Global,
    said: &mut Said,
    bytes: &[u8],
    refusal: &Refusal,
) -> Result<bool, Refusal> {
    let page = Page { bytes };
    match refusal {
        Refusal::BadLine(line) => bad_line(alloc, said, page, *line)?,
        Refusal::TooLarge(line) => too_large(said, page, *line),
        Refusal::UnknownNode(line) => unknown_node(alloc, said, page, *line)?,
        Refusal::Repeated(line) => repeated(said, page, *line),
        Refusal::QuorumTooSmall(line) => quorum(said, page, *line),
        Refusal::SharedNode(line) => shared_node(said, page, *line),
        Refusal::NotMember(line) => not_member(said, page, *line),
        Refusal::LaterDependency(line) => later_dependency(said, page, *line),
        _ => return Ok(false),
    }
    Ok(true)
}
