//! Faulty certificates.

use crate::case::Case;
use crate::roles::{CopyRole, role_at, roles};
use ring_names::{NodeId, Refusal};
use ring_table::{Allowance, NodeSide, Side};
use show_why::{Said, field};
use texts::small;

// The first two adjacent steps without a known order, and their place.
fn gap(case: Case, path: &[u32], is_fact: bool) -> Option<(usize, u32, u32)> {
    for place in 1..path.len() {
        let (first, second) = (path[place - 1], path[place]);
        let is_known = second < case.plan.len()
            && if is_fact {
                case.plan.depends(first, second)
            } else {
                case.is_ordered(first, second)
            };
        if !is_known {
            return Some((place, first, second));
        }
    }
    None
}

/// Reports a fact that is not a path of dependencies.
pub fn bad_path(case: Case, said: &mut Said, number: u32) {
    said.title_with(b"fact # is not a path of the plan", &[], &[number]);
    if number as usize >= case.cert.facts.len() {
        return;
    }
    let line = case.fact_line(number);
    let path = case.cert.facts.row(number as usize);
    let Some((place, first, second)) = gap(case, path, true) else {
        return said.fault(line, b"");
    };
    let at = case.page.at(line, place, place.saturating_add(1));
    said.fault_at_with(
        at,
        b"step # does not wait for step #",
        &[],
        &[second, first],
    );
    if second < case.plan.len() {
        case.beside(said, second);
    }
}

fn chain_word(case: Case, node: u32, role: CopyRole) -> &'static [u8] {
    match case.ring.nodes().get(node as usize) {
        Some(declared) => match (declared.allowance, role) {
            (Allowance::Joint(_), _) => b"chain",
            (Allowance::Split { .. }, CopyRole::Takes) => b"take",
            (Allowance::Split { .. }, CopyRole::Gives) => b"give",
        },
        None => b"chain",
    }
}

fn show_chains(case: Case, said: &mut Said, node: u32, side: Option<Side>) {
    let mut count = 0u32;
    for place in 0..case.cert.chains.len() {
        let of = case.cert.chains.of(place);
        let is_one = of.node.0 == node && (side.is_none() || side == Some(of.side));
        if is_one && count < 6 {
            count = count.saturating_add(1);
            said.beside(case.chain_line(small(place)), b"");
        }
    }
}

/// Reports a copy missing from a node's chains.
pub fn cover_missing(case: Case, said: &mut Said, node: u32, number: u32) -> Result<(), Refusal> {
    let name = case.name(node);
    said.title_with(b"no chain of @ has its copy, step #", &[name], &[number]);
    let roles = roles(case, NodeId(node))?;
    let role = role_at(roles.as_slice(), number).unwrap_or(CopyRole::Gives);
    let about: &[u8] = if role == CopyRole::Takes {
        b"step # copies to @"
    } else {
        b"step # reads from @"
    };
    said.fault_with(case.step_line(number), about, &[name], &[number]);
    show_chains(case, said, node, None);
    said.mend(b"a chain of its own");
    said.put(case.cert_end());
    said.add_with(b"@", &[chain_word(case, node, role)], &[]);
    said.add_with(b" @ #\nend\n", &[name], &[number]);
    Ok(())
}

fn counts(side: Side, role: Option<CopyRole>) -> bool {
    match side {
        Side::Both => role.is_some(),
        Side::Take => role == Some(CopyRole::Takes),
        Side::Give => role == Some(CopyRole::Gives),
    }
}

fn misfit(case: Case, of: NodeSide, steps: &[u32]) -> Result<Option<u32>, Refusal> {
    let roles = roles(case, of.node)?;
    for step in steps {
        if !counts(of.side, role_at(roles.as_slice(), *step)) {
            return Ok(Some(*step));
        }
    }
    Ok(None)
}

/// Reports a step foreign to the chain, or two unordered steps.
pub fn chain_broken(case: Case, said: &mut Said, number: u32) -> Result<(), Refusal> {
    said.title_with(b"chain # is not in order", &[], &[number]);
    if number as usize >= case.cert.chains.len() {
        return Ok(());
    }
    let of = case.cert.chains.of(number as usize);
    let steps = case.cert.chains.steps(number as usize);
    let name = case.name(of.node.0);
    said.fault_with(
        case.chain_line(number),
        b"chain #, of @",
        &[name],
        &[number],
    );
    if let Some(step) = misfit(case, of, steps)? {
        said.title_with(
            b"chain # of @ has step #, in which @ has no such part",
            &[name, name],
            &[number, step],
        );
        if step < case.plan.len() {
            case.beside(said, step);
        }
        shorten(case, said, number, step);
        return Ok(());
    }
    if let Some((_, first, second)) = gap(case, steps, false) {
        tell_link(case, said, first, second);
    }
    Ok(())
}

fn shorten(case: Case, said: &mut Said, number: u32, step: u32) {
    if number as usize >= case.cert.chains.len() {
        return;
    }
    let line = case.chain_line(number);
    let steps = case.cert.chains.steps(number as usize);
    said.put(line);
    if steps.iter().all(|other| *other == step) {
        return said.mend_with(b"line # goes", &[], &[line]);
    }
    said.mend(b"without that step");
    let text = case.page.text(line);
    said.add_with(b"@ @", &[field(text, 0), field(text, 1)], &[]);
    for other in steps {
        if *other != step {
            said.add_with(b" #", &[], &[*other]);
        }
    }
    said.add(b"\n")
}

fn tell_link(case: Case, said: &mut Said, first: u32, second: u32) {
    case.beside(said, first);
    said.beside_with(
        case.step_line(second),
        b"step # does not wait for step #",
        &[],
        &[second, first],
    );
    if first >= second {
        return;
    }
    said.mend_with(b"let step # wait for step #", &[], &[second, first]);
    case.wait(said, second, first);
    said.note(b"If a step waits for another by way of others, a fact with these steps shows it.")
}

fn last_two(case: Case, of: NodeSide) -> Option<(usize, usize)> {
    let mut last: Option<usize> = None;
    let mut before: Option<usize> = None;
    for place in 0..case.cert.chains.len() {
        if case.cert.chains.of(place) == of {
            before = last;
            last = Some(place);
        }
    }
    Some((before?, last?))
}

fn count_chains(case: Case, of: NodeSide) -> u32 {
    let mut count = 0u32;
    for place in 0..case.cert.chains.len() {
        if case.cert.chains.of(place) == of {
            count = count.saturating_add(1);
        }
    }
    count
}

// The crowded side, its number of chains, and their limit.
fn crowded(case: Case, node: u32) -> Option<(NodeSide, u32, u32)> {
    for side in [Side::Both, Side::Take, Side::Give] {
        let of = NodeSide {
            node: NodeId(node),
            side,
        };
        let count = count_chains(case, of);
        if let Some(most) = case.ring.allowance(of) {
            if count > most {
                return Some((of, count, most));
            }
        }
    }
    None
}

/// What may lower the number of chains.
#[derive(Clone, Copy, Debug, PartialEq, Eq)]
pub enum Remedy {
    /// No other certificate was sought, or the search does not tell.
    Unknown,
    /// Another accepted certificate.
    Certificate,
    /// Only another plan: no certificate has few enough chains.
    Plan,
}

/// Reports a node with more chains than its allowance.
pub fn too_many_chains(case: Case, said: &mut Said, node: u32, remedy: Remedy) {
    let Some((of, count, most)) = crowded(case, node) else {
        return said.title(b"a node has more chains than its allowance");
    };
    said.title_with(
        b"the certificate has # chains of @, whose allowance is #",
        &[case.name(node)],
        &[count, most],
    );
    said.beside(case.node_line(node), b"its allowance");
    show_chains(case, said, node, Some(of.side));
    if remedy == Remedy::Certificate {
        return said.note(
            b"The plan's order allows fewer: `ringplan cert < FILE > MENDED` finds them; then the checker says yes.",
        );
    }
    if remedy == Remedy::Plan {
        said.note_with(
            b"By the plan's order more than # of its copies may run at once, so no certificate has as few chains.",
            &[],
            &[most],
        );
    } else {
        said.note(
            b"The plan's order may allow fewer: `ringplan cert < FILE > MENDED` looks for them.",
        );
    }
    join_chains(case, said, of)
}

fn join_chains(case: Case, said: &mut Said, of: NodeSide) {
    said.note(
        b"Each chain is one transfer at a time. Join two: let the first copy of one wait for the last of the other.",
    );
    match last_two(case, of) {
        Some((first, second)) => put_behind(case, said, first, second),
        None => {}
    }
}

// Appends one chain to the other, if possible.
fn put_behind(case: Case, said: &mut Said, first: usize, second: usize) {
    if first >= case.cert.chains.len() || second >= case.cert.chains.len() {
        return;
    }
    let (one, other) = (
        case.cert.chains.steps(first),
        case.cert.chains.steps(second),
    );
    let (Some(last), Some(next)) = (one.last(), other.first()) else {
        return;
    };
    if *last >= *next {
        return;
    }
    let (line, gone) = (
        case.chain_line(small(first)),
        case.chain_line(small(second)),
    );
    said.mend_with(b"one behind the other, and line # goes", &[], &[gone]);
    case.wait(said, *next, *last);
    said.put(line);
    said.add_with(b"@", &[case.page.text(line)], &[]);
    for step in other {
        said.add_with(b" #", &[], &[*step]);
    }
    said.add(b"\n");
    said.put(gone)
}
