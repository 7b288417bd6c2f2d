//! Reads a certificate.

ghost use Rattle.std.specs.Prelude.{◌≡◌, ◌≤◌, ◌+◌, ◌<◌, ◌++◌, ◌∷◌, [], length, codes, true, Ok, IfOk, IfErr, OnOk};
ghost use Rattle.ring_names.specs.declared.refusal.Refusal.TheVariants.{OutOfMemory};
ghost use Rattle.texts.specs.Left.{Reads, begins_so, is_word, many_from};
ghost use Rattle.texts.specs.Late.{Late, NoFaultBefore};
ghost use Rattle.texts.specs.Judging.{Gives, map_ok};
ghost use Rattle.texts.specs.Numbers.{are_small};
ghost use Rattle.plan_cert.specs.Reading.{fact_at, chain_at, begins_chain, cert_at, cert_reading};
ghost use Rattle.plan_cert.specs.Said.{chain_said};
ghost use Rattle.plan_cert.specs.Spelling.{cert_format, cert_text};
ghost use Rattle.plan_cert.specs.Valid.{IsCert, Suits};
ghost use Rattle.plan_cert.specs.declared.cert.Cert.{Cert};

use crate::cert::Cert;
use crate::chains::Chains;
use crate::lines::{ChainLine, chain_line, fact_line};
use crate::plain::{take_chain, take_fact};
use ring_names::{Refusal, Rows};
use ring_table::Ring;
use std::alloc::Global;
use texts::{Lines, NumberRow, end, header};

fn add_fact(alloc: Global, facts: &mut Rows, path: NumberRow) -> Result<(), Refusal>
    requires { are_small path ≡ true }
    ensures ok { OnOk result (facts.new ≡ facts.old ++ path.entry ∷ []) }
    ensures grows { OnOk result (length facts.new ≡ length facts.old + 1) }
    ensures memory { IfErr result (λ e. e ≡ OutOfMemory) }
{
    if let Some(few) = path.kept() {
        return facts.push(few);
    }
    let steps = path.to_vec(alloc)?;
    facts.push(steps.as_slice())
}

fn add_chain(alloc: Global, chains: &mut Chains, said: ChainLine) -> Result<(), Refusal>
    requires { are_small said.steps ≡ true }
    ensures ok { OnOk result (chains.new ≡ chains.old ++ chain_said said.entry ∷ []) }
    ensures grows { OnOk result (length chains.new ≡ length chains.old + 1) }
    ensures memory { IfErr result (λ e. e ≡ OutOfMemory) }
{
    if let Some(few) = said.steps.kept() {
        return chains.push(said.of, few);
    }
    let steps = said.steps.to_vec(alloc)?;
    chains.push(said.of, steps.as_slice())
}

fn read_facts(alloc: Global, facts: &mut Rows, lines: &mut Lines) -> Result<(), Refusal>
    requires none { facts.old ≡ [] }
    ensures read { Reads (map_ok (λ _. facts.new) result) lines.new
        (many_from (is_word (codes "fact")) fact_at facts.old lines.old.line lines.old.lines) }
    ensures late { Late 1 result lines.old lines.new
        (many_from (is_word (codes "fact")) fact_at facts.old lines.old.line lines.old.lines) }
{
    let mut steps = Vec::new(alloc);
    'facts: while lines.begins(b"fact") {
        if take_fact(facts, lines, &mut steps) {
            continue 'facts;
        }
        let fields = lines.next()?;
        let path = fact_line(facts, fields)?;
        add_fact(alloc, facts, path)?;
    }
    Ok(())
}

fn begins_chain(ring: &Ring, lines: &Lines) -> bool
    ensures { result ≡ begins_so (begins_chain ring.now) lines.now.lines }
{
    lines.begins(b"chain")
        || (ring.format() != 1 && (lines.begins(b"take") || lines.begins(b"give")))
}

fn read_chains(
    alloc: Global,
    ring: &Ring,
    chains: &mut Chains,
    lines: &mut Lines,
) -> Result<(), Refusal>
    requires none { chains.old ≡ [] }
    ensures read { Reads (map_ok (λ _. chains.new) result) lines.new
        (many_from (begins_chain ring.now) (chain_at ring.now) chains.old lines.old.line lines.old.lines) }
    ensures late { Late 1 result lines.old lines.new
        (many_from (begins_chain ring.now) (chain_at ring.now) chains.old lines.old.line lines.old.lines) }
{
    let mut steps = Vec::new(alloc);
    'chains: while begins_chain(ring, lines) {
        if take_chain(ring, chains, lines, &mut steps) {
            continue 'chains;
        }
        let fields = lines.next()?;
        let said = chain_line(ring, chains, fields)?;
        add_chain(alloc, chains, said)?;
    }
    Ok(())
}

// The format of certificates for the ring.
pub fn format_of(ring: &Ring) -> &'static [u8]
    ensures { result.now ≡ cert_format ring.now }
{
    if ring.format() == 1 { b"1" } else { b"2" }
}

#[tactic(auto, unfolding(crate::specs::Reading::cert_at))]
fn read_parts(alloc: Global, ring: &Ring, lines: &mut Lines) -> Result<Cert, Refusal>
    ensures read { Reads result lines.new (cert_at ring.now lines.old) }
    ensures late { Late 2 result lines.old lines.new (cert_at ring.now lines.old) }
{
    header(lines, b"cert", format_of(ring))?;
    let mut facts = Rows::new(alloc);
    read_facts(alloc, &mut facts, lines)?;
    let mut chains = Chains::new(alloc);
    read_chains(alloc, ring, &mut chains, lines)?;
    end(lines)?;
    Ok(Cert { facts, chains })
}

/// Reads a certificate's lines, up to `end`, and leaves the rest. Fails as `read_cert`.
pub fn read_cert_section(alloc: Global, ring: &Ring, lines: &mut Lines) -> Result<Cert, Refusal>
    ensures read { Reads result lines.new (cert_at ring.now lines.old) }
    ensures found { IfOk result (λ v. IsCert v × Suits ring.now v) }
    ensures late { Late 2 result lines.old lines.new (cert_at ring.now lines.old) }
{
    // Proves the ring valid.
    let slots = ring.n();
    prove!(slots <= 7);
    read_parts(alloc, ring, lines)
}

fn read_whole(alloc: Global, ring: &Ring, text: &[u8]) -> Result<Cert, Refusal>
    ensures exact { Gives result (cert_reading ring.now text.now) }
    ensures late { IfErr result (λ e. e ≡ OutOfMemory → NoFaultBefore 3 (cert_reading ring.now text.now)) }
{
    let mut lines = Lines::of(text);
    let cert = read_cert_section(alloc, ring, &mut lines)?;
    lines.ended()?;
    Ok(cert)
}

/// Reads a certificate for the ring from its whole text.
///
/// Returns the first faulty line's least fault: 1 `BadLine`, 2 `TooLarge`, 3 `UnknownNode`. `OutOfMemory` comes only
/// after at least two faultless lines.
pub fn read_cert(alloc: Global, ring: &Ring, text: &[u8]) -> Result<Cert, Refusal>
    ensures found { IfOk result (λ v. IsCert v × Suits ring.now v × (text.now ≡ cert_text ring.now v)) }
    ensures only { (v : Cert) → IsCert v → Suits ring.now v → text.now ≡ cert_text ring.now v → Gives result (Ok v) }
    ensures exact { Gives result (cert_reading ring.now text.now) }
    ensures late { IfErr result (λ e. e ≡ OutOfMemory → NoFaultBefore 3 (cert_reading ring.now text.now)) }
{
    // Proves the ring valid.
    let slots = ring.n();
    prove!(slots <= 7);
    read_whole(alloc, ring, text)
}
