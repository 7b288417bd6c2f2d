//! Writes a certificate.

ghost use Rattle.std.specs.Prelude.{◌≡◌, ◌++◌, map, IfOk, IfErr, OnOk};
ghost use Rattle.ring_names.specs.declared.refusal.Refusal.TheVariants.{OutOfMemory};
ghost use Rattle.texts.specs.Parts.{line_text, text_of};
ghost use Rattle.ring_table.specs.Value.{names_of};
ghost use Rattle.plan_cert.specs.Spelling.{fact_fields, side_word, chain_fields, cert_text};
ghost use Rattle.plan_cert.specs.Chains.{chain_of};
ghost use Rattle.plan_cert.specs.Valid.{Suits};

use crate::cert::Cert;
use crate::chains::Chains;
use crate::reading::format_of;
use ring_names::{Refusal, Rows};
use ring_table::{NodeSide, Ring, Side, push_name};
use std::alloc::{AllocError, Global};
use texts::push_numbers;

fn push_fact(out: &mut Vec<u8>, path: &[u32]) -> Result<(), AllocError>
    ensures { OnOk result (out.new.items ≡ out.old.items ++ line_text (fact_fields path.now)) }
{
    out.extend_from_slice(b"fact")?;
    push_numbers(out, path)?;
    out.push(b'\n')?;
    Ok(())
}

fn word_of(side: Side) -> &'static [u8]
    ensures { result.now ≡ side_word side }
{
    match side {
        Side::Both => b"chain",
        Side::Take => b"take",
        Side::Give => b"give",
    }
}

fn push_chain(out: &mut Vec<u8>, ring: &Ring, of: NodeSide, steps: &[u32]) -> Result<(), AllocError>
    ensures { OnOk result
        (out.new.items ≡ out.old.items ++ line_text (chain_fields (names_of ring.now) (chain_of of steps.now))) }
{
    out.extend_from_slice(word_of(of.side))?;
    push_name(out, ring.nodes(), of.node)?;
    push_numbers(out, steps)?;
    out.push(b'\n')?;
    Ok(())
}

fn push_facts(out: &mut Vec<u8>, facts: &Rows) -> Result<(), AllocError>
    ensures { OnOk result (out.new.items ≡ out.old.items ++ text_of (map fact_fields facts.now)) }
{
    for place in 0..facts.len() {
        push_fact(out, facts.row(place))?;
    }
    Ok(())
}

fn push_chains(out: &mut Vec<u8>, ring: &Ring, chains: &Chains) -> Result<(), AllocError>
    ensures { OnOk result
        (out.new.items ≡ out.old.items ++ text_of (map (chain_fields (names_of ring.now)) chains.now)) }
{
    for place in 0..chains.len() {
        push_chain(out, ring, chains.of(place), chains.steps(place))?;
    }
    Ok(())
}

/// Writes the certificate's unique text.
pub fn write_cert(alloc: Global, ring: &Ring, cert: &Cert) -> Result<Vec<u8>, Refusal>
    requires { Suits ring.now cert.now }
    ensures text { IfOk result (λ v. v.items ≡ cert_text ring.now cert.now) }
    ensures memory { IfErr result (λ e. e ≡ OutOfMemory) }
{
    let mut out = Vec::new(alloc);
    out.extend_from_slice(b"cert ")?;
    out.extend_from_slice(format_of(ring))?;
    out.push(b'\n')?;
    push_facts(&mut out, &cert.facts)?;
    push_chains(&mut out, ring, &cert.chains)?;
    out.extend_from_slice(b"end\n")?;
    Ok(out)
}
