//! Jobs with a bundle. Each fails with the texts' first fault, then, if it checks, as the checker does.

ghost use Rattle.std.specs.Prelude.{◌≡◌, ◌++◌, ◌∷◌, [], IfOk, IfErr, OnOk, codes};
ghost use Rattle.ring_names.specs.declared.refusal.Refusal.TheVariants.{OutOfMemory};
ghost use Rattle.texts.specs.Judging.{Gives};
ghost use Rattle.texts.specs.Left.{whole_text};
ghost use Rattle.texts.specs.Late.{NoFaultBefore};
ghost use Rattle.ring_table.specs.Spelling.{ring_text};
ghost use Rattle.plan_text.specs.Valid.{Suits};
ghost use Rattle.plan_cert.specs.Spelling.{cert_text};
ghost use Rattle.plan_cert.specs.Valid.{Suits as IsCertOf};
ghost use Rattle.plan_check.specs.First.{first_refusal};
ghost use Rattle.plan_check.specs.Headline.{KeepsPromises};
ghost use Rattle.ring_script.specs.Bundles.{IsOfRing, bundle_at};
ghost use Rattle.ring_script.specs.declared.bundle.Kind.TheVariants.{Check, Play};
ghost use Rattle.change_text.specs.Valid.{IsChange};
ghost use Rattle.change_text.specs.Wanted.{wanted_at};
ghost use Rattle.ringplan_request.specs.declared.job.Job.TheVariants.{Check as Checking, Plan as Planning};
ghost use Rattle.ringplan_answers.specs.Answers.{texts_of};
ghost use Rattle.ringplan_answers.specs.Verdict.{TextsKeepPromises, MakesIf, judged, migrated_text, migration, plays};
ghost use Rattle.ringplan_answers.specs.Verdict.{IsAnswer, shown, verdict};

use crate::replaying::{replay_bundle, replay_whole};
use change_text::{Wanted, read_wanted};
use plan_cert::{Cert, write_cert};
use plan_check::{OpenGate, Turned, check, check_parallel};
use plan_goal::propose;
use plan_text::{Plan, write_plan};
use ring_names::Refusal;
use ring_script::{Bundle, Kind, play_whole, read_bundle};
use ring_table::{Ring, write_ring};
use ringplan_request::Job;
use std::alloc::Global;
use std::mem::forget;
use std::sync::Wait;
use std::thread::Threads;

// Checks a plan, and frees it unless the program `ends` then.
fn check_plan(alloc: Global, ring: Ring, plan: Plan, cert: &Cert, ends: bool) -> Result<(), Refusal>
    requires { Suits ring plan }
    ensures answer { Gives result (judged (first_refusal ring plan cert.now)) }
    ensures keeps { OnOk result (KeepsPromises ring plan) }
{
    match check(alloc, ring, plan, cert) {
        Ok(approved) => {
            if ends {
                forget(approved);
            }
            Ok(())
        }
        Err(Turned { refusal, .. }) => Err(refusal),
    }
}

/// Checks a bundle. `Ok` exactly if the checker accepts: then the plan keeps its promises.
pub fn check_bundle(alloc: Global, bytes: &[u8]) -> Result<(), Refusal>
    ensures read { Gives result (verdict bytes.now) }
    // The headline.
    ensures keeps { OnOk result (TextsKeepPromises bytes.now) }
    ensures late { IfErr result (λ e. e ≡ OutOfMemory → NoFaultBefore 5 (whole_text (bundle_at Check) bytes.now)) }
{
    match read_bundle(alloc, Kind::Check, bytes) {
        Ok(bundle) => check_plan(alloc, bundle.ring, bundle.plan, &bundle.cert, false),
        Err(e) => Err(e),
    }
}

fn check_plan_by<RT: Threads + Wait + Sync>(
    rt: &RT,
    alloc: Global,
    workers: u32,
    bundle: Bundle,
) -> Result<(), Refusal>
    requires { Suits bundle.ring bundle.plan }
    ensures answer { Gives result (judged (first_refusal bundle.ring bundle.plan bundle.cert)) }
    ensures keeps { OnOk result (KeepsPromises bundle.ring bundle.plan) }
{
    let (ring, plan, cert) = (bundle.ring, bundle.plan, &bundle.cert);
    match check_parallel(rt, alloc, workers, &OpenGate, ring, plan, cert) {
        Ok(_) => Ok(()),
        Err(Turned { refusal, .. }) => Err(refusal),
    }
}

/// Checks like `check_bundle`, by workers that share the partitions; 0 means 1. Waits for them.
pub fn check_bundle_by<RT: Threads + Wait + Sync>(
    rt: &RT,
    alloc: Global,
    workers: u32,
    bytes: &[u8],
) -> Result<(), Refusal>
    ensures read { Gives result (verdict bytes.now) }
    // The headline.
    ensures keeps { OnOk result (TextsKeepPromises bytes.now) }
    ensures late { IfErr result (λ e. e ≡ OutOfMemory → NoFaultBefore 5 (whole_text (bundle_at Check) bytes.now)) }
{
    match read_bundle(alloc, Kind::Check, bytes) {
        Ok(bundle) => check_plan_by(rt, alloc, workers, bundle),
        Err(e) => Err(e),
    }
}

fn write_parts(alloc: Global, ring: &Ring, plan: &[u8], cert: &Cert) -> Result<Vec<u8>, Refusal>
    requires { IsCertOf ring.now cert.now }
    ensures text { IfOk result (λ v. v.items ≡ ring_text ring.now ++ (plan.now ++ cert_text ring.now cert.now)) }
    ensures memory { IfErr result (λ e. e ≡ OutOfMemory) }
{
    let mut out = write_ring(alloc, ring)?;
    out.extend_from_slice(plan)?;
    let chains = write_cert(alloc, ring, cert)?;
    out.extend_from_slice(chains.as_slice())?;
    Ok(out)
}

// Writes a bundle's texts with the migrated ring. The plan's text stays, as it names nodes.
fn write_migrated(alloc: Global, bundle: Bundle) -> Result<Vec<u8>, Refusal>
    requires { IsOfRing bundle }
    ensures text { IfOk result (λ v. v.items ≡ migrated_text bundle) }
    ensures memory { IfErr result (λ e. e ≡ OutOfMemory) }
{
    let Bundle {
        ring,
        plan,
        cert,
        ..
    } = bundle;
    let steps = write_plan(alloc, &ring, &plan)?;
    let ring = ring.migrate();
    write_parts(alloc, &ring, steps.as_slice(), &cert)
}

/// Rewrites a ring of format 1 in format 2, with its certificate. Other rings stay. Checks nothing.
pub fn migrate_bundle(alloc: Global, bytes: &[u8]) -> Result<Vec<u8>, Refusal>
    ensures read { Gives (texts_of result) (migration bytes.now) }
    ensures late { IfErr result (λ e. e ≡ OutOfMemory → NoFaultBefore 5 (whole_text (bundle_at Check) bytes.now)) }
{
    match read_bundle(alloc, Kind::Check, bytes) {
        Ok(bundle) => write_migrated(alloc, bundle),
        Err(e) => Err(e),
    }
}

// Plays a script. Frees the store unless the program `ends` then.
fn play_checked(alloc: Global, bundle: Bundle, ends: bool) -> Result<Vec<u8>, Refusal>
    requires { IsOfRing bundle }
    ensures { Gives (texts_of result) (shown bundle) }
{
    match check(alloc, bundle.ring, bundle.plan, &bundle.cert) {
        Ok(approved) => play_whole(alloc, &approved, bundle.script, ends),
        Err(Turned { refusal, .. }) => Err(refusal),
    }
}

/// Plays a bundle's script, if the checker accepts: `yes`, a line for each event, the final owners, `end`.
///
/// `OutOfMemory` may come at any event.
pub fn play_bundle(alloc: Global, bytes: &[u8]) -> Result<Vec<u8>, Refusal>
    ensures read { Gives (texts_of result) (plays bytes.now) }
    ensures late { IfErr result (λ e. e ≡ OutOfMemory → NoFaultBefore 5 (whole_text (bundle_at Play) bytes.now)) }
{
    match read_bundle(alloc, Kind::Play, bytes) {
        Ok(bundle) => play_checked(alloc, bundle, false),
        Err(e) => Err(e),
    }
}

// Drops the bytes after reading, so that their memory is reused.
fn read_given(alloc: Global, kind: Kind, bytes: Vec<u8>) -> Result<Bundle, Refusal>
    ensures read { Gives result (whole_text (bundle_at kind) bytes.items) }
    ensures parts { IfOk result IsOfRing }
{
    read_bundle(alloc, kind, bytes.as_slice())
}

fn check_given(alloc: Global, bytes: Vec<u8>) -> Result<(), Refusal>
    ensures read { Gives result (verdict bytes.items) }
    ensures keeps { OnOk result (TextsKeepPromises bytes.items) }
{
    match read_given(alloc, Kind::Check, bytes) {
        Ok(bundle) => check_plan(alloc, bundle.ring, bundle.plan, &bundle.cert, true),
        Err(e) => Err(e),
    }
}

fn play_given(alloc: Global, bytes: Vec<u8>) -> Result<Vec<u8>, Refusal>
    ensures { Gives (texts_of result) (plays bytes.items) }
{
    match read_given(alloc, Kind::Play, bytes) {
        Ok(bundle) => play_checked(alloc, bundle, true),
        Err(e) => Err(e),
    }
}

fn plan_wanted(alloc: Global, wanted: Wanted) -> Result<Vec<u8>, Refusal>
    requires { IsChange wanted.ring wanted.change }
    ensures { IsAnswer wanted (texts_of result) }
{
    match propose(alloc, wanted.ring, &wanted.change) {
        Ok(found) => found.text(alloc),
        Err(e) => Err(e),
    }
}

/// Plans a change. Returns the plan and its certificate, if the checker accepts. May fail with `NoPlan`; without
/// leaving nodes there is always a plan.
pub fn plan_bundle(alloc: Global, bytes: &[u8]) -> Result<Vec<u8>, Refusal>
    ensures plans { MakesIf Planning bytes.now (texts_of result) }
    ensures late { IfErr result (λ e. e ≡ OutOfMemory → NoFaultBefore 5 (whole_text wanted_at bytes.now)) }
{
    match read_wanted(alloc, bytes) {
        Ok(wanted) => plan_wanted(alloc, wanted),
        Err(e) => Err(e),
    }
}

fn yes(alloc: Global) -> Result<Vec<u8>, Refusal>
    ensures text { IfOk result (λ v. v.items ≡ codes "yes" ++ 10 ∷ []) }
    ensures memory { IfErr result (λ e. e ≡ OutOfMemory) }
{
    let text = Vec::from_slice(alloc, b"yes\n")?;
    Ok(text)
}

/// Does a job, and returns its text.
pub fn make(alloc: Global, job: Job, bytes: &[u8]) -> Result<Vec<u8>, Refusal>
    ensures { MakesIf job bytes.now (texts_of result) }
{
    match job {
        Job::Check => {
            check_bundle(alloc, bytes)?;
            yes(alloc)
        }
        Job::Migrate => migrate_bundle(alloc, bytes),
        Job::Play => play_bundle(alloc, bytes),
        Job::Plan => plan_bundle(alloc, bytes),
        Job::Replay => replay_bundle(alloc, bytes),
    }
}

/// Does a job, and may drop the bytes early.
///
/// For a program that ends then: the system frees an accepted plan, and the store of a play or replay.
pub fn answer_bytes(alloc: Global, job: Job, bytes: Vec<u8>) -> Result<Vec<u8>, Refusal>
    ensures { MakesIf job bytes.items (texts_of result) }
{
    match job {
        Job::Replay => replay_whole(alloc, bytes),
        Job::Play => play_given(alloc, bytes),
        Job::Check => {
            check_given(alloc, bytes)?;
            yes(alloc)
        }
        Job::Migrate | Job::Plan => make(alloc, job, bytes.as_slice()),
    }
}

/// Checks with workers, and returns the text.
pub fn answer_check<RT: Threads + Wait + Sync>(
    rt: &RT,
    alloc: Global,
    workers: u32,
    bytes: &[u8],
) -> Result<Vec<u8>, Refusal>
    ensures { MakesIf Checking bytes.now (texts_of result) }
{
    check_bundle_by(rt, alloc, workers, bytes)?;
    yes(alloc)
}
