//! Drives a bundle.

ghost use Rattle.std.specs.Prelude.{◌≡◌, ◌<◌, ◌≤◌, IfOk, IfErr};
ghost use Rattle.ring_names.specs.declared.refusal.Refusal.TheVariants.{OutOfMemory};
ghost use Rattle.texts.specs.Left.{whole_text};
ghost use Rattle.texts.specs.Late.{NoFaultBefore};
ghost use Rattle.ring_work.specs.Drives.{drive_at, AreOfClients, IsDrive};
ghost use Rattle.ring_work.specs.Driven.{IsFault};
ghost use Rattle.ringplan_answers.specs.Answers.{texts_of};
ghost use Rattle.ringplan_run.specs.Drives.{outcome_text, DrivesIf, DrivesOfIf, IsOutcome};

use history_text::{are_known, push_history};
use plan_check::{Approved, OpenGate, check};
use ring_board::Outcome;
use ring_names::{Names, Refusal};
use ring_work::{DriveBundle, MAX_ENTRIES, drive, read_drive, write_report};
use ringplan_command::Form;
use script_text::Script;
use std::alloc::Global;
use std::mem::forget;
use std::sync::Wait;
use std::thread::Threads;

#[derive(Drop)]
struct Named<'a> {
    alloc: Global,
    approved: &'a Approved,
    writers: &'a Names,
}

// Writes `yes` and the history. The scripts declare its names, but writing checks this again.
fn write_run(named: &Named, outcome: &Outcome) -> Result<Vec<u8>, Refusal>
    ensures text { IfOk result (λ v. v.items ≡ outcome_text named.now.approved.now.ring named.now.writers.now outcome.now.history.items outcome.now.finishers.items 0 Form.History) }
    ensures err { IfErr result IsFault }
{
    let (alloc, approved, writers) = (named.alloc, named.approved, named.writers);
    let history = outcome.history.as_slice();
    if history.len() > MAX_ENTRIES || !are_known(approved.ring(), writers, history) {
        return Err(Refusal::Disagree);
    }
    let mut out = Vec::from_slice(alloc, b"yes\n")?;
    push_history(&mut out, approved, writers, history)?;
    Ok(out)
}

fn write_outcome(
    named: &Named,
    outcome: &Outcome,
    workers: u32,
    form: Form,
) -> Result<Vec<u8>, Refusal>
    ensures text { IfOk result (λ v. v.items ≡ outcome_text named.now.approved.now.ring named.now.writers.now outcome.now.history.items outcome.now.finishers.items workers form) }
    ensures err { IfErr result IsFault }
{
    match form {
        Form::History => write_run(named, outcome),
        Form::Report => {
            write_report(named.alloc, named.approved, named.writers, outcome, workers)
        }
    }
}

fn drive_approved<RT: Threads + Wait + Sync>(
    rt: &RT,
    named: &Named,
    scripts: &[Script],
    workers: u32,
    form: Form,
) -> Result<Vec<u8>, Refusal>
    requires workers { (0 < workers) × (workers ≤ 64) }
    requires scripts { AreOfClients scripts.now }
    ensures { IsOutcome named.now.approved.now.ring named.now.approved.now.plan named.now.writers.now scripts.now workers form (texts_of result) }
{
    match drive(rt, named.alloc, named.approved, scripts, workers, &OpenGate) {
        Ok(outcome) => {
            let text = write_outcome(named, &outcome, workers, form);
            forget(outcome);
            text
        }
        Err(fault) => {
            let refusal = fault.refusal;
            Err(refusal)
        }
    }
}

fn drive_checked<RT: Threads + Wait + Sync>(
    rt: &RT,
    alloc: Global,
    bundle: DriveBundle,
    workers: u32,
    form: Form,
) -> Result<Vec<u8>, Refusal>
    requires workers { (0 < workers) × (workers ≤ 64) }
    requires parts { IsDrive bundle }
    ensures { DrivesOfIf workers form bundle (texts_of result) }
{
    match check(alloc, bundle.ring, bundle.plan, &bundle.cert) {
        Ok(approved) => {
            let named = Named {
                alloc,
                approved: &approved,
                writers: &bundle.writers,
            };
            drive_approved(rt, &named, bundle.scripts.as_slice(), workers, form)
        }
        Err(turned) => {
            let refusal = turned.refusal;
            Err(refusal)
        }
    }
}

/// Drives a bundle with 1 to 8 scripts, if the checker accepts its plan. Returns the outcome's text.
///
/// Fails with the texts' first fault, then the checker's first refusal, then why the drive broke off.
///
/// `OutOfMemory` means that memory or a thread was refused.
///
/// Waits for its threads. Does not free history and receipts, since the program ends then.
pub fn drive_bundle<RT: Threads + Wait + Sync>(
    rt: &RT,
    alloc: Global,
    workers: u32,
    form: Form,
    bytes: &[u8],
) -> Result<Vec<u8>, Refusal>
    requires { (0 < workers) × (workers ≤ 64) }
    ensures drives { DrivesIf workers form bytes.now (texts_of result) }
    ensures late { IfErr result (λ e. e ≡ OutOfMemory → NoFaultBefore 5 (whole_text drive_at bytes.now)) }
{
    match read_drive(alloc, bytes) {
        Ok(bundle) => drive_checked(rt, alloc, bundle, workers, form),
        Err(e) => Err(e),
    }
}
