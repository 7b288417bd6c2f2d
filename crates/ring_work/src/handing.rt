//! The thread that hands off hints.

ghost use Rattle.ring_work.specs.Driven.{IsSpent};

use crate::done::Done;
use crate::noting::{go_on, no_limit};
use crate::site::{Site, is_set, ring_count, set};
use plan_check::Gate;
use plan_runs::Event;
use ring_exec::RunLedger;
use ring_names::{NodeId, Refusal, Slot};
use std::sync::Wait;
use std::thread;

fn hand<L: RunLedger, R: Wait, G: Gate>(
    site: &Site<L, R, G>,
    done: &mut Done<L>,
    node: NodeId,
    slot: Slot,
) -> Result<bool, Refusal> {
    match done.note(site.store, Event::Handoff(node, slot)) {
        Ok(()) => Ok(true),
        Err(refusal) => {
            go_on(refusal)?;
            Ok(false)
        }
    }
}

// Walks over the hints. The last walk begins after all other threads have ended. If no hints are left, the next walk
// waits for the bell.
//
// A successful handoff leaves the next hint at n; a refused one raises n.
fn walks<L: RunLedger, R: Wait, G: Gate>(
    site: &Site<L, R, G>,
    done: &mut Done<L>,
) -> Result<(), Refusal> {
    let rt = site.job.rt;
    let mut n = 0u32;
    let mut heard = ring_count(&site.flags.bell);
    let mut last = is_set(&site.flags.joined);
    for _ in rt.forever() {
        match site.store.executor.hint_at(rt, n) {
            Some((node, slot)) => {
                if !hand(site, done, node, slot)? {
                    n = n.saturating_add(1);
                }
            }
            None => {
                if last {
                    break;
                }
                if n == 0 {
                    site.flags.bell.park(rt, heard);
                } else {
                    thread::yield_now();
                }
                n = 0;
                heard = ring_count(&site.flags.bell);
                last = is_set(&site.flags.joined);
            }
        }
    }
    Ok(())
}

/// Hands off hints until other threads have ended. A full history or lack of memory stops all.
pub(crate) fn hand_off<L: RunLedger, R: Wait, G: Gate>(
    site: &Site<L, R, G>,
    done: Done<L>,
) -> Done<L>
    ensures { IsSpent result.stopped → ⊥ }
{
    let mut done = done;
    let ended = walks(site, &mut done);
    done.stopped = match ended {
        Ok(()) => None,
        Err(refusal) => {
            set(&site.flags.stop);
            Some(no_limit(refusal))
        }
    };
    done
}
