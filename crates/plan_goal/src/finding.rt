//! Finds the plan. Nothing is proved.

use crate::aim::{Aim, joins, retires};
use find_rounds::{Handover, Turnover};
use plan_cert::Cert;
use plan_text::Plan;
use ring_names::Refusal;

fn find_by<'a>(aim: &'a Aim<'a>, turnover: Turnover<'a>) -> Result<(Plan, Cert), Refusal> {
    let handover = Handover {
        alloc: aim.alloc,
        ring: aim.ring,
        rows: aim.wanted.rows(),
        turnover,
        dead: aim.dead,
    };
    handover.plan()
}

/// Finds a plan to the goal ring, and its certificate.
pub fn find(aim: &Aim) -> Result<(Plan, Cert), Refusal> {
    let (joins, retires) = (joins(aim)?, retires(aim)?);
    let turnover = Turnover {
        joins: joins.as_slice(),
        retires: retires.as_slice(),
    };
    find_by(aim, turnover)
}
