//! Plans made step by step.

ghost use Rattle.std.specs.Prelude.{◌≡◌, []};

use crate::same::same;
use plan_text::{Plan, Source, Step};
use ring_names::{NodeId, Slot};
use std::process::Abort;
use std::test::Fail;

const SLOT: Slot = Slot {
    partition: 0,
    index: 1,
};

fn kept<RT: Abort>(rt: &RT, plan: &mut Plan) -> Result<(), Fail>
    requires { plan.old ≡ [] }
{
    plan.push(Step::Mirror(SLOT, NodeId(3)), &[])?;
    plan.push(Step::Copy(SLOT, Source::Owner), &[0])?;
    assert_eq!(rt; plan.len(), 2);
    same!(rt; plan.slot_steps(SLOT), [0, 1].as_slice());
    same!(rt; plan.deps(1), [0].as_slice());
    same!(rt; plan.dependencies(), 1);
    Ok(())
}

#[test]
fn push_keeps_the_step(rt: HostRuntime) -> Result<(), Fail> {
    let mut plan = Plan::new(rt.alloc());
    kept(&rt, &mut plan)
}

fn looked_up<RT: Abort>(rt: &RT, plan: &mut Plan) -> Result<(), Fail>
    requires { plan.old ≡ [] }
{
    plan.push(Step::Retire(NodeId(3)), &[])?;
    plan.push(Step::Join(NodeId(3)), &[])?;
    plan.push(Step::Join(NodeId(3)), &[])?;
    same!(rt; plan.join_of(NodeId(3)), Some(1));
    same!(rt; plan.retirement_of(NodeId(3)), Some(0));
    same!(rt; plan.join_of(NodeId(4)), None);
    Ok(())
}

#[test]
fn first_steps_are_looked_up(rt: HostRuntime) -> Result<(), Fail> {
    let mut plan = Plan::new(rt.alloc());
    looked_up(&rt, &mut plan)
}
