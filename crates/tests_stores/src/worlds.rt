//! Stores that run plans: replies and state.

use crate::answering::{LOSS, MOVE, SPLIT_MOVE, STAND_IN, Texts, answered, approved};
use plan_check::Approved;
use ring_core::World;
use ring_names::{Listed, NodeId, Slot};
use std::process::Abort;
use std::test::Fail;

const SLOT: Slot = Slot {
    partition: 0,
    index: 1,
};

#[derive(Drop)]
struct Scene<'a, RT> {
    rt: &'a RT,
    approved: &'a Approved,
    world: World<'a>,
}

#[derive(Clone, Copy)]
enum Story {
    StaleTickets,
    LostStore,
    Hints,
    Move,
    BrokenOff,
}

fn told_from_start<RT: AllocGlobal + Abort>(
    rt: &RT,
    story: Story,
    approved: &Approved,
) -> Result<(), Fail> {
    let world = World::start(rt.alloc(), approved)?;
    let mut scene = Scene {
        rt,
        approved,
        world,
    };
    scene.tell(story)
}

fn told<RT: AllocGlobal + Abort>(rt: &RT, story: Story, texts: &Texts) -> Result<(), Fail> {
    let approved = approved(rt.alloc(), texts)?;
    told_from_start(rt, story, &approved)
}

#[test]
fn tickets_before_a_loss_are_stale(rt: HostRuntime) -> Result<(), Fail> {
    told(&rt, Story::StaleTickets, &LOSS)
}

#[test]
fn puts_outlive_a_lost_store(rt: HostRuntime) -> Result<(), Fail> {
    told(&rt, Story::LostStore, &LOSS)
}

#[test]
fn hints_are_handed_over(rt: HostRuntime) -> Result<(), Fail> {
    told(&rt, Story::Hints, &STAND_IN)
}

#[test]
fn a_slot_moves(rt: HostRuntime) -> Result<(), Fail> {
    told(&rt, Story::Move, &MOVE)
}

#[test]
fn a_slot_moves_from_a_split_node(rt: HostRuntime) -> Result<(), Fail> {
    told(&rt, Story::BrokenOff, &SPLIT_MOVE)
}

impl<'a, RT: AllocGlobal + Abort> Scene<'a, RT> {
    fn tell(&mut self, story: Story) -> Result<(), Fail> {
        match story {
            Story::StaleTickets => self.tickets_stale(),
            Story::LostStore => self.loss_survived(),
            Story::Hints => self.hints_taken(),
            Story::Move => self.run_moved(),
            Story::BrokenOff => self.broken_off(),
        }
    }

    fn answers(&mut self, events: &str, lines: &str) -> Result<(), Fail> {
        answered(self.rt, self.approved, &mut self.world, events, lines)
    }

    // The slots that hold put 0.
    fn held(&self, mask: u32) {
        assert!(self.rt; 0 < self.world.puts());
        assert_eq!(self.rt; self.world.held_slots(0), mask);
    }

    fn keeper(&self, n: u32, kept: Option<(NodeId, Slot)>) {
        assert_eq!(self.rt; self.world.hint_at(n), kept);
    }

    // The node's open copies: all, received, given.
    fn transfers(&self, node: u32, counts: [u32; 3]) {
        let node = NodeId(node);
        let open = [
            self.world.open_transfers(node),
            self.world.open_take(node),
            self.world.open_give(node),
        ];
        assert_eq!(self.rt; open.as_slice(), counts.as_slice());
    }

    fn steps(&self, left: u32, next: Option<u32>) {
        assert_eq!(self.rt; self.world.left(), left);
        assert_eq!(self.rt; self.world.ready(0), next);
    }

    fn owners(&self, row: &[NodeId]) -> Result<(), Fail> {
        let table = self.world.table()?;
        are_owners(self.rt, table.as_slice(), row);
        Ok(())
    }

    // A ticket from before a loss is refused, and so is a second loss.
    fn tickets_stale(&mut self) -> Result<(), Fail> {
        self.answers(
            "put w1 a x31\nwrite 0 0\nwrite 0 1\nlose b\nwrite 0 2\nack 0\nwrite 0 1\nack 0\nlose d\nlose a\n",
            "put 0\nticket 0 0 0\nticket 0 1 0\nok\nticket 0 2 0\nno 45 2\nticket 0 1 1\nok\nno 12 3\nno 52\n",
        )
    }

    // A get finds an acknowledged put after a node's loss.
    fn loss_survived(&mut self) -> Result<(), Fail> {
        self.answers(
            "put w1 a x31\nwrite 0 0\nwrite 0 1\nwrite 0 2\nack 0\nlose b\n",
            "put 0\nticket 0 0 0\nticket 0 1 0\nticket 0 2 0\nok\nok\n",
        )?;
        self.held(5);
        self.answers(
            "get a\nread 0 1\nread 0 2\nendget 0\n",
            "get 0\nfound\nfound 0\nreply 0\n",
        )
    }

    // A stand-in keeps a put that the owner misses.
    fn hint_kept(&mut self) -> Result<(), Fail> {
        self.answers(
            "put w1 a x31\ndown b\nwrite 0 1\nhint 0 1 d\nhint 0 2 d\nhandoff d 0 1\n",
            "put 0\nok\nno 42 1\nticket 0 1 0\nno 43\nno 42 1\n",
        )?;
        self.held(2);
        self.keeper(0, Some((NodeId(3), SLOT)));
        self.keeper(1, None);
        Ok(())
    }

    fn hints_taken(&mut self) -> Result<(), Fail> {
        self.hint_kept()?;
        self.answers(
            "up b\nhandoff d 0 1\nhandoff d 0 1\nget a\nread 0 1\nendget 0\n",
            "ok\nok\nno 41\nget 0\nfound 0\nno 46 1\n",
        )?;
        self.held(2);
        self.keeper(0, None);
        Ok(())
    }

    fn copy_open(&self) {
        self.transfers(3, [1, 1, 0]);
        self.transfers(1, [1, 0, 1]);
        self.transfers(0, [0, 0, 0]);
    }

    // A copy is opened, aborted and opened again; its chunks stay marked.
    fn broken_off(&mut self) -> Result<(), Fail> {
        self.answers(
            "do 0\ndo 1\nopen 2\nchunk 2 0\nchunk 2 1\nchunk 2 2\nchunk 2 3\nchunk 2 4\nchunk 2 5\nchunk 2 6\n",
            "ok\nok\nok\nok\nok\nok\nok\nok\nok\nok\n",
        )?;
        self.copy_open();
        self.answers("abort 2\n", "ok\n")?;
        self.transfers(3, [0, 0, 0]);
        self.transfers(1, [0, 0, 0]);
        self.answers("open 2\n", "ok\n")?;
        self.copy_open();
        Ok(())
    }

    // The other chunks, and the copy's end.
    fn copied(&mut self) -> Result<(), Fail> {
        self.answers(
            "chunk 2 6\nclose 2\nchunk 2 7\nchunk 2 8\nchunk 2 9\nchunk 2 10\nchunk 2 11\nchunk 2 12\nchunk 2 13\nchunk 2 14\nchunk 2 15\n",
            "no 41\nno 50 9\nok\nok\nok\nok\nok\nok\nok\nok\nok\n",
        )?;
        self.answers("close 2\nabort 2\nopen 2\n", "ok\nno 49\nno 41\n")?;
        self.transfers(3, [0, 0, 0]);
        Ok(())
    }

    // The new owner has what the old one had; the drop comes last.
    fn moved(&mut self) -> Result<(), Fail> {
        self.steps(2, Some(3));
        self.owners(&[NodeId(0), NodeId(1), NodeId(2)])?;
        self.answers("do 3\n", "ok\n")?;
        self.steps(1, Some(4));
        self.answers("do 4\nget a\nread 0 1\n", "ok\nget 0\nfound 0\n")?;
        self.steps(0, None);
        self.owners(&[NodeId(0), NodeId(3), NodeId(2)])
    }

    // A put only at b goes with the slot.
    fn run_moved(&mut self) -> Result<(), Fail> {
        self.answers(
            "put w1 a x31\nwrite 0 1\ndo 1\n",
            "put 0\nticket 0 1 0\nno 40\n",
        )?;
        self.steps(5, Some(0));
        self.broken_off()?;
        self.steps(3, None);
        self.copied()?;
        self.moved()
    }
}

fn are_owners<RT: Abort>(rt: &RT, table: &[Listed<NodeId>], row: &[NodeId]) {
    assert_eq!(rt; table.len(), 4);
    assert_eq!(rt; table[0].as_slice(), row);
}

fn is_first_owner<RT: Abort>(rt: &RT, owner: NodeId) {
    assert_eq!(rt; owner, NodeId(1));
}

fn owner_at_the_start<RT: AllocGlobal + Abort>(rt: &RT, approved: &Approved) -> Result<(), Fail> {
    assert!(rt; approved.ring().q() == 4);
    assert!(rt; approved.ring().n() == 3);
    let world = World::start(rt.alloc(), approved)?;
    is_first_owner(rt, world.owner(SLOT));
    Ok(())
}

#[test]
fn owners_at_the_start(rt: HostRuntime) -> Result<(), Fail> {
    let approved = approved(rt.alloc(), &MOVE)?;
    owner_at_the_start(&rt, &approved)
}
