//! Chains as a value.

ghost use Rattle.std.specs.Prelude.{◌≡◌, ◌<◌, ◌++◌, ◌∷◌, [], Some, length, slice_get, option_map, OnOk, OnErr, IfErr};
ghost use Rattle.ring_names.specs.declared.refusal.Refusal.TheVariants.{OutOfMemory};

use ring_names::{Refusal, Rows};
use ring_table::NodeSide;
use std::alloc::Global;
use std::marker::Model;

/// Chains in order. Their steps are in rows: a chain needs no allocation.
#[derive(Debug)]
pub struct Chains {
    sides: Vec<NodeSide>,
    // each chain's steps
    rows: Rows,
}

// Saves dependent crates from checking the parts.
impl Drop for Chains {
    fn drop(self) {
        let Chains { sides, rows } = self;
        drop(sides);
        drop(rows);
    }
}

impl Model for Chains {
    ghost use Rattle.std.specs.Prelude.{List};
    ghost use Rattle.plan_cert.specs.declared.cert.Chain.{Chain};

    ghost Value = { List Chain };

    ghost use Rattle.plan_cert.specs.Chains.{chains_of, HaveRows};

    ghost view = { chains_of };

    ghost invariant = { HaveRows };
}

impl Chains {
    ghost use Rattle.plan_cert.specs.Chains.{chain_of, side_of};

    /// Starts empty.
    pub fn new(alloc: Global) -> Chains
        ensures { result ≡ [] }
    {
        Chains {
            sides: Vec::new(alloc),
            rows: Rows::new(alloc),
        }
    }

    /// Counts the chains.
    pub fn len(&self) -> usize
        ensures { result ≡ length self.now }
    {
        self.sides.len()
    }

    /// The chain's node and side.
    pub fn of(&self, place: usize) -> NodeSide
        requires { place < length self.now }
        ensures { option_map side_of (slice_get self.now place) ≡ Some result }
    {
        self.sides[place]
    }

    /// The chain's steps.
    pub fn steps(&self, place: usize) -> &[u32]
        requires { place < length self.now }
        ensures { option_map (λ c. c.steps) (slice_get self.now place) ≡ Some result.now }
    {
        self.rows.row(place)
    }

    /// Adds a chain.
    #[inline(always)]
    pub fn push(&mut self, of: NodeSide, steps: &[u32]) -> Result<(), Refusal>
        ensures ok { OnOk result (self.new ≡ self.old ++ chain_of of steps.now ∷ []) }
        ensures err { OnErr result (self.new ≡ self.old) }
        ensures memory { IfErr result (λ e. e ≡ OutOfMemory) }
    {
        self.sides.reserve(1)?;
        self.rows.push(steps)?;
        self.sides.push_reserved(of);
        Ok(())
    }
}
