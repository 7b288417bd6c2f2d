//! A flag for each node, for fast look-ups.

ghost use Rattle.std.specs.Prelude.{◌≡◌, ◌<◌, ◌||◌, ◌==◌, ℕ, false};
ghost use Rattle.change_text.specs.Marks.{is_marked};

use ring_names::NodeId;

/// Marked nodes. A ring has at most 1,024 nodes: the flags need no memory.
#[derive(Drop)]
pub struct Marks {
    // by node
    flags: [bool; 1024],
}

impl Marks {
    /// Starts without marks.
    pub fn new() -> Marks
        ensures { (x : ℕ) → is_marked result x ≡ false }
    {
        Marks {
            flags: [false; 1024],
        }
    }

    /// Whether the node is marked.
    pub fn has(&self, node: NodeId) -> bool
        ensures { result ≡ is_marked self.now node.0 }
    {
        match self.flags.get(node.0 as usize) {
            Some(flag) => *flag,
            None => false,
        }
    }

    /// Marks the node.
    pub fn add(&mut self, node: NodeId)
        requires { node.0 < 1024 }
        ensures { (x : ℕ) → is_marked self.new x ≡ ((x == node.0) || is_marked self.old x) }
    {
        self.flags[node.0 as usize] = true;
    }
}
