// Reduced decision diagrams in a lent table of 16-bit words. A node stands for a tree of the crate `tree`; ids 0 and 1 are the constants,
// id i + 2 is node i, and the table's head says how many nodes are used. Combining recurses on branches and adds no node but the result's.
#![tactic(auto)]

ghost use Rattle.std.specs.Prelude.{◌≡◌, ◌+◌, ◌<◌, ◌≤◌, max};
ghost use Rattle.meaning.specs.Numbers.{max_nodes};
ghost use Rattle.diagram.specs.Operation.{op_of, code_of};
ghost use Rattle.diagram.specs.Words.{room_of};
ghost use Rattle.diagram.specs.Table.{combined};
ghost use Rattle.diagram.specs.Contract.{Open, CombineAsks, Says};

pub mod cache;
pub mod forget;
pub mod nodes;
pub mod start;
pub mod table;
pub mod words;

use cache::{early, note, recall};
use nodes::{Node, make_in};
use start::split;
use words::hashed;

// The table's head: the nodes used, and the greatest count since the head was made.
#[derive(Clone, Copy, Debug, PartialEq, Eq)]
pub struct Head {
    pub used: usize,
    pub most: usize,
}

impl Head {
    // The most nodes that a table has.
    pub const NODES: usize = 60000;

    // The words of one node.
    pub const WORDS: usize = 10;

    pub fn new() -> Self
        ensures { (result.used ≡ 0) × (result.most ≡ 0) }
    {
        Head { used: 0, most: 0 }
    }

    // For an emptied table.
    pub fn reset(mut self) -> Self
        ensures { (result.used ≡ 0) × (result.most ≡ self.most) }
    {
        self.used = 0;
        self
    }

    // One node more.
    pub fn counted(mut self) -> Self
        requires { self.used ≤ max_nodes }
        ensures { (result.used ≡ self.used + 1) × (result.most ≡ max self.most (self.used + 1)) }
    {
        self.used += 1;
        self.most = self.most.max(self.used);
        self
    }
}

// The id of a tree that the table has now, with the table's head.
#[derive(Clone, Copy, Debug, PartialEq, Eq)]
pub struct Made {
    pub id: usize,
    pub head: Head,
}

// Why there is none: the table is full, and lacks a node of the tree.
#[derive(Clone, Copy, Debug, PartialEq, Eq)]
pub struct Full {
    pub head: Head,
}

// An operation. The cache writes its number: 0 is an empty slot, and 5 to 7 are free for operations of other shapes.
#[derive(Clone, Copy, Debug, PartialEq, Eq)]
pub enum Op {
    And = 1,
    Or,
    Xor,
    Equal,
}

impl From<Op> for usize {
    ghost from_gives = { λ op n. n ≡ code_of op };

    fn from(op: Op) -> usize {
        op as usize
    }
}

// The branches of a diagram at some height.
#[derive(Clone, Copy)]
pub struct Branches {
    pub low: usize,
    pub high: usize,
}

// The greater height of two diagrams, and their branches there.
#[derive(Clone, Copy)]
pub struct Sides {
    pub top: usize,
    pub a: Branches,
    pub b: Branches,
}

// `Table::combine` where there is no early answer, in a table with room for n nodes. The branches are asked for early answers here, so
// that these cost no call; the head, and the operation with its operands, go in as numbers, which stay in registers where a struct would
// be stored and read back.
pub(crate) fn combine_from(
    t: &mut [u16],
    n: usize,
    used: usize,
    most: usize,
    op: Op,
    a: usize,
    b: usize,
    left: usize,
) -> Result<Made, Full>
    requires { (CombineAsks t.old (record { used = used; most = most }) a b left) × (Open a b) × (n ≡ room_of t.old) }
    ensures { Says t.old (record { used = used; most = most }) (combined t.old used (op_of op) a b) t.new result }
{
    let head = Head { used, most };
    let slot = hashed(usize::from(op), a, b, n);
    if let Some(id) = recall(t, used, slot, op, a, b) {
        return Ok(Made { id, head });
    }
    let s = split(t, used, a, b);
    let low = match early(op, s.a.low, s.b.low) {
        Some(id) => Made { id, head },
        None => combine_from(t, n, used, most, op, s.a.low, s.b.low, left - 1)?,
    };
    let Head { used, most } = low.head;
    let high = match early(op, s.a.high, s.b.high) {
        Some(id) => Made { id, head: low.head },
        None => combine_from(t, n, used, most, op, s.a.high, s.b.high, left - 1)?,
    };
    let x = Node {
        height: s.top,
        low: low.id,
        high: high.id,
    };
    let made = make_in(t, n, high.head, x)?;
    note(t, slot, op, a, b, made.id);
    Ok(made)
}
