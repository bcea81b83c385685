// The unique table: each node is made once, and found again by its own three words through the chain of its bucket.
ghost use Rattle.std.specs.Prelude.{◌≡◌, ◌+◌, ◌<◌};
ghost use Rattle.meaning.specs.Numbers.{max_nodes};
ghost use Rattle.diagram.specs.Words.{HEIGHT, LOW, HIGH, at, room_of};
ghost use Rattle.diagram.specs.Table.{bucket_of, glued, added, unlinked, Good, Sought};
ghost use Rattle.diagram.specs.Contract.{MakeAsks, Says};

use crate::words::{BUCKET, HEIGHT, HIGH, LOW, NEXT, hashed, put, room, word};
use crate::{Full, Head, Made};

// What a node is found by: the height at which it tests, and the ids of its branches.
#[derive(Clone, Copy, PartialEq, Eq)]
pub struct Node {
    pub height: usize,
    pub low: usize,
    pub high: usize,
}

impl Node {
    // Node i of the table.
    fn read(t: &[u16], i: usize) -> Self
        requires { i < room_of t.now }
        ensures words { (result.height ≡ at t.now i HEIGHT) × (result.low ≡ at t.now i LOW) × (result.high ≡ at t.now i HIGH) }
        ensures small { (result.height < 65536) × (result.low < 65536) × (result.high < 65536) }
    {
        Node {
            height: word(t, i, HEIGHT),
            low: word(t, i, LOW),
            high: word(t, i, HIGH),
        }
    }
}

// The id of the node x, which is in bucket b if anywhere. A chain runs to smaller ids.
fn find(t: &[u16], used: usize, b: usize, x: Node) -> Option<usize>
    requires { (Good t.now used) × (b ≡ bucket_of t.now x.height x.low x.high) × (b < room_of t.now) }
    ensures { Sought t.now used x.height x.low x.high result }
{
    let mut p = word(t, b, BUCKET);
    // A while: the chain says which id is next, so no range counts it.
    while 2 <= p {
        let k = p - 2;
        if Node::read(t, k) == x {
            return Some(p);
        }
        p = word(t, k, NEXT);
    }
    None
}

// Writes node i, first in the chain of bucket b.
#[tactic(auto, unfolding(crate::specs::Table::added))]
fn add(t: &mut [u16], i: usize, b: usize, x: Node)
    requires { (i < room_of t.old) × (i < max_nodes) × (b ≡ bucket_of t.old x.height x.low x.high) × (b < room_of t.old) × (x.height < 65536) × (x.low < 65536) × (x.high < 65536) }
    ensures { t.new ≡ added t.old i x.height x.low x.high }
{
    let first = word(t, b, BUCKET);
    put(t, i, HEIGHT, x.height);
    put(t, i, LOW, x.low);
    put(t, i, HIGH, x.high);
    put(t, i, NEXT, first);
    put(t, b, BUCKET, i + 2);
}

// Takes node i out of the chain of its bucket, whose first it is.
#[tactic(auto, unfolding(crate::specs::Table::unlinked, crate::specs::Table::bucket_of))]
pub fn unlink(t: &mut [u16], i: usize)
    requires { i < room_of t.old }
    ensures { t.new ≡ unlinked t.old i }
{
    let x = Node::read(t, i);
    let b = hashed(x.height, x.low, x.high, room(t));
    put(t, b, BUCKET, word(t, i, NEXT));
}

// The tree of x, in a table with room for n nodes.
#[tactic(auto, using(crate::proofs::Stores::room_small), unfolding(crate::specs::Contract::Says, crate::specs::Table::Sought, crate::specs::Table::bucket_of))]
pub fn make_in(t: &mut [u16], n: usize, head: Head, x: Node) -> Result<Made, Full>
    requires { (MakeAsks t.old head x.height x.low x.high) × (n ≡ room_of t.old) }
    ensures { Says t.old head (glued t.old head.used x.height x.low x.high) t.new result }
{
    if x.low == x.high {
        return Ok(Made { id: x.low, head });
    }
    if n == 0 {
        return Err(Full { head });
    }
    let used = head.used;
    let b = hashed(x.height, x.low, x.high, n);
    if let Some(id) = find(t, used, b, x) {
        return Ok(Made { id, head });
    }
    if n <= used {
        return Err(Full { head });
    }
    add(t, used, b, x);
    Ok(Made {
        id: used + 2,
        head: head.counted(),
    })
}
