// What is known of a combination with no recursion: early answers for constant and equal operands, and the cache of results.
// A result counts while it carries the table's stamp, so that a new stamp empties the cache.
ghost use Rattle.std.specs.Prelude.{◌≡◌, ◌+◌, ◌*◌, ◌<◌};
ghost use Rattle.diagram.specs.Operation.{op_of, code_of, codes, stamps};
ghost use Rattle.diagram.specs.Words.{room_of, stamp_of};
ghost use Rattle.diagram.specs.Table.{noted, key_of, Stamped, Good};
ghost use Rattle.diagram.specs.Contract.{Absorbed, Cancelled, Early, Recalled, Wiped, Renewed};

use crate::Op;
use crate::words::{LEFT, OPERATION, RESULT, RIGHT, STAMP, put, room, word};

// A word of the cache has one of so many codes beside one of so many stamps.
const CODES: usize = 8;

const STAMPS: usize = 8192;

// AND and OR: the unit leaves the other operand, and the other constant takes all.
fn absorbing(unit: usize, a: usize, b: usize) -> Option<usize>
    requires { unit < 2 }
    ensures { Absorbed unit a b result }
{
    if a == unit {
        Some(b)
    } else if b == unit || a == b || a < 2 {
        Some(a)
    } else {
        (b < 2).then_some(b)
    }
}

// XOR and EQUAL: the unit leaves the other operand, and equal operands give the unit.
fn cancelling(unit: usize, a: usize, b: usize) -> Option<usize>
    requires { unit < 2 }
    ensures { Cancelled unit a b result }
{
    if a == unit {
        Some(b)
    } else if b == unit {
        Some(a)
    } else {
        (a == b).then_some(unit)
    }
}

// Answers that need no table; a miss has an operand that is no constant.
#[tactic(auto, using(crate::proofs::Early::operations), unfolding(crate::specs::Contract::Absorbed, crate::specs::Contract::Cancelled))]
pub fn early(op: Op, a: usize, b: usize) -> Option<usize>
    ensures { Early (op_of op) a b result }
{
    match op {
        Op::And => absorbing(1, a, b),
        Op::Or => absorbing(0, a, b),
        Op::Xor => cancelling(0, a, b),
        Op::Equal => cancelling(1, a, b),
    }
}

// How the cache writes an operation: its code under the table's stamp.
#[tactic(auto, using(crate::proofs::Codes::code_small))]
fn key(t: &[u16], op: Op) -> usize
    requires { 0 < room_of t.now }
    ensures { (result ≡ key_of t.now op) × (result < codes * stamp_of t.now + codes) }
{
    CODES * word(t, 0, STAMP) + usize::from(op)
}

// What the cache's slot has of an operation on two ids.
#[tactic(auto, unfolding(crate::specs::Contract::Recalled))]
pub fn recall(t: &[u16], used: usize, slot: usize, op: Op, a: usize, b: usize) -> Option<usize>
    requires { (Good t.now used) × (slot < room_of t.now) }
    ensures { Recalled t.now used (op_of op) a b result }
{
    if word(t, slot, OPERATION) == key(t, op)
        && word(t, slot, LEFT) == a
        && word(t, slot, RIGHT) == b
    {
        Some(word(t, slot, RESULT))
    } else {
        None
    }
}

#[tactic(auto, unfolding(crate::specs::Table::noted))]
pub fn note(t: &mut [u16], slot: usize, op: Op, a: usize, b: usize, r: usize)
    requires { (slot < room_of t.old) × (stamp_of t.old < stamps) × (a < 65536) × (b < 65536) × (r < 65536) }
    ensures { t.new ≡ noted t.old slot op a b r }
{
    put(t, slot, OPERATION, key(t, op));
    put(t, slot, LEFT, a);
    put(t, slot, RIGHT, b);
    put(t, slot, RESULT, r);
}

// Empties every slot.
fn wipe(t: &mut [u16])
    ensures { Wiped t.old t.new (room_of t.old) }
{
    for i in 0..room(t) {
        put(t, i, OPERATION, 0);
    }
}

// Gives the table its next stamp, so that no slot counts; the slots are emptied only when the stamps are used up.
pub fn renew(t: &mut [u16])
    requires { (0 < room_of t.old) × (Stamped t.old) }
    ensures { Renewed t.old t.new }
{
    let next = word(t, 0, STAMP) + 1;
    if next < STAMPS {
        put(t, 0, STAMP, next);
    } else {
        wipe(t);
        put(t, 0, STAMP, 0);
    }
}
