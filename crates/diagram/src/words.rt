// The words of the table: their names, reading and storing one, and emptying all.
#![tactic(auto, unfolding(meaning::specs::Room::capacity, crate::specs::Words::at, crate::specs::Words::store))]

ghost use Rattle.std.specs.Prelude.{◌≡◌, ◌*◌, ◌<◌, ◌≤◌, length};
ghost use Rattle.meaning.specs.Numbers.{max_nodes, node_words};
ghost use Rattle.meaning.specs.Room.{cleared};
ghost use Rattle.diagram.specs.Words.{room_of, at, store, spread};

use crate::Head;

// What the words of node i hold: its height and its branches, the next id in its chain, the first id of bucket i, and slot i of the cache.
// Numbers and no enum: each is an offset, which is added to the place of the node. A word is a number of 16 bits, so 0 stands for no next id,
// no first id and an empty slot; it is read as a usize, since ids are added and multiplied, and each contract says that it fits.
pub const HEIGHT: usize = 0;

pub const LOW: usize = 1;

pub const HIGH: usize = 2;

pub const NEXT: usize = 3;

pub const BUCKET: usize = 4;

pub const OPERATION: usize = 5;

pub const LEFT: usize = 6;

pub const RIGHT: usize = 7;

pub const RESULT: usize = 8;

// In node 0 the table's stamp: a slot of the cache counts while its operation is written under the same one.
pub const STAMP: usize = 9;

// How many nodes there is room for.
pub fn room(t: &[u16]) -> usize
    ensures { (result ≡ room_of t.now) × (result ≤ max_nodes) × (node_words * result ≤ length t.now) }
{
    (t.len() / Head::WORDS).min(Head::NODES)
}

// Empties the table: its words are zero, and the rest as before.
pub fn clear(t: &mut [u16])
    ensures { t.new ≡ cleared t.old }
{
    let n = Head::WORDS * room(t);
    t[..n].fill(0);
}

// Word k of node i.
pub fn word(t: &[u16], i: usize, k: usize) -> usize
    requires { (i < room_of t.now) × (k < node_words) }
    ensures { (result ≡ at t.now i k) × (result < 65536) }
{
    usize::from(t[Head::WORDS * i + k])
}

pub fn put(t: &mut [u16], i: usize, k: usize, x: usize)
    requires { (i < room_of t.old) × (k < node_words) × (x < 65536) }
    ensures { (t.new ≡ store t.old i k x) × (room_of t.new ≡ room_of t.old) }
{
    // A cast: it fits, and a TryFrom would bring an error that never comes.
    t[Head::WORDS * i + k] = x as u16;
}

// A number below n for three words: the bucket of a node, the slot of an operation on two ids.
#[tactic(auto, using(crate::proofs::Stores::spreading), unfolding(crate::specs::Words::spread, crate::specs::Words::mixed))]
pub fn hashed(x: usize, y: usize, z: usize, n: usize) -> usize
    requires { (x < 65536) × (y < 65536) × (z < 65536) × (0 < n) × (n ≤ max_nodes) }
    ensures { (result ≡ spread x y z n) × (result < n) }
{
    let mixed = (x * 3266489917 + y * 2654435761 + z * 2246822519) % 4294967296;
    mixed * n / 4294967296
}
