// Heights and branches of ids.
// The words and the nodes used go in as `combine_from` has them, in registers: a Table would be read back each time.
ghost use Rattle.std.specs.Prelude.{◌≡◌, ◌+◌, ◌<◌};
ghost use Rattle.tree.specs.Tree.{height};
ghost use Rattle.diagram.specs.Table.{tree_at, Good};
ghost use Rattle.diagram.specs.Contract.{AreBranches, Splits};

use crate::words::{HEIGHT, HIGH, LOW, word};
use crate::{Branches, Sides};

#[tactic(auto, using(crate::proofs::Trees::heights))]
fn height_of(t: &[u16], used: usize, id: usize) -> usize
    requires { (Good t.now used) × (id < used + 2) }
    ensures { (result ≡ height (tree_at t.now used id)) × (result < 65536) }
{
    if id < 2 { 0 } else { word(t, id - 2, HEIGHT) }
}

// The branches of id at height v: twice id itself where its height is another.
fn branches_at(t: &[u16], used: usize, id: usize, v: usize) -> Branches
    requires { (Good t.now used) × (id < used + 2) }
    ensures { AreBranches t.now used id v result }
{
    if id < 2 || word(t, id - 2, HEIGHT) != v {
        return Branches { low: id, high: id };
    }
    Branches {
        low: word(t, id - 2, LOW),
        high: word(t, id - 2, HIGH),
    }
}

// The greater height of a and b, and their branches there.
pub(crate) fn split(t: &[u16], used: usize, a: usize, b: usize) -> Sides
    requires { (Good t.now used) × (a < used + 2) × (b < used + 2) }
    ensures { Splits t.now used a b result }
{
    let top = height_of(t, used, a).max(height_of(t, used, b));
    Sides {
        top,
        a: branches_at(t, used, a, top),
        b: branches_at(t, used, b, top),
    }
}
