// Nodes are taken back, in time that goes by their number and, but for one time in 8192, not by the table's length.
ghost use Rattle.std.specs.Prelude.{◌≤◌};
ghost use Rattle.diagram.specs.Contract.{Ready, Forgets};

use crate::Head;
use crate::cache::renew;
use crate::nodes::unlink;

// The nodes from `mark` on are taken back: the ids below keep their trees. The cache may speak of the nodes that go, so it is emptied.
pub fn forget(t: &mut [u16], head: Head, mark: usize) -> Head
    requires { (Ready t.old head) × (mark ≤ head.used) }
    ensures { Forgets t.old head mark t.new result }
{
    if head.used == mark {
        return head;
    }
    renew(t);
    // The newest goes first: a new node is put first in its chain.
    for i in (mark..head.used).rev() {
        unlink(t, i);
    }
    Head { used: mark, ..head }
}
