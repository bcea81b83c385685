// The start list and the step list of two sheets, worked in the lent table.
#![tactic(auto)]

ghost use Rattle.std.specs.Prelude.{◌≡◌, length, OnOk};
ghost use Rattle.meaning.specs.Joint.{variables};
ghost use Rattle.diagram.specs.Contract.{Ready};
ghost use Rattle.fill.specs.Work.{Fills};
ghost use Rattle.work.specs.Lists.{left, right, joint, Alike, Holds, StartSays, StepSays};
ghost use Rattle.work.specs.Passes.{moment_of};
ghost use Rattle.work.specs.Stages.{f_trees, JointAsks, BothAsks, BothSays, Front, FrontSays};

mod pass;

use diagram::Full;
use diagram::table::Table;
use fill::{put_byte_normals, put_equals, put_times};
use pass::{Moment, Pass, put_sheet};
use sheet::Sheet;

// Two sheets, and each joint signal's polarity: 1 for plain, 0 for flipped; the places after hold any byte. No count stands beside them:
// the sheets know how many joint signals there are.
// No ghost field says that they are alike: `start_list`, `front_list` and `step_list`, which docs/PROMISES.md names, may not ask for a
// narrower type, so each asks for `Alike` itself.
#[derive(Clone, Copy)]
pub struct Pair {
    pub a: Sheet,
    pub b: Sheet,
    pub plain: [u8; Sheet::JOINT],
}

impl Pair {
    // How many variables there are: the registers of A and of B, inputs x and inputs y.
    fn levels(&self) -> usize
        requires { Alike self.now }
        ensures { result ≡ variables (left self.now) (right self.now) }
    {
        self.a.registers + self.b.registers + self.a.inputs + self.a.inputs
    }
}

// All f of a moment: A's signals, then B's.
fn put_joint(table: &mut Table, p: &Pair, moment: Moment, ids: &mut [u16]) -> Result<(), Full>
    requires { JointAsks p.now moment table.old.words.now table.old.head (length ids.old) }
    ensures same_reference { table.new.words.ghost_name ≡ table.old.words.ghost_name }
    ensures fills { Fills table.old.words.now table.old.head (f_trees (left p.now) (right p.now) (moment_of moment.entry)) ids.old 0 table.new.words.now table.new.head ids.new result }
{
    let left = p.levels();
    let Pair { a, b, .. } = p;
    let over_a = Pass::new(moment, left, a.inputs, 0, 0);
    put_sheet(table, over_a, a, ids)?;
    let over_b = Pass::new(moment, left, a.inputs, a.registers, a.signals.len());
    put_sheet(table, over_b, b, ids)
}

// All f and all h of a moment.
fn put_both(
    table: &mut Table,
    p: &Pair,
    moment: Moment,
    f: &mut [u16],
    h: &mut [u16],
) -> Result<(), Full>
    requires { BothAsks p.now moment table.old.words.now table.old.head (length f.old) (length h.old) }
    ensures same_reference { table.new.words.ghost_name ≡ table.old.words.ghost_name }
    ensures both { BothSays p.now moment.entry table.old.words.now table.old.head table.new.words.now table.new.head f.new h.new result }
{
    put_joint(table, p, moment, f)?;
    put_byte_normals(table, &p.plain[..f.len()], f, h, p.levels())
}

// The start list: all f in the initial state, then all h, whose ids are put. The lent table may hold anything.
#[tactic(auto, using(crate::proofs::Joining::joint_few, crate::proofs::Front::zeros_front))]
pub fn start_list(table: &mut Table, p: &Pair, ids: &mut [u16]) -> Result<(), Full>
    requires alike { Alike p.now }
    requires sized { length ids.old ≡ joint p.now }
    ensures same_reference { table.new.words.ghost_name ≡ table.old.words.ghost_name }
    ensures list { StartSays p.now table.old.words.now table.old.head table.new.words.now table.new.head ids.new result }
    ensures ready { OnOk result (Ready table.new.words.now table.new.head) }
{
    let n = ids.len();
    // The first places of an array, here and below: an ArrayVec would first be filled with zeros and cut, as ids are put into places.
    let mut f = [0u16; Sheet::JOINT];
    table.clear();
    put_both(table, p, Moment::Start, &mut f[..n], ids)
}

// The front of the step list, which no grouping changes: all f and all h now, then one tick on. The ids of all h are put.
#[tactic(auto, using(crate::proofs::Joining::joint_few, crate::proofs::Front::zeros_front))]
pub fn front_list(
    table: &mut Table,
    p: &Pair,
    h: &mut [u16],
    h_next: &mut [u16],
) -> Result<(), Full>
    requires alike { Alike p.now }
    requires ready { Ready table.old.words.now table.old.head }
    requires sized { length h.old ≡ joint p.now }
    requires next_sized { length h_next.old ≡ joint p.now }
    ensures same_reference { table.new.words.ghost_name ≡ table.old.words.ghost_name }
    ensures front { FrontSays p.now table.old.words.now table.old.head table.new.words.now table.new.head h.new h_next.new result }
{
    let n = h.len();
    let mut f = [0u16; Sheet::JOINT];
    let mut f_next = [0u16; Sheet::JOINT];
    table.forget(0);
    put_both(table, p, Moment::Now, &mut f[..n], h)?;
    put_both(table, p, Moment::Next(&f[..n]), &mut f_next[..n], h_next)
}

// The ids of all h, now and one tick on: the step list of each grouping goes on from them.
#[derive(Clone, Copy, Debug, PartialEq, Eq)]
pub struct Normals<'a> {
    pub h: &'a [u16],
    pub h_next: &'a [u16],
}

// The step list of a grouping g, worked on from its front: the equalities with their running product, which ends in Q, and Q times each h
// one tick on, whose ids are put.
pub fn step_list(
    table: &mut Table,
    p: &Pair,
    g: &[u16],
    normals: Normals,
    ids: &mut [u16],
) -> Result<(), Full>
    requires front { Front p.now table.old.words.now table.old.head normals.h.now normals.h_next.now }
    requires groups { length g.now ≡ joint p.now }
    requires sized { length ids.old ≡ joint p.now }
    ensures same_reference { table.new.words.ghost_name ≡ table.old.words.ghost_name }
    ensures list { StepSays p.now g.now table.old.words.now table.old.head table.new.words.now table.new.head ids.new result }
    ensures holds { OnOk result (Holds table.old.words.now table.old.head table.new.words.now table.new.head) }
{
    let left = p.levels();
    let q = put_equals(table, g, normals.h, left)?;
    put_times(table, q, normals.h_next, ids, left)
}
