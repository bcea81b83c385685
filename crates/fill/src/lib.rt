// Lists of trees worked in a lent table, their ids put into a lent array: normalised functions, the equalities of a grouping with their
// running product, and products. Nothing but the list's own nodes enters the table; where it is full, a part of the list is missing.
#![tactic(auto)]

ghost use Rattle.std.specs.Prelude.{◌≡◌, ℕ, length};
ghost use Rattle.diagram.specs.Table.{tree_at};
ghost use Rattle.diagram.specs.Contract.{Ready, Gives, ComplementAsks};
ghost use Rattle.tree.specs.Tree.{Tree};
ghost use Rattle.fill.specs.Work.{Fills};
ghost use Rattle.fill.specs.Trees.{map_trees, tree_of_normal};
ghost use Rattle.fill.specs.Contract.{Takes, Puts, NormalsAsks, NormalsSays, ByteNormalsAsks, ByteNormalsSays, EqualAsks, EqualSays, MemberAsks, MemberSays, EqualsAsks, EqualsSays, TimesAsks, TimesSays};

#[cfg(test)]
mod tests;

use diagram::table::Table;
use diagram::{Full, Op};
use groups::first_of;

// h of one f: itself for a plain signal, complemented for a flipped one.
#[tactic(auto, using(diagram::proofs::Grown::has_there), unfolding(diagram::specs::Contract::Gives, crate::specs::Trees::tree_of_normal))]
fn put_normal(table: &mut Table, plain: bool, x: usize, left: usize) -> Result<usize, Full>
    requires { ComplementAsks table.old.words.now table.old.head x left }
    ensures same_reference { table.new.words.ghost_name ≡ table.old.words.ghost_name }
    ensures gives { Gives table.old.words.now table.old.head (tree_of_normal plain (tree_at table.old.words.now table.old.head.used x)) table.new.words.now table.new.head result }
{
    if plain {
        Ok(x)
    } else {
        table.complement(x, left)
    }
}

// One operation on the table with each id of a list, by its place and itself; what it gives is put in that place.
fn put_each<F: Fn(&mut Table, usize, usize) -> Result<usize, Full>>(
    table: &mut Table,
    ids: &[u16],
    out: &mut [u16],
    put: F,
) -> Result<(), Full>
    requires ready { Ready table.old.words.now table.old.head }
    requires sized { length out.old ≡ length ids.now }
    requires takes { Takes F.Fn put table.old.words.now table.old.head ids.now }
    requires puts { (t : ℕ → Tree) × Puts F.Fn put table.old.words.now table.old.head ids.now t }
    ensures same_reference { table.new.words.ghost_name ≡ table.old.words.ghost_name }
    ensures says { (t : ℕ → Tree) → Puts F.Fn put table.old.words.now table.old.head ids.now t → Fills table.old.words.now table.old.head (map_trees t (length ids.now)) out.old 0 table.new.words.now table.new.head out.new result }
{
    for (v, x) in ids.iter().enumerate() {
        let made = put(table, v, usize::from(*x))?;
        // A cast: an id fits, and a TryFrom would bring an error that never comes.
        out[v] = made as u16;
    }
    Ok(())
}

// h of each f: a flag says whether its signal is plain.
pub fn put_normals(
    table: &mut Table,
    plain: &[bool],
    f: &[u16],
    h: &mut [u16],
    left: usize,
) -> Result<(), Full>
    requires { NormalsAsks table.old.words.now table.old.head plain.now f.now (length h.old) left }
    ensures same_reference { table.new.words.ghost_name ≡ table.old.words.ghost_name }
    ensures says { NormalsSays table.old.words.now table.old.head plain.now f.now h.old table.new.words.now table.new.head h.new result }
{
    put_each(
        table,
        f,
        h,
        |table, v, x| put_normal(table, plain[v], x, left),
    )
}

// The same where a byte says it: 1 that its signal is plain, any other that it is flipped. A function of its own: a pair's polarities are bytes,
// which cannot be lent as flags.
pub fn put_byte_normals(
    table: &mut Table,
    plain: &[u8],
    f: &[u16],
    h: &mut [u16],
    left: usize,
) -> Result<(), Full>
    requires { ByteNormalsAsks table.old.words.now table.old.head plain.now f.now (length h.old) left }
    ensures same_reference { table.new.words.ghost_name ≡ table.old.words.ghost_name }
    ensures says { ByteNormalsSays table.old.words.now table.old.head plain.now f.now h.old table.new.words.now table.new.head h.new result }
{
    put_each(
        table,
        f,
        h,
        |table, v, x| put_normal(table, plain[v] == 1, x, left),
    )
}

// One equality, and its product with those before.
fn put_equal(table: &mut Table, q: usize, x: usize, y: usize, left: usize) -> Result<usize, Full>
    requires { EqualAsks table.old.words.now table.old.head q x y left }
    ensures same_reference { table.new.words.ghost_name ≡ table.old.words.ghost_name }
    ensures says { EqualSays table.old.words.now table.old.head q x y left table.new.words.now table.new.head result }
{
    let same = table.combine(Op::Equal, x, y, left)?;
    table.combine(Op::And, q, same, left)
}

// Signal v: its equality with the first of its class and the product, unless it is that first.
#[tactic(auto, using(crate::proofs::Equals::member_first, crate::proofs::Equals::member_later))]
fn put_member(
    table: &mut Table,
    g: &[u16],
    h: &[u16],
    q: usize,
    v: usize,
    left: usize,
) -> Result<usize, Full>
    requires { MemberAsks table.old.words.now table.old.head g.now h.now q v left }
    ensures same_reference { table.new.words.ghost_name ≡ table.old.words.ghost_name }
    ensures says { MemberSays table.old.words.now table.old.head g.now h.now q v left table.new.words.now table.new.head result }
{
    let first = first_of(g, v);
    if first < v {
        put_equal(table, q, usize::from(h[first]), usize::from(h[v]), left)
    } else {
        Ok(q)
    }
}

// The equalities of a grouping and their running product, which ends in Q; its id is the answer.
pub fn put_equals(table: &mut Table, g: &[u16], h: &[u16], left: usize) -> Result<usize, Full>
    requires { EqualsAsks table.old.words.now table.old.head g.now h.now left }
    ensures same_reference { table.new.words.ghost_name ≡ table.old.words.ghost_name }
    ensures says { EqualsSays table.old.words.now table.old.head g.now h.now left table.new.words.now table.new.head result }
{
    let mut q = 1;
    for v in 0..h.len() {
        q = put_member(table, g, h, q, v, left)?;
    }
    Ok(q)
}

// q times each h.
pub fn put_times(
    table: &mut Table,
    q: usize,
    h: &[u16],
    out: &mut [u16],
    left: usize,
) -> Result<(), Full>
    requires { TimesAsks table.old.words.now table.old.head q h.now (length out.old) left }
    ensures same_reference { table.new.words.ghost_name ≡ table.old.words.ghost_name }
    ensures says { TimesSays table.old.words.now table.old.head q h.now out.old table.new.words.now table.new.head out.new result }
{
    put_each(
        table,
        h,
        out,
        |table, _, x| table.combine(Op::And, q, x, left),
    )
}
