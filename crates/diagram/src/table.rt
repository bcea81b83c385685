// A lent table with its head. What the lent words hold afterwards is what they hold here: no method puts others in their place.
// The nodes are an arena by index, since the caller lends the words: there is no Box and no map.
ghost use Rattle.std.specs.Prelude.{◌≡◌, ◌≤◌};
ghost use Rattle.meaning.specs.Room.{cleared};
ghost use Rattle.tree.specs.Tree.{complement_tree};
ghost use Rattle.diagram.specs.Operation.{op_of};
ghost use Rattle.diagram.specs.Table.{tree_at, glued, combined};
ghost use Rattle.diagram.specs.Contract.{Ready, MakeAsks, CombineAsks, ComplementAsks, Gives, Forgets};

use crate::cache::early;
use crate::forget::forget;
use crate::nodes::{Node, make_in};
use crate::words::{clear, room};
use crate::{Full, Head, Made, Op, combine_from};

// That a method leaves the lent words in their place (`same_reference`) is a clause of each: a fact of before and after is no invariant.
// That they are in order (`Ready`) is one too: they may hold anything until they are cleared.
#[derive(Drop)]
pub struct Table<'a> {
    pub words: &'a mut [u16],
    pub head: Head,
}

#[tactic(auto, unfolding(crate::specs::Contract::Gives, crate::specs::Contract::Says))]
impl<'a> Table<'a> {
    // The lent words may hold anything until they are cleared.
    pub fn new(words: &'a mut [u16]) -> Table<'a>
        ensures same_reference { result.words.ghost_name ≡ words.entry.ghost_name }
        ensures words { result.words.now ≡ words.old }
        ensures head { (result.head.used ≡ 0) × (result.head.most ≡ 0) }
    {
        Table {
            words,
            head: Head::new(),
        }
    }

    // An empty table: its words are zero, and the rest as before.
    pub fn clear(&mut self)
        ensures same_reference { self.new.words.ghost_name ≡ self.old.words.ghost_name }
        ensures words { self.new.words.now ≡ cleared self.old.words.now }
        ensures head { (self.new.head.used ≡ 0) × (self.new.head.most ≡ self.old.head.most) }
    {
        let words = &mut *self.words;
        clear(words);
        self.head = self.head.reset();
    }

    // The tree that tests at a height over the trees of low and high.
    pub fn make(&mut self, height: usize, low: usize, high: usize) -> Result<usize, Full>
        requires { MakeAsks self.old.words.now self.old.head height low high }
        ensures same_reference { self.new.words.ghost_name ≡ self.old.words.ghost_name }
        ensures gives { Gives self.old.words.now self.old.head (glued self.old.words.now self.old.head.used height low high) self.new.words.now self.new.head result }
    {
        let words = &mut *self.words;
        let n = room(words);
        let made = make_in(words, n, self.head, Node { height, low, high });
        // Three lines that `combine` ends with too: as a function they would take a contract that is longer.
        let (Ok(Made { head, .. }) | Err(Full { head })) = made;
        self.head = head;
        Ok(made?.id)
    }

    // The diagram of an operation on two diagrams, of which `left` variable levels remain: fewer at each call below, so no field of the table.
    pub fn combine(&mut self, op: Op, a: usize, b: usize, left: usize) -> Result<usize, Full>
        requires { CombineAsks self.old.words.now self.old.head a b left }
        ensures same_reference { self.new.words.ghost_name ≡ self.old.words.ghost_name }
        ensures gives { Gives self.old.words.now self.old.head (combined self.old.words.now self.old.head.used (op_of op) a b) self.new.words.now self.new.head result }
    {
        match early(op, a, b) {
            Some(id) => Ok(id),
            None => {
                let words = &mut *self.words;
                let n = room(words);
                let Head { used, most } = self.head;
                let made = combine_from(words, n, used, most, op, a, b, left);
                let (Ok(Made { head, .. }) | Err(Full { head })) = made;
                self.head = head;
                Ok(made?.id)
            }
        }
    }

    // The complement is equality with the constant 0.
    pub fn complement(&mut self, a: usize, left: usize) -> Result<usize, Full>
        requires { ComplementAsks self.old.words.now self.old.head a left }
        ensures same_reference { self.new.words.ghost_name ≡ self.old.words.ghost_name }
        ensures gives { Gives self.old.words.now self.old.head (complement_tree (tree_at self.old.words.now self.old.head.used a)) self.new.words.now self.new.head result }
    {
        self.combine(Op::Equal, a, 0, left)
    }

    // The nodes from `mark` on are taken back: the ids below keep their trees. The cache may speak of the nodes that go, so it is emptied.
    pub fn forget(&mut self, mark: usize)
        requires ready { Ready self.old.words.now self.old.head }
        requires used { mark ≤ self.old.head.used }
        ensures same_reference { self.new.words.ghost_name ≡ self.old.words.ghost_name }
        ensures forgets { Forgets self.old.words.now self.old.head mark self.new.words.now self.new.head }
    {
        let words = &mut *self.words;
        self.head = forget(words, self.head, mark);
    }
}
