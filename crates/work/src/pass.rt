// A pass over one sheet: f of its signals at one moment, each made of lower ones, a variable or a constant.
ghost use Rattle.std.specs.Prelude.{◌≡◌, ◌+◌, ◌<◌, ◌≤◌, length, get_or};
ghost use Rattle.meaning.specs.Numbers.{max_inputs};
ghost use Rattle.work.specs.Passes.{passed, top_of_input, pass_of, GateAsks, GateSays, SignalAsks, SignalSays, SheetAsks, SheetSays};

use diagram::table::Table;
use diagram::{Full, Op};
use sheet::{Kind, Sheet, Signal};

// When the joint list is looked at: in the initial state, now, or one tick on, which reads the ids of all f now.
#[derive(Clone, Copy, Debug, PartialEq, Eq)]
pub enum Moment<'a> {
    Start,
    Now,
    Next(&'a [u16]),
}

impl<'a> Moment<'a> {
    // The height of the first input: one tick on, the inputs are y, below x.
    #[tactic(auto, unfolding(crate::specs::Passes::top_of_input))]
    fn input_top(self, inputs: usize) -> usize
        requires { inputs ≤ max_inputs }
        ensures { result ≡ top_of_input self.entry inputs }
    {
        match self {
            Moment::Start | Moment::Now => inputs + inputs,
            Moment::Next(_) => inputs,
        }
    }
}

// The moment, the heights of the variables of the next register and of the next input, the joint number of the sheet's first signal, and
// how many variable levels there are.
#[derive(Clone, Copy)]
pub struct Pass<'a> {
    pub moment: Moment<'a>,
    pub register: usize,
    pub input: usize,
    pub before: usize,
    pub left: usize,
}

impl<'a> Pass<'a> {
    // A pass that begins after so many registers, and so many signals, of the joint list.
    #[tactic(auto, unfolding(crate::specs::Passes::pass_of))]
    pub fn new(
        moment: Moment<'a>,
        left: usize,
        inputs: usize,
        registers: usize,
        before: usize,
    ) -> Self
        requires { (inputs ≤ max_inputs) × (registers ≤ left) }
        ensures { result ≡ pass_of moment.entry left inputs registers before }
    {
        Pass {
            moment,
            register: left - registers,
            input: moment.input_top(inputs),
            before,
            left,
        }
    }

    // After a signal: the next variable of its kind is one level lower.
    #[tactic(auto, unfolding(crate::specs::Passes::passed))]
    fn past(mut self, kind: Kind) -> Self
        requires { (kind ≡ Kind.Input → 0 < self.input) × (kind ≡ Kind.Register → 0 < self.register) }
        ensures { result ≡ passed self.entry kind }
    {
        match kind {
            Kind::Input => self.input -= 1,
            Kind::Register => self.register -= 1,
            Kind::Not | Kind::And | Kind::Or | Kind::Xor => {}
        }
        self
    }

    // The id of signal k of the sheet.
    fn operand(self, ids: &[u16], k: u8) -> usize
        requires { self.before + k < length ids.now }
        ensures { result ≡ get_or ids.now (self.entry.before + k) 0 }
    {
        usize::from(ids[self.before + usize::from(k)])
    }
}

// A gate: an operation on two lower signals.
fn put_gate(table: &mut Table, p: Pass, op: Op, x: Signal, ids: &[u16]) -> Result<usize, Full>
    requires { GateAsks p x table.old.words.now table.old.head ids.now }
    ensures same_reference { table.new.words.ghost_name ≡ table.old.words.ghost_name }
    ensures gate { GateSays p.entry op x table.old.words.now table.old.head ids.now table.new.words.now table.new.head result }
{
    let a = p.operand(ids, x.a);
    let b = p.operand(ids, x.b);
    table.combine(op, a, b, p.left)
}

// One signal: `ids` has those of the lower signals at the pass's moment. A register is the constant of its initial value, a variable, or
// what its source is now.
fn put_signal(table: &mut Table, p: Pass, x: Signal, ids: &[u16]) -> Result<usize, Full>
    requires { SignalAsks p x table.old.words.now table.old.head ids.now }
    ensures same_reference { table.new.words.ghost_name ≡ table.old.words.ghost_name }
    ensures signal { SignalSays p.entry x table.old.words.now table.old.head ids.now table.new.words.now table.new.head result }
{
    match x.kind {
        Kind::Input => table.make(p.input, 0, 1),
        Kind::Register => match p.moment {
            Moment::Start => Ok(usize::from(x.a)),
            Moment::Now => table.make(p.register, 0, 1),
            Moment::Next(now) => Ok(p.operand(now, x.b)),
        },
        Kind::Not => table.complement(p.operand(ids, x.a), p.left),
        Kind::And => put_gate(table, p, Op::And, x, ids),
        Kind::Or => put_gate(table, p, Op::Or, x, ids),
        Kind::Xor => put_gate(table, p, Op::Xor, x, ids),
    }
}

// f of all signals of a sheet, their ids from its first joint number on.
pub fn put_sheet(table: &mut Table, p: Pass, s: &Sheet, ids: &mut [u16]) -> Result<(), Full>
    requires { SheetAsks p s.now table.old.words.now table.old.head (length ids.old) }
    ensures same_reference { table.new.words.ghost_name ≡ table.old.words.ghost_name }
    ensures sheet { SheetSays p.entry s.now table.old.words.now table.old.head ids.old table.new.words.now table.new.head ids.new result }
{
    let mut here = p;
    for (v, x) in s.signals.iter().enumerate() {
        let id = put_signal(table, here, *x, ids)?;
        // A cast: an id fits, and a TryFrom would bring an error that never comes.
        ids[p.before + v] = id as u16;
        here = here.past(x.kind);
    }
    Ok(())
}
