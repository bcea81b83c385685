// One record of a sheet file: what it says, or why it is refused.
ghost use Rattle.std.specs.Prelude.{◌≡◌, ◌&&◌, [], ◌<◌, ◌≤◌, length, get_or, eqb, ltb};
ghost use Rattle.meaning.specs.Numbers.{REGISTER};
ghost use Rattle.meaning.specs.Sheet.{body_of, exceeds_limits};
ghost use Rattle.sheet.specs.Stored.{number_of_kind, Kept};
ghost use Rattle.sheet.specs.Record.{number_of_record, Begins, part_of, full, signal_in, kind_of, length_of, late_of, Judged};

use crate::{Kind, Output, Sheet, Signal, kind};
use answer::Refusal;

// What begins a record.
#[derive(Clone, Copy)]
enum RecordKind {
    Signal(Kind),
    Output,
    End,
}

#[derive(Clone, Copy)]
pub(crate) enum Record {
    Signal(Signal),
    Output(Output),
    End,
}

impl Record {
    fn kind(self) -> RecordKind
        ensures { result ≡ kind_of self }
    {
        match self {
            Record::Signal(x) => RecordKind::Signal(x.kind),
            Record::Output(_) => RecordKind::Output,
            Record::End => RecordKind::End,
        }
    }

    // How many bytes of a file it takes.
    pub(crate) fn len(self) -> usize
        ensures { result ≡ length_of self }
    {
        1 + self.kind().body()
    }
}

// KIND: no record of a sheet has this kind.
#[tactic(auto, unfolding(meaning::specs::Sheet::kind_is_unknown))]
impl TryFrom<u8> for RecordKind {
    type Error = Refusal;

    ghost try_from_gives = { Begins };

    fn try_from(number: u8) -> Result<Self, Refusal> {
        match number {
            kind::INPUT => Ok(RecordKind::Signal(Kind::Input)),
            kind::REGISTER => Ok(RecordKind::Signal(Kind::Register)),
            kind::NOT => Ok(RecordKind::Signal(Kind::Not)),
            kind::AND => Ok(RecordKind::Signal(Kind::And)),
            kind::OR => Ok(RecordKind::Signal(Kind::Or)),
            kind::XOR => Ok(RecordKind::Signal(Kind::Xor)),
            kind::OUTPUT => Ok(RecordKind::Output),
            kind::END => Ok(RecordKind::End),
            _ => Err(Refusal::Kind),
        }
    }
}

impl Kind {
    // The length of a record's body.
    #[tactic(auto, unfolding(meaning::specs::Sheet::body_of))]
    pub(crate) fn body(self) -> usize
        ensures value { result ≡ body_of (number_of_kind self) }
        ensures short { result ≤ 2 }
    {
        match self {
            Kind::Input | Kind::Not => 1,
            Kind::Register | Kind::And | Kind::Or | Kind::Xor => 2,
        }
    }
}

impl RecordKind {
    #[tactic(auto, unfolding(meaning::specs::Sheet::body_of))]
    fn body(self) -> usize
        ensures value { result ≡ body_of (number_of_record self) }
        ensures short { result ≤ 2 }
    {
        match self {
            RecordKind::Signal(kind) => kind.body(),
            RecordKind::Output => 2,
            RecordKind::End => 0,
        }
    }

    // MANY: a record of this kind is one more than the limits allow.
    fn is_one_too_many(self, s: &Sheet) -> bool
        requires { Kept s.now }
        ensures { result ≡ exceeds_limits (part_of s.now []) (number_of_record self) }
    {
        match self {
            RecordKind::Output => s.outputs.is_full(),
            RecordKind::End => false,
            RecordKind::Signal(kind) => s.signals.is_full() || s.is_full_of(kind),
        }
    }
}

impl Sheet {
    // Inputs and registers have a limit of their own.
    fn is_full_of(&self, kind: Kind) -> bool
        ensures { result ≡ full self.now kind }
    {
        match kind {
            Kind::Input => Sheet::INPUTS <= self.inputs,
            Kind::Register => Sheet::REGISTERS <= self.registers,
            Kind::Not | Kind::And | Kind::Or | Kind::Xor => false,
        }
    }
}

impl Signal {
    // What the rest of a file says from a record of this kind on; b is 0 where the body has one byte.
    #[tactic(auto, unfolding(meaning::specs::Sheet::body_of, crate::specs::Record::second_of))]
    fn read(kind: Kind, rest: &[u8]) -> Self
        requires { body_of (number_of_kind kind) < length rest.now }
        ensures { result ≡ signal_in rest.now kind }
    {
        match kind {
            Kind::Input | Kind::Not => Self {
                kind,
                a: rest[1],
                b: 0,
            },
            Kind::Register | Kind::And | Kind::Or | Kind::Xor => Self {
                kind,
                a: rest[1],
                b: rest[2],
            },
        }
    }

    // VALUE: an initial value that is not 0 or 1.
    fn has_bad_value(self) -> bool
        ensures { result ≡ (eqb (number_of_kind self.kind) REGISTER && ltb 1 self.a) }
    {
        self.kind == Kind::Register && 1 < self.a
    }

    // LATER: an operand of signal n is not a lower number than its own.
    #[tactic(auto, unfolding(crate::specs::Record::late_of))]
    fn has_later_operand(self, n: usize) -> bool
        ensures { result ≡ late_of n (number_of_kind self.kind) self.a self.b }
    {
        let Signal { kind, a, b } = self;
        match kind {
            Kind::Input | Kind::Register => false,
            Kind::Not => n <= usize::from(a),
            Kind::And | Kind::Or | Kind::Xor => n <= usize::from(a) || n <= usize::from(b),
        }
    }
}

// The record at the front of the rest of a file, over the sheet so far: KIND, SHORT, MANY, VALUE, LATER.
#[tactic(auto, unfolding(meaning::specs::Sheet::body_of))]
pub(crate) fn one_record(rest: &[u8], s: &Sheet) -> Result<Record, Refusal>
    requires { Kept s.now × (0 < length rest.now) }
    ensures { Judged rest.now s.now result }
{
    let kind = RecordKind::try_from(rest[0])?;
    if rest.len() <= kind.body() {
        return Err(Refusal::Short);
    }
    if kind.is_one_too_many(s) {
        return Err(Refusal::Many);
    }
    match kind {
        RecordKind::Signal(kind) => {
            let x = Signal::read(kind, rest);
            if x.has_bad_value() {
                return Err(Refusal::Value);
            }
            if x.has_later_operand(s.signals.len()) {
                return Err(Refusal::Later);
            }
            Ok(Record::Signal(x))
        }
        RecordKind::Output => Ok(Record::Output(Output {
            pin: rest[1],
            signal: rest[2],
        })),
        RecordKind::End => Ok(Record::End),
    }
}
