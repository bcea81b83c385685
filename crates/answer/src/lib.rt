// The answers that all calls share, and the number of each.
#![tactic(auto)]

ghost use Rattle.std.specs.Prelude.{◌≡◌};
ghost use Rattle.meaning.specs.Numbers.{number_of, number_of_file, number_of_reason};
ghost use Rattle.answer.specs.Meant.{refusal_of, file_of, reason_of, refused_in};

#[derive(Clone, Copy, Debug, PartialEq, Eq)]
pub enum Refusal {
    Short,
    Kind,
    Many,
    Value,
    Later,
    After,
    NoOutput,
    Dangling,
    Unlike,
    Count,
    Out,
    Vector,
    NoRoom,
}

// The file that a refusal names, or none: a case of its own, since it has a number too.
#[derive(Clone, Copy, Debug, PartialEq, Eq)]
pub enum File {
    A,
    B,
    Grouping,
    Nothing,
}

// Why a verdict is UNDECIDED.
#[derive(Clone, Copy, Debug, PartialEq, Eq)]
pub enum Reason {
    Start,
    Step,
    Outputs,
}

// What is wrong with a file, and where in it.
#[derive(Clone, Copy, Debug, PartialEq, Eq)]
pub struct Fault {
    pub refusal: Refusal,
    pub at: usize,
}

// Why a call is refused: what, in which file, and where.
#[derive(Clone, Copy, Debug, PartialEq, Eq)]
pub struct Refused {
    pub refusal: Refusal,
    pub file: File,
    pub at: usize,
}

// What a call that is not refused answers. Equivalent: rounds, nodes. Undecided: reason, index, rounds, nodes. Wrote: the length.
#[derive(Clone, Copy, Debug, PartialEq, Eq)]
pub enum Done {
    Equivalent(usize, usize),
    Undecided(Reason, usize, usize, usize),
    Wrote(usize),
}

pub type Answer = Result<Done, Refused>;

impl Fault {
    // A faulty file ends the call that reads it.
    pub fn in_file(self, file: File) -> Refused
        ensures { result ≡ refused_in self file }
    {
        let Fault { refusal, at } = self;
        Refused { refusal, file, at }
    }
}

// A match, here and below, and no discriminants, which are never equal: the edit numbers_exchanged gives two cases one number.
#[tactic(auto, unfolding(meaning::specs::Numbers::number_of, crate::specs::Meant::refusal_of))]
impl From<Refusal> for u8 {
    ghost from_gives = { λ k n. n ≡ number_of (refusal_of k) };

    fn from(k: Refusal) -> u8 {
        match k {
            Refusal::Short => 10,
            Refusal::Kind => 11,
            Refusal::Many => 12,
            Refusal::Value => 13,
            Refusal::Later => 14,
            Refusal::After => 15,
            Refusal::NoOutput => 16,
            Refusal::Dangling => 17,
            Refusal::Unlike => 18,
            Refusal::Count => 19,
            Refusal::Out => 20,
            Refusal::Vector => 21,
            Refusal::NoRoom => 22,
        }
    }
}

#[tactic(auto, unfolding(meaning::specs::Numbers::number_of_file, crate::specs::Meant::file_of))]
impl From<File> for u8 {
    ghost from_gives = { λ f n. n ≡ number_of_file (file_of f) };

    fn from(f: File) -> u8 {
        match f {
            File::A => 0,
            File::B => 1,
            File::Grouping => 2,
            File::Nothing => 3,
        }
    }
}

#[tactic(auto, unfolding(meaning::specs::Numbers::number_of_reason, crate::specs::Meant::reason_of))]
impl From<Reason> for u8 {
    ghost from_gives = { λ w n. n ≡ number_of_reason (reason_of w) };

    fn from(w: Reason) -> u8 {
        match w {
            Reason::Start => 1,
            Reason::Step => 2,
            Reason::Outputs => 3,
        }
    }
}
