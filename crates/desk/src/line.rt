// The line of an answer: mode, verdict, reason, index, rounds, nodes; or refused, number, file, position.
ghost use Rattle.std.specs.Prelude.{◌≡◌, ◌++◌, ◌*◌, ◌+◌, ◌≤◌, length, Some, Err};
ghost use Rattle.io.specs.Counts.{IsPrefixLen};
ghost use Rattle.arrayvec.specs.ArrayString.{array_string_len};
ghost use Rattle.answer.specs.Meant.{answer_of};
ghost use Rattle.std.specs.Fmt.{DisplaysOnOk};
ghost use Rattle.desk.specs.Line.{figures, name_of_mode, refused_text, text_of, line_of, Lined};

use answer::{Answer, Done, Refused};
use arrayvec::ArrayString;
use itoa::Buffer;
use std::fmt;

#[derive(Clone, Copy, Debug, PartialEq, Eq)]
pub enum Mode {
    Check,
    Refine,
}

impl Mode {
    pub fn name(self) -> &'static str
        ensures { result.now ≡ name_of_mode self }
    {
        match self {
            Mode::Check => "check",
            Mode::Refine => "refine",
        }
    }
}

impl fmt::Display for Mode {
    ghost output = { λ m. Some (name_of_mode m) };

    fn fmt<W: fmt::Write>(&self, f: &mut fmt::Formatter<W>) -> fmt::Result {
        f.write_str(self.name())
    }
}

// An answer as a program tells it, on one line.
#[derive(Clone, Copy, Debug, PartialEq, Eq)]
pub struct Report {
    pub mode: Mode,
    pub answer: Answer,
}

#[tactic(auto, using(crate::proofs::Text::equivalent_text, crate::proofs::Text::undecided_text, crate::proofs::Text::wrote_text, crate::proofs::Text::refused_anyhow), unfolding(answer::specs::Meant::answer_of, answer::specs::Meant::done_of))]
impl fmt::Display for Report {
    ghost output = { λ r. Some (text_of r.mode (answer_of r.answer)) };

    fn fmt<W: fmt::Write>(&self, f: &mut fmt::Formatter<W>) -> fmt::Result {
        let mode = self.mode;
        match self.answer {
            Ok(Done::Equivalent(rounds, nodes)) => {
                write!(f, "{mode} EQUIVALENT 0 0 {rounds} {nodes}")
            }
            Ok(Done::Undecided(why, i, rounds, nodes)) => {
                let reason = u8::from(why);
                write!(f, "{mode} UNDECIDED {reason} {i} {rounds} {nodes}")
            }
            Ok(Done::Wrote(length)) => write!(f, "wrote {length}"),
            Err(refused) => write_refused(refused, f),
        }
    }
}

// A function of its own, since a number that is passed by value keeps its range, as one read behind the reference does not.
#[tactic(auto, using(crate::proofs::Text::refusal_text), unfolding(answer::specs::Meant::answer_of, crate::specs::Line::refused_text, crate::specs::Line::text_of))]
fn write_refused<W: fmt::Write>(refused: Refused, f: &mut fmt::Formatter<W>) -> fmt::Result
    ensures { DisplaysOnOk W.write_str_gives f.old result (Some (refused_text refused)) f.new }
{
    let Refused { refusal, file, at } = refused;
    let what = u8::from(refusal);
    let place = u8::from(file);
    write!(f, "refused {what} {place} {at}")
}

// A space and a number in decimal, for each of the numbers; one of 64 bits has at most 20 digits.
#[tactic(auto, using(crate::proofs::Text::figures_more), unfolding(crate::specs::Line::figures))]
fn push_figures(numbers: &[u64], line: &mut ArrayString<128>)
    requires { array_string_len line.old + 21 * length numbers.now ≤ 128 }
    ensures bytes { line.new.bytes ≡ line.old.bytes ++ figures numbers.now }
    ensures len { array_string_len line.new ≤ array_string_len line.old + 21 * length numbers.now }
{
    let mut digits = Buffer::new();
    for n in numbers {
        line.push_str(" ");
        line.push_str(digits.format(*n));
    }
}

// What a `Report` writes. Casts, since there is no From<usize> for u64.
#[tactic(auto, unfolding(answer::specs::Meant::answer_of, answer::specs::Meant::done_of, meaning::specs::Answer::row_of, crate::specs::Line::words, crate::specs::Line::word_of_mode, crate::specs::Line::numbers, crate::specs::Line::text_of))]
fn push_answer(mode: Mode, answer: Answer, line: &mut ArrayString<128>)
    requires { array_string_len line.old ≡ 0 }
    ensures bytes { line.new.bytes ≡ text_of mode (answer_of answer) }
    ensures len { array_string_len line.new ≤ 101 }
{
    match answer {
        Ok(Done::Equivalent(rounds, nodes)) => {
            line.push_str(mode.name());
            line.push_str(" EQUIVALENT");
            push_figures(&[0, 0, rounds as u64, nodes as u64], line);
        }
        Ok(Done::Undecided(why, i, rounds, nodes)) => {
            line.push_str(mode.name());
            line.push_str(" UNDECIDED");
            let reason = u64::from(u8::from(why));
            push_figures(&[reason, i as u64, rounds as u64, nodes as u64], line);
        }
        Ok(Done::Wrote(length)) => {
            line.push_str("wrote");
            push_figures(&[length as u64], line);
        }
        Err(Refused { refusal, file, at }) => {
            line.push_str("refused");
            let what = u64::from(u8::from(refusal));
            let place = u64::from(u8::from(file));
            push_figures(&[what, place, at as u64], line);
        }
    }
}

// Puts the line at the start of the text, and answers its length: what the programs print. It cannot fail, as a `Report` can where its writer
// does, so it stays beside the Display and is not made of one.
#[tactic(auto, using(crate::proofs::Text::line_end, std::proofs::lemmas::Slice::overwrites))]
pub fn put_line(mode: Mode, answer: Answer, text: &mut [u8; 128]) -> usize
    ensures prefix_len { IsPrefixLen result text.new }
    ensures lined { Lined (line_of mode (answer_of answer)) text.old result text.new }
{
    let mut line = ArrayString::new();
    push_answer(mode, answer, &mut line);
    line.push_str("\n");
    let bytes = line.as_str().as_bytes();
    text[..bytes.len()].copy_from_slice(bytes);
    bytes.len()
}
