// The C face: the four calls on the bytes of files, with the numbers of the answer in a lent row.
#![tactic(auto)]

ghost use Rattle.std.specs.Prelude.{◌≡◌, length};
ghost use Rattle.meaning.specs.Room.{cleared};
ghost use Rattle.meaning.specs.Answer.{result_after, write_answer, run_answer, check_answer, refine_answer};
ghost use Rattle.answer.specs.Meant.{answer_of};
ghost use Rattle.yellopard.specs.Calls.{row_after, Told};

use answer::{Answer, Done, Refused};
use sheet::write;
use tick::run;
use yellopard::{check, refine};

// Numbers at the front of a row, as many as it has places for; how many there are.
#[tactic(auto, using(crate::proofs::Row::front_after))]
fn put(numbers: &[u64], row: &mut [u64]) -> usize
    ensures value { result ≡ length numbers.now }
    ensures row_after { row.new ≡ row_after numbers.now row.old }
{
    let places = numbers.len().min(row.len());
    row[..places].copy_from_slice(&numbers[..places]);
    numbers.len()
}

// The numbers of an answer, at the front of a row; how many the answer has. Casts, since there is no From<usize> for u64.
#[tactic(auto, unfolding(answer::specs::Meant::answer_of, answer::specs::Meant::done_of, meaning::specs::Answer::row_of))]
fn tell(answer: Answer, row: &mut [u64]) -> usize
    ensures { Told (answer_of answer) row.old row.new result }
{
    match answer {
        Ok(Done::Equivalent(rounds, nodes)) => put(&[0, 0, 0, rounds as u64, nodes as u64], row),
        Ok(Done::Undecided(why, i, rounds, nodes)) => {
            let reason = u64::from(u8::from(why));
            put(&[1, reason, i as u64, rounds as u64, nodes as u64], row)
        }
        Ok(Done::Wrote(length)) => put(&[length as u64], row),
        Err(Refused { refusal, file, at }) => {
            let what = u64::from(u8::from(refusal));
            let place = u64::from(u8::from(file));
            put(&[what, place, at as u64], row)
        }
    }
}

#[unsafe(no_mangle)]
pub extern "C" fn yellopard_write(a: &[u8], res: &mut [u8], row: &mut [u64]) -> usize
    ensures told { Told (write_answer a.now (length res.old)).answer row.old row.new result }
    ensures res_after { res.new ≡ result_after (write_answer a.now (length res.old)) res.old }
{
    tell(write(a, res), row)
}

#[unsafe(no_mangle)]
pub extern "C" fn yellopard_run(a: &[u8], vectors: &[u8], res: &mut [u16], row: &mut [u64]) -> usize
    ensures told { Told (run_answer a.now vectors.now (length res.old)).answer row.old row.new result }
    ensures res_after { res.new ≡ result_after (run_answer a.now vectors.now (length res.old)) res.old }
{
    tell(run(a, vectors, res), row)
}

#[unsafe(no_mangle)]
pub extern "C" fn yellopard_check(
    a: &[u8],
    b: &[u8],
    p: &[u8],
    table: &mut [u16],
    row: &mut [u64],
) -> usize
    ensures told { Told (check_answer a.now b.now p.now (length table.old)).answer row.old row.new result }
    ensures table_after { table.new ≡ cleared table.old }
{
    tell(check(table, a, b, p), row)
}

#[unsafe(no_mangle)]
pub extern "C" fn yellopard_refine(
    a: &[u8],
    b: &[u8],
    p: &[u8],
    table: &mut [u16],
    res: &mut [u8],
    row: &mut [u64],
) -> usize
    ensures told { Told (refine_answer a.now b.now p.now (length table.old) (length res.old)).answer row.old row.new result }
    ensures table_after { table.new ≡ cleared table.old }
    ensures res_after { res.new ≡ result_after (refine_answer a.now b.now p.now (length table.old) (length res.old)) res.old }
{
    tell(refine(table, a, b, p, res), row)
}
