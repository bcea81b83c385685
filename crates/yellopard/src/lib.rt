// The calls check and refine on the bytes of files. (The calls write and run are `sheet::write` and `tick::run`.)
#![tactic(auto)]

ghost use Rattle.std.specs.Prelude.{◌≡◌};
ghost use Rattle.yellopard.specs.Calls.{CheckedFiles, RefinedFiles, Checked, Refined};

mod files;

use answer::{Answer, File, Refusal, Refused};
use classes::write_classes;
use correspond::{check_pair, refine_pair};
use diagram::words::clear;
use files::read_files;
use sheet::Sheet;

// A, B, UNLIKE, grouping, then start room, START, step room, STEP, outputs.
#[tactic(auto, using(crate::proofs::Calling::checked_ended, crate::proofs::Calling::checked_pair))]
fn check_files(t: &mut [u16], a: &[u8], b: &[u8], p: &[u8]) -> Answer
    ensures { CheckedFiles a.now b.now p.now t.old t.new result }
{
    let files = read_files(a, b, p)?;
    check_pair(t, &files.pair, files.proposal())
}

// The table comes back zeroed, whatever is answered.
pub fn check(t: &mut [u16], a: &[u8], b: &[u8], p: &[u8]) -> Answer
    ensures { Checked a.now b.now p.now t.old t.new result }
{
    let answer = check_files(t, a, b, p);
    clear(t);
    answer
}

// A, B, UNLIKE, grouping, OUT, then start room, step room of T_0 to T_r, outputs. T_r is written unless the call is refused.
#[tactic(auto, using(crate::proofs::Calling::prepared_few, crate::proofs::Calling::prepared_places))]
fn refine_files(t: &mut [u16], a: &[u8], b: &[u8], p: &[u8], res: &mut [u8]) -> Answer
    ensures { RefinedFiles a.now b.now p.now t.old t.new res.old res.new result }
{
    let files = read_files(a, b, p)?;
    let n = files.signals;
    let needed = 2 * n + 1;
    if res.len() < needed {
        return Err(Refused {
            refusal: Refusal::Out,
            file: File::Nothing,
            at: needed,
        });
    }
    let mut g = [0u16; Sheet::JOINT];
    let g = &mut g[..n];
    let done = refine_pair(t, &files.pair, files.proposal(), g)?;
    write_classes(g, res);
    Ok(done)
}

// The table comes back zeroed, whatever is answered. Three lines as in `check`: a function of both would take a contract longer than they
// are.
pub fn refine(t: &mut [u16], a: &[u8], b: &[u8], p: &[u8], res: &mut [u8]) -> Answer
    ensures { Refined a.now b.now p.now t.old t.new res.old res.new result }
{
    let answer = refine_files(t, a, b, p, res);
    clear(t);
    answer
}
