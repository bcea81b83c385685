// Groupings: read as exactly n class numbers, and written.
#![tactic(auto)]

ghost use Rattle.std.specs.Prelude.{◌≡◌, ◌++◌, ℕ, ◌+◌, ◌*◌, ◌^◌, ◌<◌, ◌≤◌, length, get_or, set, drop};
ghost use Rattle.meaning.specs.Numbers.{CLASS};
ghost use Rattle.meaning.specs.Sheet.{bytes_of_classes};
ghost use Rattle.classes.specs.Grouping.{classes_in, Judged, Grouped};

use answer::{Fault, Refusal};

// Numbers and no enum: each is a byte of a file, and a pattern below.
const END: u8 = 0x08;

const CLASS: u8 = 0x11;

// Whether a file is a grouping of n signals. Nothing is stored, so a file may have any number of records. A CLASS record has two
// bytes, and END has one. KIND, SHORT; at END AFTER, COUNT.
#[tactic(auto, using(crate::proofs::Judging::judged_end, crate::proofs::Judging::judged_short, crate::proofs::Judging::judged_after, crate::proofs::Judging::judged_count, crate::proofs::Judging::judged_kind, crate::proofs::Judging::judged_good))]
fn judge(file: &[u8], n: usize) -> Result<(), Fault>
    ensures { Judged n file.now result }
{
    for (count, chunk) in file.chunks(2).enumerate() {
        let at = 2 * count;
        match chunk {
            [CLASS, _] => {}
            [CLASS] => return Err(Fault {
                refusal: Refusal::Short,
                at,
            }),
            [END, _] => return Err(Fault {
                refusal: Refusal::After,
                at: at + 1,
            }),
            [END] if count != n => return Err(Fault {
                refusal: Refusal::Count,
                at,
            }),
            [END] => return Ok(()),
            _ => return Err(Fault {
                refusal: Refusal::Kind,
                at,
            }),
        }
    }
    Err(Fault {
        refusal: Refusal::Short,
        at: file.len(),
    })
}

// The class numbers of a good file, in order.
#[tactic(auto, using(crate::proofs::Filling::classes_more), unfolding(crate::specs::Grouping::classes_in))]
fn store(file: &[u8], classes: &mut [u16])
    requires { 2 * length classes.old < length file.now }
    ensures { classes.new ≡ classes_in file.now (length classes.old) }
{
    for i in 0..classes.len() {
        classes[i] = u16::from(file[2 * i + 1]);
    }
}

// The grouping of as many signals as `classes` has, or what is wrong with the file.
pub fn read_classes(file: &[u8], classes: &mut [u16]) -> Result<(), Fault>
    ensures { Grouped file.now classes.old result classes.new }
{
    judge(file, classes.len())?;
    store(file, classes);
    Ok(())
}

// One CLASS record at an offset.
fn put_class(class: u16, at: usize, res: &mut [u8])
    requires { (class < 256) × (at + 1 < length res.old) }
    ensures { res.new ≡ set (set res.old at CLASS) (at + 1) class }
{
    res[at] = CLASS;
    // A cast: it fits, and a TryFrom would bring an error that never comes.
    res[at + 1] = class as u8;
}

// The file of a grouping: a CLASS record for each class, then END.
#[tactic(auto, using(crate::proofs::Filling::written_none, crate::proofs::Filling::written_more, crate::proofs::Filling::written_all))]
pub fn write_classes(classes: &[u16], res: &mut [u8])
    requires by_index { (i : ℕ) → i < length classes.now → get_or classes.now i 0 < 256 }
    requires classes_in_bounds { 2 * length classes.now + 1 ≤ length res.old }
    ensures { res.new ≡ bytes_of_classes classes.now ++ drop (2 * length classes.now + 1) res.old }
{
    for (i, class) in classes.iter().enumerate() {
        put_class(*class, 2 * i, res);
    }
    res[2 * classes.len()] = END;
}
