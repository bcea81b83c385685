// The sheet writer, as a call on a sheet file.
ghost use Rattle.std.specs.Prelude.{◌≡◌, ◌+◌, ◌≤◌, ◌++◌, length, drop};
ghost use Rattle.meaning.specs.Sheet.{bytes_of_sheet};
ghost use Rattle.meaning.specs.Answer.{write_answer};
ghost use Rattle.sheet.specs.Stored.{sheet_of, Whole};
ghost use Rattle.sheet.specs.Writing.{bytes_of_record, Put, Called};

use crate::reader::read_sheet;
use crate::{Sheet, Signal, kind};
use answer::{Answer, Done, File, Refusal, Refused};

// How many bytes a sheet takes.
fn needed(s: &Sheet) -> usize
    requires { Whole s.now }
    ensures { result ≡ length (bytes_of_sheet (sheet_of s.now)) }
{
    let signals: usize = s.signals.iter().map(|x| 1 + x.kind.body()).sum();
    // an output takes three bytes, and END one
    3 * s.outputs.len() + 1 + signals
}

// Puts bytes at an offset, and gives the offset after them.
fn put(res: &mut [u8], at: usize, bytes: &[u8]) -> usize
    requires { at + length bytes.now ≤ length res.old }
    ensures { Put res.old at bytes.now res.new result }
{
    let end = at + bytes.len();
    res[at..end].copy_from_slice(bytes);
    end
}

// Puts a signal's record.
fn put_signal(res: &mut [u8], at: usize, x: Signal) -> usize
    requires { at + length (bytes_of_record x) ≤ length res.old }
    ensures { Put res.old at (bytes_of_record x) res.new result }
{
    let bytes = [u8::from(x.kind), x.a, x.b];
    put(res, at, &bytes[..1 + x.kind.body()])
}

// Puts a sheet at the beginning: signals, outputs, END.
fn put_sheet(s: &Sheet, res: &mut [u8])
    requires { Whole s.now × (length (bytes_of_sheet (sheet_of s.now)) ≤ length res.old) }
    ensures { res.new ≡ bytes_of_sheet (sheet_of s.now) ++ drop (length (bytes_of_sheet (sheet_of s.now))) res.old }
{
    let mut at = 0;
    for x in s.signals.iter() {
        at = put_signal(res, at, *x);
    }
    for o in s.outputs.iter() {
        at = put(res, at, &[kind::OUTPUT, o.pin, o.signal]);
    }
    res[at] = kind::END;
}

// Writes the sheet that a file says: the sheet, OUT.
pub fn write(file: &[u8], res: &mut [u8]) -> Answer
    ensures { Called (write_answer file.now (length res.old)) res.old res.new result }
{
    let s = read_sheet(file).map_err(|fault| fault.in_file(File::A))?;
    let n = needed(&s);
    if res.len() < n {
        return Err(Refused {
            refusal: Refusal::Out,
            file: File::Nothing,
            at: n,
        });
    }
    put_sheet(&s, res);
    Ok(Done::Wrote(n))
}
