// The sheet reader.
ghost use Rattle.std.specs.Prelude.{◌≡◌, ◌<◌, ◌≤◌};
ghost use Rattle.arrayvec.specs.ArrayVec.{array_vec_len};
ghost use Rattle.meaning.specs.Numbers.{max_inputs, max_registers, max_signals, max_outputs};
ghost use Rattle.sheet.specs.Reading.{Reads};
ghost use Rattle.sheet.specs.Record.{CanAdd};
ghost use Rattle.sheet.specs.Part.{sheet_with_signal, sheet_with_output, part_with_name, empty_part, max_names, KeptPart, Added, Ended};

use crate::record::{Record, one_record};
use crate::{Kind, Output, Sheet, Signal};
use answer::{Fault, Refusal};
use arrayvec::ArrayVec;

// A REGISTER or OUTPUT record: its offset, and the signal that it names.
#[derive(Clone, Copy, Default)]
struct Name {
    at: usize,
    signal: u8,
}

// What has been read so far: the sheet, and the records that name a signal, in file order.
#[derive(Drop)]
struct Part {
    sheet: Sheet,
    naming: ArrayVec<Name, { Sheet::NAMES }>,
}

impl Sheet {
    fn push_signal(&mut self, x: Signal)
        requires { (array_vec_len self.old.signals < max_signals) × (self.old.inputs ≤ max_inputs) × (self.old.registers ≤ max_registers) }
        ensures { self.new ≡ sheet_with_signal self.old x }
    {
        self.signals.push(x);
        match x.kind {
            Kind::Input => self.inputs += 1,
            Kind::Register => self.registers += 1,
            Kind::Not | Kind::And | Kind::Or | Kind::Xor => (),
        }
    }

    // Not one with push_signal: it fills another field, and counts no kinds.
    fn push_output(&mut self, o: Output)
        requires { array_vec_len self.old.outputs < max_outputs }
        ensures { self.new ≡ sheet_with_output self.old o }
    {
        self.outputs.push(o);
    }
}

impl Part {
    fn empty() -> Self
        ensures { result ≡ empty_part }
    {
        Self {
            sheet: Sheet::empty(),
            naming: ArrayVec::new(),
        }
    }

    // A record at this offset names a signal, which may be a later one.
    fn push_name(&mut self, at: usize, signal: u8)
        requires { array_vec_len self.old.naming < max_names }
        ensures { self.new ≡ part_with_name self.old self.old.sheet at signal }
    {
        self.naming.push(Name { at, signal });
    }

    // One more record, read at this offset.
    fn add(&mut self, at: usize, next: Record)
        requires { KeptPart self.old × CanAdd self.old.sheet next }
        ensures { Added self.old at next self.new }
    {
        match next {
            Record::Signal(x) => {
                self.sheet.push_signal(x);
                if x.kind == Kind::Register {
                    self.push_name(at, x.b);
                }
            }
            Record::Output(o) => {
                self.sheet.push_output(o);
                self.push_name(at, o.signal);
            }
            Record::End => (),
        }
    }

    // END at an offset of a file of so many bytes: AFTER, NO OUTPUT, DANGLING.
    fn ended(self, at: usize, length: usize) -> Result<Sheet, Fault>
        requires { KeptPart self × (at < length) }
        ensures { Ended self at length result }
    {
        let after = at + 1;
        if after < length {
            return Err(Fault {
                refusal: Refusal::After,
                at: after,
            });
        }
        if self.sheet.outputs.is_empty() {
            return Err(Fault {
                refusal: Refusal::NoOutput,
                at,
            });
        }
        for name in self.naming.iter() {
            if self.sheet.signals.len() <= usize::from(name.signal) {
                return Err(Fault {
                    refusal: Refusal::Dangling,
                    at: name.at,
                });
            }
        }
        Ok(self.sheet)
    }
}

// The sheet that a file says, or what is wrong with the file and where.
pub fn read_sheet(file: &[u8]) -> Result<Sheet, Fault>
    ensures { Reads file.now result }
{
    let mut part = Part::empty();
    let mut at = 0;
    // A while: the step is a record's length, so no range counts it.
    while at < file.len() {
        let record = one_record(&file[at..], &part.sheet).map_err(|refusal| Fault { refusal, at })?;
        if let Record::End = record {
            return part.ended(at, file.len());
        }
        part.add(at, record);
        at += record.len();
    }
    Err(Fault {
        refusal: Refusal::Short,
        at,
    })
}
