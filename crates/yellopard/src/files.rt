// The files of a call: two sheets that are alike, with their polarities, and a grouping of their joint list.
ghost use Rattle.std.specs.Prelude.{◌≡◌, map, take, length};
ghost use Rattle.std.specs.Int.{from_bool};
ghost use Rattle.work.specs.Lists.{Alike};
ghost use Rattle.yellopard.specs.Calls.{Prepared, FilesSay, PairAsks, unlike_at};

use answer::{File, Refusal, Refused};
use classes::read_classes;
use sheet::{Sheet, read_sheet};
use tick::{initial, values};
use work::Pair;

// Two sheets that are alike, with their polarities, and the class of each of their joint signals, in the first places of an array: an
// ArrayVec would first be filled with zeros and cut, as the classes are read into places.
#[derive(Clone, Copy)]
pub struct Files {
    pub pair: Pair,
    pub signals: usize,
    pub classes: [u16; Sheet::JOINT],
}

impl Files {
    // What the grouping says of each joint signal.
    pub fn proposal(&self) -> &[u16]
        requires { Prepared self.now }
        ensures { result.now ≡ take self.now.signals self.now.classes }
    {
        &self.classes[..self.signals]
    }
}

// The bytes of some values: 1 for each that is true, else 0.
fn put_bytes(values: &[bool], bytes: &mut [u8])
    requires { length bytes.old ≡ length values.now }
    ensures { bytes.new ≡ map from_bool values.now }
{
    for (v, value) in values.iter().enumerate() {
        bytes[v] = u8::from(*value);
    }
}

// Two sheets with the polarity of each joint signal: its value at tick 0 with all inputs 0.
pub fn pair_of(a: Sheet, b: Sheet) -> Pair
    requires { PairAsks a b }
    ensures { Alike result × (result.a ≡ a) × (result.b ≡ b) }
{
    let in_a = values(&a, &initial(&a), 0);
    let in_b = values(&b, &initial(&b), 0);
    let first = a.signals.len();
    let second = b.signals.len();
    let mut plain = [0u8; Sheet::JOINT];
    put_bytes(&in_a[..first], &mut plain[..first]);
    put_bytes(&in_b[..second], &mut plain[first..first + second]);
    Pair { a, b, plain }
}

// UNLIKE: other inputs, or other outputs.
fn unlike(at: usize) -> Refused
    ensures { result ≡ unlike_at at }
{
    Refused {
        refusal: Refusal::Unlike,
        file: File::Nothing,
        at,
    }
}

// A, B, UNLIKE, grouping. The bytes of the three files come one by one, as C lends them.
pub fn read_files(a: &[u8], b: &[u8], p: &[u8]) -> Result<Files, Refused>
    ensures { FilesSay a.now b.now p.now result }
{
    let old = read_sheet(a).map_err(|fault| fault.in_file(File::A))?;
    let new = read_sheet(b).map_err(|fault| fault.in_file(File::B))?;
    if old.inputs != new.inputs {
        return Err(unlike(0));
    }
    if old.outputs.len() != new.outputs.len() {
        return Err(unlike(1));
    }
    let signals = old.signals.len() + new.signals.len();
    let mut classes = [0u16; Sheet::JOINT];
    read_classes(p, &mut classes[..signals]).map_err(|fault| fault.in_file(File::Grouping))?;
    let pair = pair_of(old, new);
    Ok(Files {
        pair,
        signals,
        classes,
    })
}
