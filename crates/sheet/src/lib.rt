// Sheets: the type with its limits.
#![tactic(auto)]

ghost use Rattle.std.specs.Prelude.{◌≡◌};
ghost use Rattle.sheet.specs.Stored.{empty_sheet};

mod few;
pub mod kind;
mod reader;
mod record;
mod writer;

pub use few::{Blank, Few};
pub use kind::Kind;
pub use reader::read_sheet;
pub use writer::write;

// The record that all parts share: the kind and the body of a signal's record; b is 0 where the body has one byte. One struct for all kinds,
// a form that the yard asked for by name, and no enum with the values of each: `signal_of` and `Right` hold what each kind reads.
#[derive(Clone, Copy, Debug, PartialEq, Eq, Default)]
pub struct Signal {
    pub kind: Kind,
    pub a: u8,
    pub b: u8,
}

#[derive(Clone, Copy, Debug, PartialEq, Eq, Default)]
pub struct Output {
    pub pin: u8,
    pub signal: u8,
}

impl Blank for Signal {
    ghost use Rattle.sheet.specs.Stored.{no_signal};

    ghost blank = { no_signal };

    fn blank() -> Self {
        Self {
            kind: Kind::Input,
            a: 0,
            b: 0,
        }
    }
}

impl Blank for Output {
    ghost use Rattle.sheet.specs.Stored.{no_output};

    ghost blank = { no_output };

    fn blank() -> Self {
        Self { pin: 0, signal: 0 }
    }
}

// The signals and the outputs, in file order, and how many of the signals are inputs and registers. A Few takes no heap.
// That a sheet is whole stays a clause: what was read of a file so far is stored in one too.
#[derive(Clone, Copy)]
pub struct Sheet {
    pub signals: Few<Signal, { Sheet::SIGNALS }>,
    pub outputs: Few<Output, { Sheet::OUTPUTS }>,
    pub inputs: usize,
    pub registers: usize,
}

impl Sheet {
    pub const INPUTS: usize = 8;

    pub const REGISTERS: usize = 12;

    pub const SIGNALS: usize = 120;

    pub const OUTPUTS: usize = 16;

    // the most records that name a signal which may be a later one
    pub const NAMES: usize = Sheet::REGISTERS + Sheet::OUTPUTS;

    // the longest joint list, and the longest accepted file
    pub const JOINT: usize = 2 * Sheet::SIGNALS;

    pub const BYTES: usize = 3 * (Sheet::SIGNALS + Sheet::OUTPUTS) + 1;

    pub fn empty() -> Self
        ensures { result ≡ empty_sheet }
    {
        Self {
            signals: Few::new(),
            outputs: Few::new(),
            inputs: 0,
            registers: 0,
        }
    }
}
