// The kinds of records that a sheet has: the number of each in a file, and those that define a signal.
ghost use Rattle.std.specs.Prelude.{◌≡◌};
ghost use Rattle.sheet.specs.Stored.{number_of_kind};

// Numbers and no enum: each is a byte of a file, a pattern where one is read.
pub const INPUT: u8 = 0x01;

pub const REGISTER: u8 = 0x02;

pub const NOT: u8 = 0x03;

pub const AND: u8 = 0x04;

pub const OR: u8 = 0x05;

pub const XOR: u8 = 0x06;

pub const OUTPUT: u8 = 0x07;

pub const END: u8 = 0x08;

// What defines a signal.
#[derive(Clone, Copy, Debug, PartialEq, Eq, Default)]
pub enum Kind {
    #[default]
    Input,
    Register,
    Not,
    And,
    Or,
    Xor,
}

impl From<Kind> for u8 {
    ghost from_gives = { λ kind n. n ≡ number_of_kind kind };

    fn from(kind: Kind) -> u8 {
        match kind {
            Kind::Input => INPUT,
            Kind::Register => REGISTER,
            Kind::Not => NOT,
            Kind::And => AND,
            Kind::Or => OR,
            Kind::Xor => XOR,
        }
    }
}
