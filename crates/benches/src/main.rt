// The cases that are run and not proved: the limits, and files and runs of odd lengths. Each line names a case and gives the numbers of
// its answer: the length written, or number, file and position of a refusal.
#![tactic(auto)]

use answer::Answer;
use arrayvec::ArrayVec;
use desk::{Mode, Report};
use sheet::write;
use std::io;
use tick::run;

// The records that the sheets of the limits consist of.
const INPUT: &[u8] = b"\x01\x00";

const REGISTER: &[u8] = b"\x02\x00\x00";

const AND: &[u8] = b"\x04\x00\x00";

const OUTPUT: &[u8] = b"\x07\x00\x00";

const END: &[u8] = b"\x08";

// The bytes of the longest sheet, so a result with space for any.
const LONGEST: usize = 409;

// A line for a case. An answer of `write` or `run` is told without a mode.
fn show<R: Print>(rt: &R, name: &str, answer: Answer) -> io::Result<()> {
    let mode = Mode::Check;
    let report = Report { mode, answer };
    println!(rt; "{name}: {report}")
}

// A file written into a result.
fn written<R: Print>(rt: &R, name: &str, file: &[u8], res: &mut [u8]) -> io::Result<()> {
    show(rt, name, write(file, res))
}

// So many of each of the records, and END after them, written into a result with space for any sheet. The file takes no heap, so that no
// case ends for want of memory; a record that it has no room for is left out.
fn counted<R: Print>(rt: &R, name: &str, records: &[(usize, &[u8])]) -> io::Result<()> {
    let mut file: ArrayVec<u8, 512> = ArrayVec::new();
    for (times, record) in records {
        for _ in 0..*times {
            let _ = file.try_extend_from_slice(record);
        }
    }
    let _ = file.try_extend_from_slice(END);
    written(rt, name, &file, &mut [0; LONGEST])
}

fn limits<R: Print>(rt: &R) -> io::Result<()> {
    counted(rt, "8 inputs", &[(8, INPUT), (1, OUTPUT)])?;
    counted(rt, "9 inputs", &[(9, INPUT), (1, OUTPUT)])?;
    counted(rt, "12 registers", &[(12, REGISTER), (1, OUTPUT)])?;
    counted(rt, "13 registers", &[(13, REGISTER), (1, OUTPUT)])?;
    counted(rt, "120 signals", &[(1, REGISTER), (119, AND), (1, OUTPUT)])?;
    counted(rt, "121 signals", &[(1, REGISTER), (120, AND), (1, OUTPUT)])?;
    counted(rt, "16 outputs", &[(1, REGISTER), (16, OUTPUT)])?;
    counted(rt, "17 outputs", &[(1, REGISTER), (17, OUTPUT)])?;
    counted(
        rt,
        "the longest sheet",
        &[(1, REGISTER), (119, AND), (16, OUTPUT)],
    )
}

fn files<R: Print>(rt: &R) -> io::Result<()> {
    written(rt, "empty file", b"", &mut [0; LONGEST])?;
    written(rt, "END alone", b"\x08", &mut [0; LONGEST])?;
    written(rt, "half a record", b"\x01", &mut [0; LONGEST])?;
    written(
        rt,
        "END in the middle",
        b"\x02\x00\x00\x08\x07\x00\x00\x08",
        &mut [0; LONGEST],
    )?;
    written(
        rt,
        "no room for one byte",
        b"\x02\x00\x00\x07\x00\x00\x08",
        &mut [0; 6],
    )?;
    written(rt, "30,000 zero bytes", &[0; 30000], &mut [0; LONGEST])
}

// A run of the bench L into a result with space for 30,000 ticks.
fn ran<R: Print>(rt: &R, name: &str, vectors: &[u8]) -> io::Result<()> {
    let mut result = [0u16; 30000];
    show(
        rt,
        name,
        run(
            b"\x01\x00\x02\x00\x00\x07\x00\x01\x08",
            vectors,
            &mut result,
        ),
    )
}

fn runs<R: Print>(rt: &R) -> io::Result<()> {
    ran(rt, "no tick", b"")?;
    ran(rt, "30,000 ticks", &[0; 30000])?;
    ran(rt, "one number too few", &[0; 30001])?;
    ran(rt, "a bit beyond the inputs", b"\x01\x00\x02")
}

fn main(rt: HostRuntime) -> io::Result<()> {
    limits(&rt)?;
    files(&rt)?;
    runs(&rt)
}
