// Checks the grouping p.classes of the boards a.sheet and b.sheet, in the folder where it is started, and prints the answer's line.
#![tactic(auto)]

use desk::{FILE, Mode, TABLE, print_answer, read_file};
use std::io;
use yellopard::check;

// The other program reads and prints alike. A function of both would be public in `desk`, and no contract can say what it reads and prints.
fn main(rt: HostRuntime) -> io::Result<()> {
    let mut a = [0u8; FILE];
    let mut b = [0u8; FILE];
    let mut p = [0u8; FILE];
    let in_a = read_file(&rt, b"a.sheet", &mut a);
    let in_b = read_file(&rt, b"b.sheet", &mut b);
    let in_p = read_file(&rt, b"p.classes", &mut p);
    let mut table = [0u16; TABLE];
    let answer = check(&mut table, &a[..in_a], &b[..in_b], &p[..in_p]);
    print_answer(&rt, Mode::Check, answer)
}
