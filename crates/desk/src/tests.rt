// The line of each kind of answer, as a report prints it and as it is put into lent bytes.
use crate::{Mode, Report, put_line};
use answer::{Answer, Done, File, Reason, Refusal, Refused};

#[test]
fn lines(rt: HostRuntime) {
    let undecided = Done::Undecided(Reason::Step, 4, 0, 26);
    let refused = Refused {
        refusal: Refusal::Short,
        file: File::B,
        at: usize::MAX,
    };
    let cases: [(Mode, Answer, &str); 4] = [
        (
            Mode::Refine,
            Ok(Done::Equivalent(0, 15)),
            "refine EQUIVALENT 0 0 0 15\n",
        ),
        (Mode::Check, Ok(undecided), "check UNDECIDED 2 4 0 26\n"),
        (Mode::Check, Ok(Done::Wrote(409)), "wrote 409\n"),
        (
            Mode::Refine,
            Err(refused),
            "refused 10 1 18446744073709551615\n",
        ),
    ];
    for (mode, answer, line) in cases {
        let report = Report { mode, answer };
        let shown = format!(in rt.alloc(); "{report}\n").expect(&rt, "out of memory");
        assert_eq!(rt; shown.as_str(), line);
        let mut text = [0u8; 128];
        let count = put_line(mode, answer, &mut text);
        assert_eq!(rt; &text[..count], line.as_bytes());
    }
}
