//! The statuses of the program, and its lines on standard error.
use crate::devices::{Faltering, Narrow, Refusing};
use chanrun::device::FromStd;
use chanrun::program::program;
use std::alloc::Global;
use std::process::Abort;

/// The status of the program, its output, and its line on standard error.
type End = (u8, &'static str, &'static str);

/// How many arguments there are; a script, and at which call its reader fails; and how many bytes of
/// the output and of the line may be written.
type Given = (Option<usize>, &'static str, usize, usize, usize);

const GOOD: &str = "unbounded\nlen s0\n";

const BAD: &str = "unbounded\nlen s0\nlen s\n";

const ROWS: [(Given, End); 10] = [
    ((Some(0), GOOD, 0, 99, 99), (0, "0\n", "")),
    ((Some(0), BAD, 0, 99, 99), (2, "0\n", "line 3: bad name\n")),
    ((Some(0), GOOD, 0, 1, 99), (1, "0", "writing failed\n")),
    ((Some(0), GOOD, 2, 99, 99), (1, "", "reading failed\n")),
    ((None, GOOD, 0, 99, 99), (1, "", "out of memory\n")),
    (
        (Some(1), GOOD, 0, 99, 99),
        (2, "", "chanrun takes no arguments\n"),
    ),
    // a failure there changes no status
    ((Some(0), BAD, 0, 99, 5), (2, "0\n", "line ")),
    ((Some(0), GOOD, 0, 1, 0), (1, "0", "")),
    ((None, GOOD, 0, 99, 0), (1, "", "")),
    ((Some(2), GOOD, 0, 99, 0), (2, "", "")),
];

/// A writer that takes so many bytes.
fn narrow(alloc: Global, room: usize) -> FromStd<Narrow> {
    FromStd::new(Narrow {
        written: Vec::new(alloc),
        room,
        then: Refusing::Fails,
    })
}

/// Runs the program, and looks at what comes of it.
fn ends(rt: &impl Abort, alloc: Global, given: Given, wanted: End) {
    let (arguments, text, fails_at, room, error_room) = given;
    let mut reader = FromStd::new(Faltering {
        rest: text.as_bytes(),
        calls: 0,
        fails_at,
    });
    let (mut writer, mut errors) = (narrow(alloc, room), narrow(alloc, error_room));
    let (wanted_status, text, line) = wanted;
    let status = program(alloc, arguments, &mut reader, &mut writer, &mut errors);
    assert_eq!(rt; status, wanted_status);
    let (written, said) = (writer.into_inner().written, errors.into_inner().written);
    assert!(rt; written.as_slice() == text.as_bytes(), "another text");
    assert!(rt; said.as_slice() == line.as_bytes(), "another line");
}

#[test]
fn statuses_of_the_program(rt: HostRuntime) {
    for (given, wanted) in ROWS {
        ends(&rt, rt.alloc(), given, wanted);
    }
}
