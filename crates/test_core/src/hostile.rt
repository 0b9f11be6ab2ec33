//! Scripts of every length, and devices that fail.
use crate::devices::{Faltering, Narrow, Refusing};
use crate::scripts::{End, at, gives};
use chanrun::device::FromStd;
use chanrun::grammar::Fault;
use chanrun::script::{ScriptError, run_script};
use std::alloc::Global;
use std::process::Abort;
use std::test::Fail;

const SCRIPT: &str =
    "bounded 1\ntry_send s0 1\nclose s0\nclose r0\ntry_send s0 2\ntry_recv r0\ntry_recv r0\n";

const TEXT: &str = "ok\ntrue\nfalse\nclosed 2\nok 1\nclosed\n";

/// What is written for the script's first bytes, as many as this, and how they end. A line is done
/// if all its bytes but its end are there.
fn beginning(count: usize) -> (usize, End) {
    use Fault::*;
    match count {
        0..=6 => (0, at(1, ChannelMissing)),
        7 => (0, at(1, WrongWordCount)),
        8 => (0, at(1, BadNumber)),
        9 | 10 => (0, Ok(())),
        11..=17 => (0, at(2, UnknownCommand)),
        18..=21 => (0, at(2, WrongWordCount)),
        22 => (0, at(2, BadNumber)),
        23 | 24 => (3, Ok(())),
        25..=28 => (3, at(3, UnknownCommand)),
        29 => (3, at(3, WrongWordCount)),
        30 | 31 => (3, at(3, BadName)),
        32 | 33 => (8, Ok(())),
        34..=37 => (8, at(4, UnknownCommand)),
        38 => (8, at(4, WrongWordCount)),
        39 | 40 => (8, at(4, BadName)),
        41 | 42 => (14, Ok(())),
        43..=49 => (14, at(5, UnknownCommand)),
        50..=53 => (14, at(5, WrongWordCount)),
        54 => (14, at(5, BadNumber)),
        55 | 56 => (23, Ok(())),
        57..=63 => (23, at(6, UnknownCommand)),
        64 => (23, at(6, WrongWordCount)),
        65 | 66 => (23, at(6, BadName)),
        67 | 68 => (28, Ok(())),
        69..=75 => (28, at(7, UnknownCommand)),
        76 => (28, at(7, WrongWordCount)),
        77 | 78 => (28, at(7, BadName)),
        _ => (35, Ok(())),
    }
}

#[test]
fn every_beginning_of_a_script(rt: HostRuntime) -> Result<(), Fail> {
    let alloc = rt.alloc();
    assert_eq!(rt; (SCRIPT.len(), TEXT.len()), (80, 35));
    for count in 0..=80 {
        println!(rt; "{count}")?;
        let (written, end) = beginning(count);
        let script = SCRIPT.as_bytes().get(..count).unwrap_or(&[]);
        let text = TEXT.as_bytes().get(..written).unwrap_or(&[]);
        gives(&rt, alloc, script, text, end);
    }
    Ok(())
}

fn narrow(rt: &impl Abort, alloc: Global, room: usize, then: Refusing) {
    let mut reader = FromStd::new(SCRIPT.as_bytes());
    let mut writer = FromStd::new(Narrow {
        written: Vec::new(alloc),
        room,
        then,
    });
    let given = run_script(alloc, &mut reader, &mut writer);
    let end = if room < TEXT.len() {
        Err(ScriptError::Write)
    } else {
        Ok(())
    };
    assert!(rt; given == end, "{given:?} in place of {end:?} at {room}");
    let text = TEXT.as_bytes().get(..room).unwrap_or(&[]);
    assert_eq!(rt; writer.into_inner().written.as_slice(), text);
}

#[test]
fn a_writer_that_fails(rt: HostRuntime) -> Result<(), Fail> {
    for room in 0..=35 {
        narrow(&rt, rt.alloc(), room, Refusing::Fails);
        narrow(&rt, rt.alloc(), room, Refusing::TakesNone);
    }
    Ok(())
}

#[test]
fn a_reader_that_fails(rt: HostRuntime) -> Result<(), Fail> {
    let alloc = rt.alloc();
    // 80 bytes are read in five calls, and the sixth meets the end
    for fails_at in [1, 2, 6] {
        let mut reader = FromStd::new(Faltering {
            rest: SCRIPT.as_bytes(),
            calls: 0,
            fails_at,
        });
        let mut writer = FromStd::new(Vec::new(alloc));
        let given = run_script(alloc, &mut reader, &mut writer);
        assert!(rt; given == Err(ScriptError::Read), "{given:?}");
        assert_eq!(rt; writer.into_inner().as_slice(), [].as_slice());
    }
    Ok(())
}

#[test]
fn the_longest_line(rt: HostRuntime) -> Result<(), Fail> {
    let alloc = rt.alloc();
    let mut script = String::from_str(alloc, "unbounded\n")?;
    for _ in 0..256u16 {
        script.push_str("x")?;
    }
    let end = at(2, Fault::UnknownCommand);
    gives(&rt, alloc, script.as_bytes(), &[], end);
    script.push_str("x")?;
    let end = at(2, Fault::LineTooLong);
    gives(&rt, alloc, script.as_bytes(), &[], end);
    Ok(())
}
