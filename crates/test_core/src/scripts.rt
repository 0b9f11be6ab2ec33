//! Scripts over memory: what is written, and how they end.
use crate::devices::OneByte;
use chanrun::device::FromStd;
use chanrun::grammar::Fault;
use chanrun::script::{ScriptError, run_script};
use std::alloc::Global;
use std::process::Abort;
use std::test::Fail;

/// How a script ends.
pub type End = Result<(), ScriptError>;

/// Sees that a script ended so, and that this was written.
fn see(rt: &impl Abort, given: End, written: &[u8], text: &[u8], end: &End) {
    assert!(rt; given == *end, "{given:?} in place of {end:?}");
    assert!(rt; written == text, "another text was written");
}

/// Runs a script over memory, and again with devices that pass one byte a call.
pub fn gives(rt: &impl Abort, alloc: Global, script: &[u8], text: &[u8], end: End) {
    let mut writer = FromStd::new(Vec::new(alloc));
    let given = run_script(alloc, &mut FromStd::new(script), &mut writer);
    see(rt, given, writer.into_inner().as_slice(), text, &end);

    let mut writer = OneByte(FromStd::new(Vec::new(alloc)));
    let given = run_script(alloc, &mut OneByte(FromStd::new(script)), &mut writer);
    let OneByte(device) = writer;
    see(rt, given, device.into_inner().as_slice(), text, &end);
}

/// A fault in a line.
pub fn at(line: u64, fault: Fault) -> End {
    Err(ScriptError::Fault { line, fault })
}

#[test]
fn ends_of_scripts(rt: HostRuntime) -> Result<(), Fail> {
    use Fault::*;
    let alloc = rt.alloc();
    let examples: [(&str, &str, End); 18] = [
        // script with capacity zero
        ("bounded 0", "", at(1, CapacityZero)),
        // a cut script
        (
            "unbounded\ntry_send s0 5\ntry_re",
            "ok\n",
            at(3, UnknownCommand),
        ),
        // empty input
        ("", "", at(1, ChannelMissing)),
        // the largest message, and one too large
        (
            "unbounded\ntry_send s0 18446744073709551615\ntry_send s0 18446744073709551616\n",
            "ok\n",
            at(3, BadNumber),
        ),
        // the ends of single lines
        ("unbounded\n", "", Ok(())),
        ("bounded 2\ncapacity r0\n", "some 2\n", Ok(())),
        ("bounded 02\n", "", at(1, BadNumber)),
        ("bounded\n", "", at(1, WrongWordCount)),
        ("bounded 1000001\n", "", at(1, CapacityTooLarge)),
        ("bounded 1000000\ncapacity s0\n", "some 1000000\n", Ok(())),
        ("unbounded\n\n", "", at(2, UnknownCommand)),
        ("unbounded\nlen  s0\n", "", at(2, WrongWordCount)),
        ("unbounded\nlen s0\nlen x0\n", "0\n", at(3, BadName)),
        ("unbounded\nclone s0 r1\n", "", at(2, BadName)),
        ("unbounded\ntry_recv r0\r\n", "", at(2, BadName)),
        ("unbounded\nunbounded\n", "", at(2, UnknownCommand)),
        // the first words of the first line
        ("\n", "", at(1, ChannelMissing)),
        ("unbounded 1\n", "", at(1, WrongWordCount)),
    ];
    for (script, text, end) in examples {
        println!(rt; "{script:?}")?;
        gives(&rt, alloc, script.as_bytes(), text.as_bytes(), end);
    }
    Ok(())
}
