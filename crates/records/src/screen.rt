// The line check, and the one call that the screen program, which is written in C, reaches.
ghost use Rattle.std.specs.Prelude.{IfErr, OnOk};
ghost use Rattle.records.specs.Faults.{Coded};
ghost use Rattle.records.specs.Judging.{Breaks, FirstBreak, Unbroken};
ghost use Rattle.records.specs.Verdicts.{OneVerdict};

use crate::record::Line;
use text::refusal::Refusal;

/// Whether a line is granted, and else the first refusal whose condition holds; places are from the line's first byte.
pub fn check_line(line: &[u8]) -> Result<(), Refusal>
    ensures granted { OnOk result (Unbroken (Breaks 0 line.now)) }
    ensures refused { IfErr result (FirstBreak (Breaks 0 line.now)) }
{
    let line = Line {
        bytes: line,
        start: 0,
    };
    line.read()?;
    Ok(())
}

/// For C: 65,536 times the refusal's number, plus its place from the line's first byte; 0 where the line is granted.
#[unsafe(no_mangle)]
pub extern "C" fn pairing_check_line(line: &[u8]) -> u32
    ensures { Coded line.now result }
{
    match check_line(line) {
        Ok(()) => 0,
        Err(refusal) => 65_536 * refusal.layer.number() as u32 + refusal.place as u32,
    }
}

/// A line has one verdict: it is not both granted and refused, nor refused in two ways.
pub fn one_verdict()
    ensures { OneVerdict }
{}
