// The line check for C, as a static library: the call of `records` under its own name, with the same promise.
#![tactic(auto)]

ghost use Rattle.records.specs.Faults.{Coded};

use records::screen;

// Again, since a crate is a library or a static library, and `records` is a library to the other crates.
/// For C: 65,536 times the refusal's number, plus its place from the line's first byte; 0 where the line is granted.
#[unsafe(no_mangle)]
pub extern "C" fn pairing_check_line(line: &[u8]) -> u32
    ensures { Coded line.now result }
{
    screen::pairing_check_line(line)
}
