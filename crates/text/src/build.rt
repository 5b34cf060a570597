// Builds: whether a text is one, and within how many levels; two readers that call each other.
ghost use Rattle.std.specs.Prelude.{◌≡◌, ℕ, ◌<◌, ◌≤◌, length, Ok, Err, Decides, MatchResult, ◌≢◌};
ghost use Rattle.text.specs.Reading.{closed, parts, reads, verdict};
ghost use Rattle.text.specs.declared.build.BuildFault.TheVariants.{TooDeep};
ghost use Rattle.theory.specs.Builds.{Build, IsBuild, Lawful, depth, text};

use crate::name::{is_name, split_name};

/// Why a text is not one build of so many levels at most.
#[derive(Clone, Copy, Debug, PartialEq, Eq)]
pub enum BuildFault {
    /// A name, a bracket or a comma is missing or wrong.
    Broken,
    /// A name stands below as many names as there are levels.
    TooDeep,
}

/// What is left behind the build that the bytes begin with.
#[cycle(read_build_read_parts)]
fn read_build(bytes: &[u8], levels: usize) -> Result<&[u8], BuildFault>
    ensures { MatchResult result (λ left. reads levels bytes.now ≡ Ok left.now) (λ fault. reads levels bytes.now ≡ Err fault) }
{
    let (name, rest) = split_name(bytes);
    if !is_name(name) {
        return Err(BuildFault::Broken);
    }
    let below = levels.checked_sub(1).ok_or(BuildFault::TooDeep)?;
    match rest {
        [b'(', inner @ ..] => read_parts(inner, below),
        _ => Ok(rest),
    }
}

/// What is left behind the close bracket of the parts that the bytes begin with.
#[cycle(read_build_read_parts)]
fn read_parts(bytes: &[u8], levels: usize) -> Result<&[u8], BuildFault>
    ensures { MatchResult result (λ left. parts (reads levels) bytes.now ≡ Ok left.now) (λ fault. parts (reads levels) bytes.now ≡ Err fault) }
{
    match read_build(bytes, levels)? {
        [b',', second @ ..] => read_close(read_build(second, levels)?),
        rest => read_close(rest),
    }
}

/// What is left behind a close bracket.
fn read_close(bytes: &[u8]) -> Result<&[u8], BuildFault>
    ensures { MatchResult result (λ left. closed bytes.now ≡ Ok left.now) (λ fault. closed bytes.now ≡ Err fault) }
{
    bytes.strip_prefix(b")").ok_or(BuildFault::Broken)
}

/// Reads the whole text as one build.
fn read_whole(bytes: &[u8], levels: usize) -> Result<(), BuildFault>
    ensures { result ≡ verdict (reads levels bytes.now) }
{
    if read_build(bytes, levels)?.is_empty() {
        Ok(())
    } else {
        Err(BuildFault::Broken)
    }
}

/// Grants a text that is one build of at most `levels` levels, and nothing else.
pub fn check_build(bytes: &[u8], levels: usize) -> Result<(), BuildFault>
    ensures value { result ≡ verdict (reads levels bytes.now) }
    ensures build { MatchResult result (λ _. IsBuild levels bytes.now) (λ _. IsBuild levels bytes.now → ⊥) }
    ensures granted { (u : Build) → Lawful u → depth u ≤ levels → text u ≡ bytes.now → result ≡ Ok tt }
    ensures deep { (u : Build) → Lawful u → levels < depth u → text u ≡ bytes.now → result ≡ Err TooDeep }
    ensures shallow { length bytes.now ≤ levels → result ≢ Err TooDeep }
{
    read_whole(bytes, levels)
}

/// Whether the text is a lawful build, however deep.
pub fn is_build(bytes: &[u8]) -> bool
    ensures { Decides result ((u : Build) × Lawful u × (text u ≡ bytes.now)) }
{
    check_build(bytes, bytes.len()).is_ok()
}

/// Whether the text is a lawful build of more than `levels` levels.
pub fn too_deep(bytes: &[u8], levels: usize) -> bool
    ensures { Decides result ((u : Build) × Lawful u × (text u ≡ bytes.now) × (levels < depth u)) }
{
    check_build(bytes, levels).is_err() && is_build(bytes)
}
