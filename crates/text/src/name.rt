// Names: whether bytes are one, and the name bytes that a text begins with.
ghost use Rattle.std.specs.Prelude.{◌≡◌, length, drop, Decides};
ghost use Rattle.theory.specs.Fronts.{name_run};
ghost use Rattle.theory.specs.Names.{IsName, name_byte};

use crate::scan::split_front;

/// The most bytes that a name has.
const LONGEST: usize = 12;

/// Whether the byte may stand in a name.
pub(crate) fn is_name_byte(b: u8) -> bool
    ensures { result ≡ name_byte b }
{
    b.is_ascii_lowercase() || b.is_ascii_digit() || b == b'-'
}

/// The name bytes that a text begins with, and what is left behind them.
pub(crate) fn split_name(text: &[u8]) -> (&[u8], &[u8])
    ensures name { result.0.now ≡ name_run text.now }
    ensures rest { result.1.now ≡ drop (length result.0.now) text.now }
{
    split_front(text, |b| !is_name_byte(b))
}

/// Whether the bytes are a lawful name.
pub fn is_name(bytes: &[u8]) -> bool
    ensures { Decides result (IsName bytes.now) }
{
    bytes.len() <= LONGEST
        && bytes.first().is_some_and(|b| b.is_ascii_lowercase())
        && bytes.iter().all(|b| is_name_byte(*b))
}
