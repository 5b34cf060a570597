// Scanning: the stretch of bytes from a place to the next that a test stops at.
ghost use Rattle.std.specs.Prelude.{◌≡◌, ℕ, Bool, length, drop};
ghost use Rattle.text.specs.Scanning.{Computes, stops, front};

use crate::name::is_name_byte;

/// What a stretch of bytes ends before.
#[derive(Clone, Copy, Debug, PartialEq, Eq)]
pub enum Stop {
    Tab,
    Feed,
    TabOrFeed,
    NameEnd,
}

impl Stop {
    /// Whether a byte stops a stretch.
    fn at(self, b: u8) -> bool
        ensures { result ≡ stops self b }
    {
        match self {
            Stop::Tab => b == b'\t',
            Stop::Feed => b == b'\n',
            Stop::TabOrFeed => b == b'\t' || b == b'\n',
            Stop::NameEnd => !is_name_byte(b),
        }
    }
}

/// The bytes before the first that `stops` stops at, and the bytes from it on.
pub(crate) fn split_front<F: Fn(u8) -> bool>(bytes: &[u8], stops: F) -> (&[u8], &[u8])
    requires { F.IsAlwaysCallable stops }
    ensures front { (p : ℕ → Bool) → Computes (F.post stops) p → result.0.now ≡ front p bytes.now }
    ensures rest { result.1.now ≡ drop (length result.0.now) bytes.now }
{
    let end = bytes.iter().position(|b| stops(*b)).unwrap_or(bytes.len());
    bytes.split_at(end)
}

/// The stretch of bytes from a place on; nothing past the end.
pub fn stretch_at<'a>(bytes: &'a [u8], at: usize, stop: Stop) -> &'a [u8]
    ensures { result.now ≡ front (stops stop) (drop at bytes.now) }
{
    stretch_until(bytes, at, |b| stop.at(b))
}

/// The stretch of bytes from a place to the next that `stops` stops at; nothing past the end.
// The `requires` is what any call of a closure asks; `stops` is a test of a byte, which each caller writes out.
pub fn stretch_until<F: Fn(u8) -> bool>(bytes: &[u8], at: usize, stops: F) -> &[u8]
    requires { F.IsAlwaysCallable stops }
    ensures { (p : ℕ → Bool) → Computes (F.post stops) p → result.now ≡ front p (drop at bytes.now) }
{
    split_front(bytes.get(at..).unwrap_or(&[]), stops).0
}
