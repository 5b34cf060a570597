// Words: values that a word names each, and the reading of such a word.
ghost use Rattle.std.specs.Prelude.{◌≡◌, ◌≢◌, ℕ, List, Contains, MatchOption};

/// A value that a word names.
pub trait Word: Copy + 'static {
    // The word of each value.
    ghost spelling: { Self → List ℕ };

    // All the values there are.
    ghost values: { List Self };

    /// All the values.
    fn all() -> &'static [Self]
        ensures { result.now ≡ values };

    /// The value's word.
    fn word(self) -> &'static [u8]
        ensures { result.now ≡ spelling self };

    // No value is left out.
    ghost complete: { (value : Self) → Contains values value };

    /// The value that a word names, if any.
    final fn of(bytes: &[u8]) -> Option<Self>
        ensures { MatchOption result ((value : Self) → bytes.now ≢ spelling value) (λ value. bytes.now ≡ spelling value) }
    {
        Self::all()
            .iter()
            .find(|value| value.word() == bytes)
            .copied()
    }
}
