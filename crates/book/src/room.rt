// How many of the rows lent a book may use.
ghost use Rattle.std.specs.Prelude.{◌≡◌, min};

// how many at most, as the layout promises
pub(crate) const MOST: usize = 1024;

pub(crate) fn usable(rows: usize) -> usize
    ensures { result ≡ min rows 1024 }
{
    rows.min(MOST)
}
