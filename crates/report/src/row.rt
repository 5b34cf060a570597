// One printed row: fields parted by one space, ended by a line feed, or nothing at all.
ghost use Rattle.std.specs.Prelude.{◌≡◌, ◌+◌, ◌^◌, ◌<◌, ◌≤◌, ◌∷◌, ◌++◌, length, take, drop, MatchOption};
ghost use Rattle.report.specs.Rows.{texts, row, Written, Prints};

use text::cause::BookCause;

/// The length of the row of `fields`, or none where it is more than any buffer has.
// A loop: in a `try_fold` both checked sums would stand in a closure, and be no plainer.
fn measure(fields: &[&[u8]]) -> Option<usize>
    ensures { MatchOption result (2 ^ 64 ≤ length (row (texts fields.now))) (λ n. n ≡ length (row (texts fields.now))) }
{
    let mut len: usize = 0;
    for field in fields {
        len = len.checked_add(field.len())?.checked_add(1)?;
    }
    Some(len.max(1))
}

/// Writes `field` and one space at `at`.
fn put_field(out: &mut [u8], at: usize, field: &[u8])
    requires { at + length field.now < length out.old }
    ensures after { out.new ≡ take at out.old ++ (field.now ++ (32 ∷ drop (at + length field.now + 1) out.old)) }
{
    let end = at + field.len();
    out[at..end].copy_from_slice(field);
    out[end] = b' ';
}

/// Writes the row of `fields`, which is `len` bytes long, at the start of `out`.
// `at` is counted: a cursor over the lent bytes would hold the same place, and would be no plainer.
fn write_row(out: &mut [u8], fields: &[&[u8]], len: usize)
    requires measured { len ≡ length (row (texts fields.now)) }
    requires fits { len ≤ length out.old }
    ensures after { Written out.old out.new (row (texts fields.now)) }
{
    let mut at = 0;
    for field in fields {
        put_field(out, at, field);
        at += field.len() + 1;
    }
    out[len - 1] = b'\n';
}

/// Writes the row of `fields` at the start of `out` and gives its length, or writes nothing.
pub fn print_row(out: &mut [u8], fields: &[&[u8]]) -> Result<usize, BookCause>
    ensures { Prints out.old out.new (texts fields.now) result }
{
    let len = measure(fields).ok_or(BookCause::TooShort)?;
    if len > out.len() {
        return Err(BookCause::TooShort);
    }
    write_row(out, fields, len);
    Ok(len)
}
