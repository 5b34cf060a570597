// Naming: from bytes to a symbol.
ghost use Rattle.std.specs.Prelude.{◌≡◌, ◌≤◌, length, position, take};
ghost use Rattle.std.specs.Str.{bytes_eq};
ghost use Rattle.theory.specs.Calls.{Naming};
ghost use Rattle.book.specs.Invariant.{Padded};
ghost use Rattle.book.specs.Layout.{Relaid};
ghost use Rattle.book.specs.Held.{contents, state};
ghost use Rattle.book.specs.Answers.{symbol_answer};

use crate::book::Book;
use crate::id::Symbol;
use crate::room::usable;
use text::cause::{BookCause, FieldCause, Layer};
use text::name::is_name;

// the bytes of a name, and then zeros
fn padded(bytes: &[u8]) -> [u8; 12]
    requires { length bytes.now ≤ 12 }
    ensures { Padded result bytes.now }
{
    let mut out = [0; 12];
    out[..bytes.len()].copy_from_slice(bytes);
    out
}

impl Book<'_> {
    // the symbol of that name, if there is one
    fn look(&self, title: [u8; 12]) -> Option<usize>
        ensures { result ≡ position (λ r. bytes_eq r.name title) (take self.now.table.names self.now.table.rows.now) }
    {
        self.table.rows[..self.table.names]
            .iter()
            .position(|row| row.name == title)
    }

    /// The symbol of a name: the known one, or else the next.
    #[tactic(auto, using(crate::proofs::Booked::laid_left))]
    pub fn name(&mut self, bytes: &[u8]) -> Result<Symbol, Layer>
        ensures answer { Naming (state self.old.table) bytes.now (symbol_answer result) (state self.new.table) }
        ensures laid { Relaid (contents self.old.table) (contents self.new.table) }
        ensures lent { self.new.table.rows.ghost_name ≡ self.old.table.rows.ghost_name }
    {
        if !is_name(bytes) {
            return Err(FieldCause::Broken.into());
        }
        let title = padded(bytes);
        if let Some(i) = self.look(title) {
            return Ok(Symbol(i));
        }
        let n = self.table.names;
        if n >= usable(self.table.rows.len()) {
            return Err(BookCause::NamesFull.into());
        }
        let table = &mut self.table;
        table.rows[n].name = title;
        table.names = n + 1;
        Ok(Symbol(n))
    }
}
