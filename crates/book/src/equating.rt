// Equating two nodes.
ghost use Rattle.std.specs.Prelude.{◌≡◌};
ghost use Rattle.theory.specs.Calls.{Equating};
ghost use Rattle.book.specs.Layout.{Relaid};
ghost use Rattle.book.specs.Held.{contents, state};
ghost use Rattle.book.specs.Answers.{equation_answer};

use crate::book::Book;
use crate::closing::{accept, unprice};
use crate::id::{EquationId, NodeId};
use crate::room::usable;
use crate::row::Equation;
use text::cause::{BookCause, Layer};

impl Book<'_> {
    /// Accepts that two nodes are equal, and answers the number of the equation.
    #[tactic(auto, using(crate::proofs::Booked::laid_left))]
    pub fn equate(&mut self, a: NodeId, b: NodeId) -> Result<EquationId, Layer>
        ensures answer { Equating (state self.old.table) a.0 b.0 (equation_answer result) (state self.new.table) }
        ensures laid { Relaid (contents self.old.table) (contents self.new.table) }
        ensures lent { self.new.table.rows.ghost_name ≡ self.old.table.rows.ghost_name }
    {
        let n = self.table.nodes;
        if a.0 >= n || b.0 >= n {
            return Err(BookCause::NoNode.into());
        }
        let at = self.table.equations;
        if at >= usable(self.table.rows.len()) {
            return Err(BookCause::EquationsFull.into());
        }
        let table = &mut self.table;
        let priced = table.priced;
        table.rows[at].equation = Equation {
            left: a.0 as u16,
            right: b.0 as u16,
        };
        // `0..`, since of this form a proof keeps what stands behind it
        let rows = &mut table.rows[0..n];
        accept(rows, a.0, b.0);
        unprice(rows, priced);
        table.equations = at + 1;
        table.priced = false;
        Ok(EquationId(at))
    }
}
