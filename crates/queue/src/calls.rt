// The calls on a queue. They stand apart from its type: the file of a type with a ghost field may name nothing that names the type.
ghost use Rattle.std.specs.Prelude.{◌≡◌, Bool, length, MatchBool, MatchOption};
ghost use Rattle.queue.specs.Queues.{slice, held, has_room, Ordered, First, Same, Pushed, Popped};

use crate::sift::{sift_down, sift_up};
use crate::{Entry, Queue};
use price::rule::PriceRule;

impl<'a, C: Copy> Queue<'a, C> {
    /// An empty queue over a slice, in order for every rule.
    pub fn over(entries: &'a mut [Entry<C>]) -> Self
        ensures empty { result.count ≡ 0 }
        ensures same { slice result ≡ entries.old }
        ensures order { (below : C → C → Bool) → Ordered below result }
        ensures lent { result.entries.ghost_name ≡ entries.entry.ghost_name }
    {
        Queue { entries, count: 0 }
    }

    /// How many entries it holds.
    pub fn len(&self) -> usize
        ensures { result ≡ self.now.count }
    {
        self.count
    }

    /// Whether there is room for one entry more.
    pub fn has_room(&self) -> bool
        ensures { result ≡ has_room self.now }
    {
        self.count < self.entries.len()
    }

    /// Adds an entry, and says whether there was room for it, as a set's `insert` says whether it took what was given.
    pub fn push<R: PriceRule<Cost = C>>(&mut self, rule: &R, e: Entry<C>) -> bool
        ensures value { result ≡ has_room self.old }
        ensures after { MatchBool result (Pushed e self.old self.new) (Same self.old self.new) }
        ensures order { Ordered R.below self.old → Ordered R.below self.new }
        ensures room { length (slice self.new) ≡ length (slice self.old) }
        ensures lent { self.new.entries.ghost_name ≡ self.old.entries.ghost_name }
    {
        if !self.has_room() {
            return false;
        }
        let n = self.count;
        self.entries[n] = e;
        self.count = n + 1;
        sift_up(rule, &mut self.entries[0..n + 1]);
        true
    }

    /// Takes out an entry that no other goes before; none where nothing is held.
    pub fn pop<R: PriceRule<Cost = C>>(&mut self, rule: &R) -> Option<Entry<C>>
        ensures after { MatchOption result ((self.old.count ≡ 0) × Same self.old self.new) (λ x. Popped x self.old self.new) }
        ensures first { Ordered R.below self.old → MatchOption result (self.old.count ≡ 0) (λ x. First R.below x (held self.old)) }
        ensures order { Ordered R.below self.old → Ordered R.below self.new }
        ensures room { length (slice self.new) ≡ length (slice self.old) }
        ensures lent { self.new.entries.ghost_name ≡ self.old.entries.ghost_name }
    {
        let n = self.count.checked_sub(1)?;
        // A rule of the project: entries are read field by field and written whole.
        let top = Entry {
            cost: self.entries[0].cost,
            node: self.entries[0].node,
        };
        self.entries.swap(0, n);
        self.count = n;
        sift_down(rule, &mut self.entries[0..n]);
        Some(top)
    }
}
