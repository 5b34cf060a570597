// Queues of numbers and of pairs, filled and emptied.
ghost use Rattle.std.specs.Prelude.{◌≡◌, true, [], ◌∷◌, take};
ghost use Rattle.std.specs.List.Sorted.{IsPermutation};

use crate::shown::Shown;
use price::rule::{PriceRule, STOP};
use price::steps::Steps;
use price::stock::{Shortage, Stock};
use queue::{Entry, Queue};

// Pushes the entries in the order given, and takes out as many as `out` has room for.
fn drain<R: PriceRule>(
    rule: &R,
    given: &[Entry<R::Cost>],
    room: &mut [Entry<R::Cost>],
    out: &mut [Option<Entry<R::Cost>>],
) {
    let mut queue = Queue::over(room);
    for e in given {
        queue.push(rule, *e);
    }
    for came in out.iter_mut() {
        *came = queue.pop(rule);
    }
}

// The lender of the slice finds in it what the queue held last.
fn kept<R: PriceRule>(rule: &R, room: &mut [Entry<R::Cost>], e: Entry<R::Cost>) -> bool
    ensures { result ≡ true → IsPermutation (e ∷ []) (take 1 room.new) }
{
    let mut queue = Queue::over(room);
    queue.push(rule, e)
}

fn entry(cost: u32, node: usize) -> Entry<u32> {
    Entry { cost, node }
}

/// Seven entries, of which six find room, in the order that they come.
pub fn number_queue() -> [Option<Entry<u32>>; 7] {
    let given = [
        entry(5, 1),
        entry(2, 9),
        entry(7, 0),
        entry(2, 3),
        entry(STOP, 4),
        entry(0, 8),
        entry(2, 6),
    ];
    let mut room = [entry(0, 0); 6];
    let mut out = [None; 7];
    drain(&Steps, &given, &mut room, &mut out);
    out
}

/// A slice of one entry has what was pushed; a slice of none has no room.
pub fn lent_slice() -> [Shown; 2] {
    let mut room = [entry(0, 0); 1];
    let granted = kept(&Steps, &mut room, entry(6, 4));
    let refused = kept(&Steps, &mut [], entry(6, 4));
    [Some(room[0]).into(), (granted, refused).into()]
}

fn pair_entry(missing: u32, names: u32, node: usize) -> Entry<Shortage> {
    Entry {
        cost: Shortage { missing, names },
        node,
    }
}

/// Six entries in the order that they come.
pub fn pair_queue() -> [Option<Entry<Shortage>>; 6] {
    let given = [
        pair_entry(1, 4, 5),
        pair_entry(0, 9, 7),
        pair_entry(1, 2, 6),
        pair_entry(1, 2, 2),
        pair_entry(STOP, STOP, 1),
        pair_entry(0, 8, 3),
    ];
    let mut room = [pair_entry(0, 0, 0); 6];
    let mut out = [None; 6];
    drain(&Stock::new(), &given, &mut room, &mut out);
    out
}
