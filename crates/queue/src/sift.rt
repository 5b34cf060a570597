// Bringing an entry up or down to its place in a heap.
ghost use Rattle.std.specs.Prelude.{◌≡◌, ◌+◌, ◌*◌, ◌<◌, ◌≤◌, length, MatchOption};
ghost use Rattle.std.specs.List.Sorted.{IsPermutation};
ghost use Rattle.queue.specs.Queues.{before, Heaped, IsParent, GoesFirst, Rising, Sinking};

use crate::Entry;
use price::rule::PriceRule;

// Whether the first entry goes before the second.
// No `Ord`, since which cost is below is the rule's to say, and the rule is lent to each call.
fn goes_before<R: PriceRule>(rule: &R, x: &Entry<R::Cost>, y: &Entry<R::Cost>) -> bool
    ensures { result ≡ before R.below x.now y.now }
{
    rule.is_below(x.cost, y.cost) || (!rule.is_below(y.cost, x.cost) && x.node < y.node)
}

// The place of the parent of the entry at `at`; the first entry has none.
fn parent_of(at: usize) -> Option<usize>
    ensures { MatchOption result (at ≡ 0) (λ p. IsParent p at) }
{
    Some(at.checked_sub(1)? / 2)
}

// Brings the last entry up to its place.
pub(crate) fn sift_up<R: PriceRule>(rule: &R, s: &mut [Entry<R::Cost>])
    requires { 0 < length s.old }
    ensures shuffled { IsPermutation s.old s.new }
    ensures order { Rising R.below s.old → Heaped R.below (length s.new) s.new }
{
    let mut at = s.len() - 1;
    while let Some(parent) = parent_of(at) {
        if !goes_before(rule, &s[at], &s[parent]) {
            return;
        }
        s.swap(parent, at);
        at = parent;
    }
}

// The child of `at` that goes first; a leaf has none.
fn first_child<R: PriceRule>(rule: &R, s: &[Entry<R::Cost>], at: usize) -> Option<usize>
    ensures { MatchOption result (length s.now ≤ at * 2 + 1) (λ c. GoesFirst R.below s.now at c) }
{
    if at >= s.len() / 2 {
        return None;
    }
    let left = 2 * at + 1;
    let right = left + 1;
    if right < s.len() && goes_before(rule, &s[right], &s[left]) {
        Some(right)
    } else {
        Some(left)
    }
}

// Brings the first entry down to its place.
pub(crate) fn sift_down<R: PriceRule>(rule: &R, s: &mut [Entry<R::Cost>])
    ensures shuffled { IsPermutation s.old s.new }
    ensures order { Sinking R.below s.old → Heaped R.below (length s.new) s.new }
{
    let mut at = 0;
    while let Some(child) = first_child(rule, s, at) {
        if !goes_before(rule, &s[child], &s[at]) {
            return;
        }
        s.swap(at, child);
        at = child;
    }
}
