// The rules of one order, entry after entry.
ghost use Rattle.std.specs.Prelude.{min, ◌≡◌};
ghost use Rattle.model.specs.Lists.{cut};
ghost use Rattle.model.specs.Refusals.{fault};
ghost use Rattle.rules.specs.Rules.{marked, nonzero};

use model::Order;
use model::places::held;

// How many of n jobs have a place.
pub fn places(n: usize) -> usize
    ensures { result ≡ min n 64 }
{
    n.min(64)
}

// The number has a mark, and it is true.
#[tactic(auto, using(laws::proofs::Places::at_held), unfolding(crate::specs::Rules::marked))]
fn marked(ok: &[bool; 64], x: u16) -> bool
    ensures { result ≡ marked ok.now x }
{
    held(ok, x).unwrap_or(false)
}

// The first position of the order, from 1, whose entry is not marked or repeats. (`as`: there is no `u64::from(usize)`.)
pub fn fault_of(ok: &[bool; 64], o: &Order) -> Option<u64>
    ensures { result ≡ nonzero (fault (marked ok.now) (cut 0 (min o.now.count 64) o.now.entries)) }
{
    let order = &o.entries[..places(o.count)];
    for (i, &x) in order.iter().enumerate() {
        if !marked(ok, x) || order[..i].contains(&x) {
            return Some(i as u64 + 1);
        }
    }
    None
}
