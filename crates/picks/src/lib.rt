// The pick: who gets a slot. Every engine uses this one function. It looks at the numbers lent to it and copies only what it compares.
#![tactic(auto)]

ghost use Rattle.std.specs.Prelude.{◌≡◌, suc};
ghost use Rattle.model.specs.Lists.{at};
ghost use Rattle.model.specs.Runs.{ready};
ghost use Rattle.model.specs.Answers.{lent_pick};

// Whether a number names a job that has arrived by an instant and is not done. (The places are compared here, and not by `model::places::held`: of a whole
// verdict `held` costs a third.)
#[tactic(auto, unfolding(model::specs::Runs::ready, model::specs::Lists::at))]
fn is_ready(arrivals: &[u16], done: &[bool], t: u16, j: u16) -> bool
    ensures { result ≡ ready (λ i. at arrivals.now i (suc t)) done.now t j }
{
    let place = usize::from(j);
    j != 0
        && place <= arrivals.len()
        && place <= done.len()
        && arrivals[place - 1] <= t
        && !done[place - 1]
}

// The first job of an order that has arrived by an instant and is not done, or idle. An entry that names no job is passed over.
pub fn pick(order: &[u16], arrivals: &[u16], done: &[bool], t: u16) -> Option<u16>
    ensures { result ≡ lent_pick order.now arrivals.now done.now t }
{
    order
        .iter()
        .copied()
        .find(|&j| is_ready(arrivals, done, t, j))
}
