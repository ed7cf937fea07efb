// The HI table, made from the LO table into lent room by rules (a), (b) and (c).
ghost use Rattle.std.specs.Prelude.{◌≡◌, ◌++◌, ◌<◌, ◌≤◌, drop, length, take};
ghost use Rattle.model.specs.declared.Level.TheVariants.{Hi};
ghost use Rattle.model.specs.Lists.{at};
ghost use Rattle.model.specs.Sets.{span as span_of};
ghost use Rattle.model.specs.Tables.{lo_table, hi_table};
ghost use Rattle.columns.specs.Columns.{view_of};
ghost use Rattle.tables.specs.Slots.{enabled_in, chosen, counted};

use columns::Columns;
use measures::is_enabled;
use model::Level;
use model::places::held;

// The slots that each job has had in either table.
#[derive(Clone, Copy)]
struct Had {
    lo: [u16; 64],
    hi: [u16; 64],
}

impl Had {
    // Whether a number names a HI job that is enabled, where the LO table runs job `slot`.
    #[tactic(auto, unfolding(crate::specs::Slots::enabled_in))]
    fn enables(&self, k: &Columns, slot: u16, j: u16) -> bool
        ensures { result ≡ enabled_in self.now.hi self.now.lo k.now.lo k.now.hi slot j }
    {
        is_enabled(
            entry(&self.hi, j),
            entry(&self.lo, j),
            entry(&k.lo, j),
            entry(&k.hi, j),
            slot == j,
        )
    }

    // The HI table's entry, where the LO table runs job `slot`: the first enabled job of the HI order, or 0, which is a table's word for idle. An entry of the
    // order that names no job is passed over.
    fn pick(&self, k: &Columns, slot: u16) -> u16
        ensures { result ≡ chosen ((view_of k.now).policy.order Hi) self.now.hi self.now.lo k.now.lo k.now.hi slot }
    {
        k.order(Level::Hi)
            .iter()
            .copied()
            .find(|j| self.enables(k, slot, *j))
            .unwrap_or(0)
    }
}

// What a list holds for job j, 0 where it has no place for it, as `at` says.
#[tactic(auto, using(laws::proofs::Places::at_held))]
fn entry(list: &[u16], j: u16) -> u16
    ensures { result ≡ at list.now j 0 }
{
    held(list, j).unwrap_or(0)
}

// Counts one slot more for job j. A number that names no place changes nothing.
#[tactic(auto, unfolding(crate::specs::Slots::counted, model::specs::Runs::bump, model::specs::Lists::at))]
fn count(had: &mut [u16; 64], j: u16)
    requires { at had.old j 0 < 65535 }
    ensures { had.new ≡ counted had.old j }
{
    let k = usize::from(j);
    // by index: of what is written through `get_mut` a proof knows no element afterwards
    if 0 < k && k <= had.len() {
        had[k - 1] += 1;
    }
}

// Makes the HI table from the LO table.
pub fn hi_table(k: &Columns, span: usize, lo: &[u16], table: &mut [u16])
    requires span { span ≡ span_of (view_of k.now) }
    requires bound { span ≤ 4096 }
    requires room { span ≤ length table.old }
    requires lo { take span lo.now ≡ lo_table (view_of k.now) }
    ensures { table.new ≡ hi_table (view_of k.now) ++ drop span table.old }
{
    let mut had = Had {
        lo: [0u16; 64],
        hi: [0u16; 64],
    };
    for (t, slot) in lo[..span].iter().enumerate() {
        let j = had.pick(k, *slot);
        // by index: tried `table.iter_mut().zip(&lo[..span])`, and the two in the other order; past a `zip` of `iter_mut` a proof has no name for the table
        table[t] = j;
        count(&mut had.lo, *slot);
        count(&mut had.hi, j);
    }
}
