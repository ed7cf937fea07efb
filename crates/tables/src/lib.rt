// The two tables of a set, which an executive runs by: the LO table, and the HI table from a switch on.
#![tactic(auto)]

ghost use Rattle.std.specs.Prelude.{◌≡◌, length};
ghost use Rattle.model.specs.Sets.{view};
ghost use Rattle.model.specs.Refusals.{checked};
ghost use Rattle.model.specs.Answers.{tables_refusal, lo_table_in, hi_table_in};

mod table;

use checks::{check, span_of};
use columns::columns_of;
use model::{Refusal, Set};
use runs::{check_room, slots};
use table::hi_table;

// Makes both tables in the room lent, or refuses: 8 after 2 to 7. (`as`: the span is at most 4,096 here, so there is no error to handle.)
fn write_tables(s: &Set, lo: &mut [u16], hi: &mut [u16]) -> Result<(), Refusal>
    ensures answer { result ≡ checked (tables_refusal (view s.now) (length lo.old) (length hi.old)) }
    ensures normal { lo.new ≡ lo_table_in (view s.now) lo.old hi.old }
    ensures critical { hi.new ≡ hi_table_in (view s.now) lo.old hi.old }
{
    check(s)?;
    check_room(s, lo.len(), hi.len())?;
    let k = columns_of(*s);
    let times = k.lo;
    slots(*s, times, lo);
    let span = span_of(*s) as usize;
    hi_table(&k, span, lo, hi);
    Ok(())
}

// Makes both tables in the room lent. Refused, it writes nothing; entries past the span stay as they were.
pub fn make_tables(s: Set, lo: &mut [u16], hi: &mut [u16]) -> Refusal
    ensures answer { result ≡ tables_refusal (view s) (length lo.old) (length hi.old) }
    ensures normal { lo.new ≡ lo_table_in (view s) lo.old hi.old }
    ensures critical { hi.new ≡ hi_table_in (view s) lo.old hi.old }
{
    Refusal::from(write_tables(&s, lo, hi))
}
