// Lists of numbers, a space before each.
ghost use Rattle.std.specs.Prelude.{◌≡◌};
ghost use Rattle.std.specs.List.{list_all};
ghost use Rattle.answer_text.specs.Words.{list_words, of_jobs, table_words};

use std::fmt;

// The items of a list.
#[derive(Clone, Copy)]
pub struct List<'a, T>(pub &'a [T]);

impl<T: fmt::Display> fmt::Display for List<'_, T> {
    ghost output = { λ l. list_words T.output l.0.now };

    fn fmt<W: fmt::Write>(&self, f: &mut fmt::Formatter<W>) -> fmt::Result {
        for x in self.0 {
            write!(f, " {x}")?;
        }
        Ok(())
    }
}

// Whether each number is the one that says nothing.
fn is_blank<T: Copy + PartialEq>(values: &[T], nothing: T) -> bool
    ensures { result ≡ list_all (λ x. T.eq x nothing) values.now }
{
    values.iter().all(|x| *x == nothing)
}

// The numbers of jobs 1 to n, and all where one beyond them is not 0, which no answer should have.
pub fn of_jobs<T: Copy + Default + PartialEq>(values: &[T], n: usize) -> List<'_, T>
    ensures { (nothing : T) × T.is_default nothing × (result.0.now ≡ of_jobs (λ x. T.eq x nothing) values.now n) }
{
    let (shown, beyond) = values.split_at(n.min(values.len()));
    if is_blank(beyond, T::default()) {
        return List(shown);
    }
    List(values)
}

// The entries of a table, of more than 64 by their stretches of equal entries.
#[derive(Clone, Copy)]
pub struct Table<'a>(pub &'a [u16]);

impl fmt::Display for Table<'_> {
    ghost output = { λ t. table_words t.0.now };

    fn fmt<W: fmt::Write>(&self, f: &mut fmt::Formatter<W>) -> fmt::Result {
        match self.0.len() {
            0 => write!(f, " nothing"),
            1..=64 => write!(f, "{}", List(self.0)),
            _ => stretches(f, self.0),
        }
    }
}

// The stretches of equal entries: the entry, and how many there are.
fn stretches<W: fmt::Write>(f: &mut fmt::Formatter<W>, table: &[u16]) -> fmt::Result {
    for stretch in table.chunk_by(|a, b| a == b) {
        if let [x, ..] = stretch {
            let n = stretch.len();
            write!(f, " {x} x {n}")?;
        }
    }
    Ok(())
}
