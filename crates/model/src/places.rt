// Lists that have a place for each job: job j stands at place j - 1.
ghost use Rattle.std.specs.Prelude.{◌≡◌};
ghost use Rattle.model.specs.Lists.{held};

// What a list holds for job j, and nothing where it has no place for it.
#[tactic(auto, unfolding(crate::specs::Lists::held))]
pub fn held<T: Copy>(list: &[T], j: u16) -> Option<T>
    ensures { result ≡ held list.now j }
{
    list.get(usize::from(j).checked_sub(1)?).copied()
}
