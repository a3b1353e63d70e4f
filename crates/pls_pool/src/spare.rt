//! The spare list of a seat: the tasks that its queue did not take, and those that were put while the list was not empty.
ghost use Rattle.std.specs.Prelude.{◌≡◌, ◌^◌, ◌<◌, [], ◌∷◌, ◌++◌, length, MatchResult, OnOk};

use std::collections::LinkedList;

// No spare list has more tasks for each seat joined, so that the lists of all seats together are not too long.
const MOST: usize = 1 << 57;

/// The task goes to the end of the spare list, or comes back.
pub(crate) fn put_aside<T>(spare: &mut LinkedList<T>, task: T) -> Result<(), T>
    ensures put { MatchResult result (λ _. spare.new ≡ spare.old ++ task ∷ []) (λ x. (x ≡ task) × (spare.new ≡ spare.old)) }
    ensures few { OnOk result (length spare.old < 2 ^ 57) }
{
    if spare.len() >= MOST {
        return Err(task);
    }
    match spare.push_back(task) {
        Ok(()) => Ok(()),
        Err(refused) => Err(refused.value),
    }
}
