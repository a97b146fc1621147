//! How many of a column's indices are each number.

ghost use Rattle.std.specs.Prelude.{◌≡◌, ℕ, ◌<◌, map, slice_index};
ghost use Rattle.document.specs.Calls.{total, ENUM, number};
ghost use Rattle.document.specs.Nodes.{alt, demand};

/// The number of values that each child of an enum's node has, by the child's index: as many as there are of it among the indices.
/// An index above 255 is no child's.
// Stays: 256 counts in a plain array by value, by the project's rule; the lookup needs no search and no heap.
pub(crate) fn histogram(indices: &[u64]) -> [u64; 256]
    ensures { (i : ℕ) → i < 256 → slice_index result i ≡ total (demand ENUM (alt i)) (map number indices.now) }
{
    let mut counts = [0; 256];
    for index in indices {
        if *index < 256 {
            counts[*index as usize] += 1;
        }
    }
    counts
}
