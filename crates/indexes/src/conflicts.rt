// The transactions that spend one of a newcomer's boxes.
ghost use Rattle.std.specs.Prelude.{◌≡◌, false, ◌∷◌, [], ◌+◌, ◌*◌, ◌≤◌, length};
ghost use Rattle.words.specs.Ids.{id_of};
ghost use Rattle.boxes.specs.Records.{index, lookup, conflicts};
ghost use Rattle.boxes.specs.Views.{boxes_in, KeptIn, ids_in, count_in};
ghost use Rattle.indexes.specs.Conflicts.{Added, Listed};
ghost use Rattle.indexes.specs.Owners.{is_found};
ghost use Rattle.indexes.specs.Spent.{any_spent};

use crate::owners::spender;
use boxes::lists::Ids;
use boxes::views::Boxes;
use words::ids::{Id, put_id};

// Whether a box has a spender.
fn is_spent(boxes: &Boxes<'_>, key: Id) -> bool
    ensures { KeptIn boxes.now → result ≡ is_found (lookup (index false (boxes_in boxes.now)) (id_of key)) }
{
    spender(boxes, key).is_some()
}

// Whether one of these boxes has a spender.
pub fn any_spent(boxes: &Boxes<'_>, inputs: &Ids<'_>) -> bool
    ensures { KeptIn boxes.now → result ≡ any_spent (ids_in inputs.now) (boxes_in boxes.now) }
{
    for j in 0..inputs.len() {
        if is_spent(boxes, inputs.id_at(j)) {
            return true;
        }
    }
    false
}

// The list is being filled: `n` says how many ids it has so far, and a struct of both for two functions is no plainer.
// Puts an id behind the first `n` of the list, unless it is one of them, and returns how many there are then.
fn put_once(list: &mut [u64], n: usize, id: Id) -> usize
    requires { n * 4 + 4 ≤ length list.old }
    ensures { Added list.old list.new n result (id_of id ∷ []) }
{
    if Ids::new(list, 4).among(0, n, id) {
        return n;
    }
    put_id(list, n * 4, id);
    n + 1
}

// Puts the spender of a box behind the first `count`, if it has one.
fn add_conflict(boxes: &Boxes<'_>, key: Id, list: &mut [u64], count: usize) -> usize
    requires { count * 4 + 4 ≤ length list.old }
    ensures upper_bound { result ≤ count + 1 }
    ensures added { KeptIn boxes.now → Added list.old list.new count result (lookup (index false (boxes_in boxes.now)) (id_of key)) }
{
    match spender(boxes, key) {
        Some(id) => put_once(list, count, id),
        None => count,
    }
}

// Writes the ids of the spenders of these boxes to the list, each once, in the order of first input, and returns how many they are.
pub fn conflicts(boxes: &Boxes<'_>, inputs: &Ids<'_>, list: &mut [u64]) -> usize
    requires { count_in inputs.now * 4 ≤ length list.old }
    ensures upper_bound { result ≤ count_in inputs.now }
    ensures listed { KeptIn boxes.now → Listed list.old list.new (count_in inputs.now) result (conflicts (index false (boxes_in boxes.now)) (ids_in inputs.now)) }
{
    let mut count = 0;
    for j in 0..inputs.len() {
        count = add_conflict(boxes, inputs.id_at(j), list, count);
    }
    count
}
