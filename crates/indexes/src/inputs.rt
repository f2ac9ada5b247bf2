// The inputs of a pooled transaction, from the last down: its input records.
ghost use Rattle.std.specs.Prelude.{◌≡◌, true, length};
ghost use Rattle.words.specs.Ids.{id_of};
ghost use Rattle.boxes.specs.Records.{index, lookup, inputs_of};
ghost use Rattle.boxes.specs.Layout.{all_rows};
ghost use Rattle.boxes.specs.Views.{boxes_in, KeptIn, ids_in};
ghost use Rattle.indexes.specs.Inputs.{all_among};
ghost use Rattle.indexes.specs.Parents.{links_of, last_parent};

use crate::owners::producer;
use boxes::lists::Ids;
use boxes::views::Boxes;
use words::ids::Id;

// Whether each input of a transaction is among the ids of the list.
pub fn all_listed(boxes: &Boxes<'_>, id: Id, list: &Ids<'_>) -> bool
    ensures { KeptIn boxes.now → result ≡ all_among (ids_in list.now) (inputs_of (id_of id) (boxes_in boxes.now)) }
{
    let mut at = boxes.end();
    while let Some(i) = boxes.last_input(id, at) {
        if !list.has(boxes.box_key(i)) {
            return false;
        }
        at = i;
    }
    true
}

// How many inputs a transaction has, repeats counted.
pub fn count_inputs(boxes: &Boxes<'_>, id: Id) -> usize
    ensures { KeptIn boxes.now → result ≡ length (inputs_of (id_of id) (boxes_in boxes.now)) }
{
    let mut count = 0;
    let mut at = boxes.end();
    while let Some(i) = boxes.last_input(id, at) {
        count += 1;
        at = i;
    }
    count
}

// The producer of an input, and the slot of the input's record.
#[derive(Clone, Copy)]
pub struct Parent {
    pub id: Id,
    pub slot: usize,
}

// The last input of a transaction in the slots before `bound` that has a producer: who it is, and the slot of the input's record.
pub fn last_parent(boxes: &Boxes<'_>, id: Id, bound: usize) -> Option<Parent>
    ensures { KeptIn boxes.now → links_of result ≡ last_parent (lookup (index true (all_rows boxes.now.words.now boxes.now.records))) (id_of id) (all_rows boxes.now.words.now boxes.now.records) bound }
{
    let mut at = bound;
    while let Some(i) = boxes.last_input(id, at) {
        if let Some(id) = producer(boxes, boxes.box_key(i)) {
            return Some(Parent { id, slot: i });
        }
        at = i;
    }
    None
}
