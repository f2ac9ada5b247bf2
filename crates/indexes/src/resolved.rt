// Whether inputs are found: confirmed, or made by a pooled transaction.
ghost use Rattle.std.specs.Prelude.{◌≡◌, true, length};
ghost use Rattle.words.specs.Ids.{id_of};
ghost use Rattle.boxes.specs.Records.{index, inputs_of};
ghost use Rattle.boxes.specs.Views.{boxes_in, KeptIn};
ghost use Rattle.indexes.specs.Resolved.{resolved_by, all_resolved, input_of, submitted, flagged};

use crate::owners::producer;
use boxes::lists::Ids;
use boxes::views::Boxes;
use words::ids::Id;

// Whether one input is found. A flag is set where its word is not 0.
#[tactic(auto, using(crate::specs::Owners::found_is), unfolding(crate::specs::Resolved::resolved_by))]
fn resolved(boxes: &Boxes<'_>, key: Id, flag: u64) -> bool
    ensures { KeptIn boxes.now → result ≡ resolved_by (index true (boxes_in boxes.now)) (input_of (id_of key) flag) }
{
    flag != 0 || producer(boxes, key).is_some()
}

// Whether each input of a submission is found: records of five words, the box's id and the flag 'confirmed'.
pub fn inputs_resolved(boxes: &Boxes<'_>, inputs: &[u64]) -> bool
    ensures { KeptIn boxes.now → result ≡ all_resolved (index true (boxes_in boxes.now)) (submitted inputs.now) }
{
    let ids = Ids::new(inputs, 5);
    for j in 0..ids.len() {
        if !resolved(boxes, ids.id_at(j), inputs[j * 5 + 4]) {
            return false;
        }
    }
    true
}

// Whether each input of a pooled transaction is found: one flag for each, in order, read from the last down.
pub fn answer_resolved(boxes: &Boxes<'_>, id: Id, flags: &[u64]) -> bool
    ensures { KeptIn boxes.now → length flags.now ≡ length (inputs_of (id_of id) (boxes_in boxes.now))
        → result ≡ all_resolved (index true (boxes_in boxes.now)) (flagged (inputs_of (id_of id) (boxes_in boxes.now)) flags.now) }
{
    let mut at = boxes.end();
    let mut left = flags;
    while let Some(i) = boxes.last_input(id, at) {
        // there is a flag for each input, but in words that no start left
        let Some((flag, before)) = left.split_last() else {
            return false;
        };
        if !resolved(boxes, boxes.box_key(i), *flag) {
            return false;
        }
        left = before;
        at = i;
    }
    true
}
