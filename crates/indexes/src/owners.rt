// Both indexes: the owner of a box's live record of a kind.
ghost use Rattle.std.specs.Prelude.{◌≡◌, true, false};
ghost use Rattle.words.specs.Ids.{id_of};
ghost use Rattle.boxes.specs.Records.{index, lookup};
ghost use Rattle.boxes.specs.Views.{boxes_in, KeptIn};
ghost use Rattle.indexes.specs.Owners.{owner_ids};

use boxes::views::Boxes;
use words::ids::Id;

// The owner that the index of a kind has for a box.
pub fn owner_of(boxes: &Boxes<'_>, out: bool, key: Id) -> Option<Id>
    ensures { KeptIn boxes.now → owner_ids result ≡ lookup (index out (boxes_in boxes.now)) (id_of key) }
{
    let i = boxes.find_live(out, key)?;
    Some(boxes.box_owner(i))
}

// The transaction that spends a box.
pub fn spender(boxes: &Boxes<'_>, key: Id) -> Option<Id>
    ensures { KeptIn boxes.now → owner_ids result ≡ lookup (index false (boxes_in boxes.now)) (id_of key) }
{
    owner_of(boxes, false, key)
}

// The transaction that produces a box.
pub fn producer(boxes: &Boxes<'_>, key: Id) -> Option<Id>
    ensures { KeptIn boxes.now → owner_ids result ≡ lookup (index true (boxes_in boxes.now)) (id_of key) }
{
    owner_of(boxes, true, key)
}
