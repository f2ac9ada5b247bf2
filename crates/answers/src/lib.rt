// Ids written to an answer buffer that the caller lends, four words for each, from its first place on.
#![tactic(auto)]

ghost use Rattle.std.specs.Prelude.{◌≡◌, ◌∷◌, [], ◌+◌, ◌≤◌};
ghost use Rattle.words.specs.Ids.{id_of};
ghost use Rattle.words.specs.Sums.{cap};
ghost use Rattle.boxes.specs.Flat.{count_of};
ghost use Rattle.boxes.specs.Views.{count_in, ids_in};
ghost use Rattle.answers.specs.Answers.{Wrote};

use boxes::lists::Ids;
use words::ids::{Id, put_id};

// How many ids a buffer has places for.
pub fn places(answer: &[u64]) -> usize
    ensures { result ≡ count_of 4 answer.now }
{
    answer.len() / 4
}

// Writes an id at place `k`, where the buffer has that place.
#[tactic(auto, using(crate::specs::Answers::wrote_one, crate::specs::Answers::wrote_nowhere))]
pub fn write_id(answer: &mut [u64], k: usize, id: Id)
    ensures { Wrote answer.old answer.new k (id_of id ∷ []) }
{
    if k < answer.len() / 4 {
        put_id(answer, k * 4, id);
    }
}

// Writes the ids of a list from place `at` on.
pub fn write_ids(answer: &mut [u64], at: usize, list: &Ids<'_>)
    requires { at + count_in list.now ≤ cap }
    ensures { Wrote answer.old answer.new at (ids_in list.now) }
{
    for i in 0..list.len() {
        write_id(answer, at + i, list.id_at(i));
    }
}
