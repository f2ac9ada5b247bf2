// Refusal 29: a newcomer against the transactions that spend one of its boxes.
ghost use Rattle.std.specs.Prelude.{◌≡◌, ◌≤◌};
ghost use Rattle.words.specs.Ids.{id_of};
ghost use Rattle.words.specs.Wide.{wide_of};
ghost use Rattle.entries.specs.Views.{KeptIn, entries_in};
ghost use Rattle.boxes.specs.Views.{count_in, ids_in};
ghost use Rattle.admit.specs.Admit.{weight_of, weights_of, loses};

use boxes::lists::Ids;
use entries::views::Entries;
use words::ids::Id;
use words::wide::Wide;

// The weight of a transaction, 0 where it is not pooled.
#[tactic(auto, using(crate::specs::Contests::weight_there, crate::specs::Contests::weight_nowhere))]
fn weight_of(entries: &Entries<'_>, id: Id) -> u64
    ensures { KeptIn entries.now → result ≡ weight_of (id_of id) (entries_in entries.now) }
{
    match entries.find(id) {
        Some(i) => entries.weight_at(i),
        None => 0,
    }
}

// The exact sum of the weights of the ids of a list.
pub fn weigh(entries: &Entries<'_>, list: &Ids<'_>) -> Wide
    requires { count_in list.now ≤ 5000 }
    ensures { KeptIn entries.now → wide_of result ≡ weights_of (ids_in list.now) (entries_in entries.now) }
{
    let mut sum = Wide { high: 0, low: 0 };
    for i in 0..list.len() {
        sum = sum.add_word(weight_of(entries, list.id_at(i)));
    }
    sum
}

// Whether a base does not reach past the average of the weights of the ids of a list.
#[tactic(auto, using(crate::specs::Contests::loses_not, crate::specs::Contests::loses_by))]
pub fn is_loser(entries: &Entries<'_>, base: u64, list: &Ids<'_>) -> bool
    requires { count_in list.now ≤ 5000 }
    ensures { KeptIn entries.now → result ≡ loses base (ids_in list.now) (entries_in entries.now) }
{
    let n = list.len();
    n != 0 && base <= weigh(entries, list).quotient(n as u64)
}
