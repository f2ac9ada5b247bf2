// A submission that passed its tests: refused with 10, 29 or 30, or pooled in the place of those that it drives out.
ghost use Rattle.std.specs.Prelude.{◌≡◌, false, ◌+◌, ◌/◌, ◌≤◌, min, eqb, length};
ghost use Rattle.words.specs.Lists.{pick};
ghost use Rattle.words.specs.Ids.{id_of};
ghost use Rattle.words.specs.Sums.{cap};
ghost use Rattle.pool_types.specs.Outcomes.{processed_of, done, wrote};
ghost use Rattle.arguments.specs.Arguments.{fee_of};
ghost use Rattle.entries.specs.Entries.{pooled};
ghost use Rattle.entries.specs.Layout.{entry_of, entries_of};
ghost use Rattle.boxes.specs.Records.{index, conflicts};
ghost use Rattle.boxes.specs.Layout.{boxes_of};
ghost use Rattle.boxes.specs.Flat.{count_of, ids_of};
ghost use Rattle.boxes.specs.Views.{count_in, ids_in};
ghost use Rattle.pool.specs.Lent.{Same, KeptIn, RoomIn, tables_in};
ghost use Rattle.admit.specs.Admit.{cost_of, newcomer, joined, seated, contested, admit_spec};
ghost use Rattle.admit.specs.Evictions.{Evicts};
ghost use Rattle.admit.specs.Admission.{Sound, Leaves};
ghost use Rattle.admit.specs.Spares.{SparesWords, Unmoved};

use crate::contests::is_loser;
use crate::evictions::{evict_to, is_crowded};
use answers::{places, write_ids};
use arguments::{count_records, extract_fee, height_key};
use boxes::lists::{Ids, TxIds};
use entries::fields::PoolEntry;
use family::propagate_family_weight;
use indexes::conflicts::{any_spent, conflicts};
use pool::lent::PoolMut;
use pool_types::{Lists, MempoolConfig, ProcessingOutcome, Refusal, Submission};
use weight::fee_per_factor;

// More inputs were refused with 7.
const MAX_TX_INPUTS: usize = 5000;

// Words for one conflict for each input.
const CONFLICT_WORDS: usize = MAX_TX_INPUTS * 4;

// What a transaction costs: its verdict's cost, but at least its size.
pub fn cost_of(verdict: u64, size: u64) -> u64
    ensures { result ≡ cost_of verdict size }
{
    verdict.max(size)
}

// The newcomer's entry.
#[tactic(auto, unfolding(entries::specs::Layout::entry_of, crate::specs::Admit::newcomer))]
fn newcomer(sub: Submission, cost: u64, base: u64, lists: &Lists<'_>) -> PoolEntry
    ensures { entry_of result ≡ newcomer sub cost base lists.now.inputs.now lists.now.outputs.now }
{
    PoolEntry {
        id: sub.id,
        weight: base,
        base,
        size: sub.size,
        cost: cost_of(cost, sub.size),
        validation_cost: Some(cost),
        created: sub.time,
        last_checked: sub.time,
        height_key: height_key(lists.outputs, 7, 6),
        inputs: count_records(lists.inputs, 5) as u64,
    }
}

// The newcomer is inserted, credits its family, and the lowest are evicted, be it the newcomer itself. Returns how many were.
// That there is room is a fact of the pool and the newcomer's lists together, which no type of one of them holds.
fn enter(
    pool: &mut PoolMut<'_>,
    e: PoolEntry,
    lists: &Lists<'_>,
    capacity: usize,
    answer: &mut [u64],
    at: usize,
    write: bool,
) -> usize
    requires room { RoomIn pool.old (count_of 5 lists.now.inputs.now + count_of 7 lists.now.outputs.now) }
    requires at_bound { at ≤ 5000 }
    ensures same { Same pool.old pool.new }
    ensures upper_bound { at + result ≤ cap }
    ensures evicts { KeptIn pool.old → pooled (id_of e.id) (entries_of pool.old.entries.now pool.old.counts.pooled) ≡ false
        → Evicts capacity at write (joined 500 (entry_of e) lists.now.inputs.now lists.now.outputs.now (tables_in pool.old)) pool.new.entries.now pool.new.boxes.now pool.new.counts result answer.old answer.new }
{
    pool.insert(
        e,
        &TxIds {
            inputs: Ids::new(lists.inputs, 5),
            outputs: Ids::new(lists.outputs, 7),
        },
    );
    // lent from here, since of a field that is lent to be read nothing is known afterwards
    let boxes = &mut *pool.boxes;
    propagate_family_weight(pool.entries, boxes, pool.counts, e.id, e.base);
    evict_to(pool, capacity, answer, at, write)
}

// Where so many losers went: of the ids that were to be written those are counted that the answer buffer has room for.
#[tactic(auto, unfolding(pool_types::specs::Outcomes::processed_of))]
fn outcome_of(losers: usize, written: usize, room: usize) -> ProcessingOutcome
    ensures { processed_of result ≡ pick (eqb losers 0) done (wrote (min room written)) }
{
    if losers == 0 {
        ProcessingOutcome::Accepted
    } else {
        ProcessingOutcome::Replaced(room.min(written))
    }
}

// 30, or the newcomer takes its place after the losers went: only then are they written.
#[tactic(auto, using(crate::specs::Spares::unmoved_full))]
fn seat(
    pool: &mut PoolMut<'_>,
    e: PoolEntry,
    lists: &Lists<'_>,
    capacity: usize,
    losers: &Ids<'_>,
    answer: &mut [u64],
) -> ProcessingOutcome
    requires room { RoomIn pool.old (count_of 5 lists.now.inputs.now + count_of 7 lists.now.outputs.now) }
    requires losers_bound { count_in losers.now ≤ 5000 }
    ensures same { Same pool.old pool.new }
    ensures sound { Sound (length answer.old / 4) result }
    ensures unmoved { Unmoved pool.old.entries.now pool.old.boxes.now answer.old pool.old.counts pool.new.entries.now pool.new.boxes.now answer.new pool.new.counts result }
    ensures leaves { KeptIn pool.old → pooled (id_of e.id) (entries_of pool.old.entries.now pool.old.counts.pooled) ≡ false
        → Leaves pool.new.entries.now pool.new.boxes.now pool.new.counts result answer.old answer.new (seated 500 (length answer.old / 4) capacity (entry_of e) lists.now.inputs.now lists.now.outputs.now (ids_in losers.now) (tables_in pool.old)) }
{
    if is_crowded(&pool.entries(), capacity, e.base) {
        return ProcessingOutcome::Declined(Refusal::PoolFull);
    }
    let k = losers.len();
    let room = places(answer);
    write_ids(answer, 0, losers);
    let n = enter(pool, e, lists, capacity, answer, k, 0 < k);
    outcome_of(k, k + n, room)
}

// 29, or the transactions that spend one of the newcomer's boxes go.
#[tactic(auto, using(crate::specs::Spares::spares_lost))]
fn contest(
    pool: &mut PoolMut<'_>,
    e: PoolEntry,
    lists: &Lists<'_>,
    capacity: usize,
    answer: &mut [u64],
) -> ProcessingOutcome
    requires room { RoomIn pool.old (count_of 5 lists.now.inputs.now + count_of 7 lists.now.outputs.now) }
    requires inputs_bound { count_of 5 lists.now.inputs.now ≤ 5000 }
    ensures same { Same pool.old pool.new }
    ensures sound { Sound (length answer.old / 4) result }
    ensures spares_words { SparesWords pool.old.entries.now pool.old.boxes.now answer.old pool.old.counts pool.new.entries.now pool.new.boxes.now answer.new pool.new.counts result }
    ensures leaves { KeptIn pool.old → pooled (id_of e.id) (entries_of pool.old.entries.now pool.old.counts.pooled) ≡ false
        → Leaves pool.new.entries.now pool.new.boxes.now pool.new.counts result answer.old answer.new (contested 500 (length answer.old / 4) capacity (entry_of e) lists.now.inputs.now lists.now.outputs.now (conflicts (index false (boxes_of pool.old.boxes.now pool.old.counts.records)) (ids_of 5 lists.now.inputs.now)) (tables_in pool.old)) }
{
    // no heap: as large as the most inputs need
    let mut list = [0u64; CONFLICT_WORDS];
    let k = conflicts(&pool.boxes(), &Ids::new(lists.inputs, 5), &mut list);
    let losers = Ids::new(&list[..k * 4], 4);
    if is_loser(&pool.entries(), e.base, &losers) {
        let told = places(answer).min(k);
        write_ids(answer, 0, &losers);
        return ProcessingOutcome::DoubleSpendLoser(told);
    }
    pool.remove_all(&losers);
    seat(pool, e, lists, capacity, &losers, answer)
}

// Whether the newcomer has anybody to contest with is asked first: most have nobody, and no list is cleared for them. So the list is a local of
// `contest`, since a function pays for its locals at each entry.
fn find_place(
    pool: &mut PoolMut<'_>,
    e: PoolEntry,
    lists: &Lists<'_>,
    capacity: usize,
    answer: &mut [u64],
) -> ProcessingOutcome
    requires room { RoomIn pool.old (count_of 5 lists.now.inputs.now + count_of 7 lists.now.outputs.now) }
    requires inputs_bound { count_of 5 lists.now.inputs.now ≤ 5000 }
    ensures same { Same pool.old pool.new }
    ensures sound { Sound (length answer.old / 4) result }
    ensures spares_words { SparesWords pool.old.entries.now pool.old.boxes.now answer.old pool.old.counts pool.new.entries.now pool.new.boxes.now answer.new pool.new.counts result }
    ensures leaves { KeptIn pool.old → pooled (id_of e.id) (entries_of pool.old.entries.now pool.old.counts.pooled) ≡ false
        → Leaves pool.new.entries.now pool.new.boxes.now pool.new.counts result answer.old answer.new (contested 500 (length answer.old / 4) capacity (entry_of e) lists.now.inputs.now lists.now.outputs.now (conflicts (index false (boxes_of pool.old.boxes.now pool.old.counts.records)) (ids_of 5 lists.now.inputs.now)) (tables_in pool.old)) }
{
    if any_spent(&pool.boxes(), &Ids::new(lists.inputs, 5)) {
        return contest(pool, e, lists, capacity, answer);
    }
    seat(pool, e, lists, capacity, &Ids::new(&[], 4), answer)
}

// 10, or the newcomer that pays this fee takes a place.
fn offer(
    pool: &mut PoolMut<'_>,
    config: MempoolConfig,
    sub: Submission,
    cost: u64,
    fee: u64,
    lists: &Lists<'_>,
    answer: &mut [u64],
) -> ProcessingOutcome
    requires room { RoomIn pool.old (count_of 5 lists.now.inputs.now + count_of 7 lists.now.outputs.now) }
    requires inputs_bound { (count_of 5 lists.now.inputs.now ≤ 5000) × (fee ≡ fee_of lists.now.outputs.now) }
    ensures same { Same pool.old pool.new }
    ensures sound { Sound (length answer.old / 4) result }
    ensures spares_words { SparesWords pool.old.entries.now pool.old.boxes.now answer.old pool.old.counts pool.new.entries.now pool.new.boxes.now answer.new pool.new.counts result }
    ensures leaves { KeptIn pool.old → pooled (id_of sub.id) (entries_of pool.old.entries.now pool.old.counts.pooled) ≡ false
        → Leaves pool.new.entries.now pool.new.boxes.now pool.new.counts result answer.old answer.new (admit_spec 500 (length answer.old / 4) config (tables_in pool.old) sub cost lists.now.inputs.now lists.now.outputs.now) }
{
    if fee < config.min_fee {
        return ProcessingOutcome::Declined(Refusal::FeeBelowMinimum);
    }
    let base = fee_per_factor(fee, sub.size, cost_of(cost, sub.size), config.fee_strategy);
    let e = newcomer(sub, cost, base, lists);
    find_place(pool, e, lists, config.capacity, answer)
}

// What follows the tests of a submission whose valid verdict costs so much.
#[tactic(auto, using(crate::specs::Admission::fee_same))]
pub fn admit(
    pool: &mut PoolMut<'_>,
    config: MempoolConfig,
    sub: Submission,
    cost: u64,
    lists: &Lists<'_>,
    answer: &mut [u64],
) -> ProcessingOutcome
    requires room { RoomIn pool.old (count_of 5 lists.now.inputs.now + count_of 7 lists.now.outputs.now) }
    requires inputs_bound { (count_of 5 lists.now.inputs.now ≤ 5000) × (fee_of lists.now.outputs.now ≤ cap) }
    ensures same { Same pool.old pool.new }
    ensures sound { Sound (length answer.old / 4) result }
    ensures spares_words { SparesWords pool.old.entries.now pool.old.boxes.now answer.old pool.old.counts pool.new.entries.now pool.new.boxes.now answer.new pool.new.counts result }
    ensures leaves { KeptIn pool.old → pooled (id_of sub.id) (entries_of pool.old.entries.now pool.old.counts.pooled) ≡ false
        → Leaves pool.new.entries.now pool.new.boxes.now pool.new.counts result answer.old answer.new (admit_spec 500 (length answer.old / 4) config (tables_in pool.old) sub cost lists.now.inputs.now lists.now.outputs.now) }
{
    match extract_fee(lists.outputs) {
        Some(fee) => offer(pool, config, sub, cost, fee, lists, answer),
        // never here: such a sum has been refused with 4
        None => ProcessingOutcome::Declined(Refusal::FeeSum),
    }
}
