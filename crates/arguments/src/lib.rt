// The lists that calls bring, read record by record.
#![tactic(auto)]

ghost use Rattle.std.specs.Prelude.{◌≡◌, ◌&&◌, ◌+◌, ◌*◌, ◌<◌, ◌≤◌, length};
ghost use Rattle.std.specs.List.{fold, range_with_len};
ghost use Rattle.words.specs.Sums.{capped};
ghost use Rattle.arguments.specs.Arguments.{whole, records, field, fee_at, fee_sum, biased, height_key, counts_agree};

// The words of an output of a submission.
const OUTPUT_WORDS: usize = 7;
// Which of them is its value.
const VALUE: usize = 4;
// Which of them is its fee flag.
const FLAG: usize = 5;
// The words of a block's transaction.
const TRANSACTION_WORDS: usize = 5;
// Which of them is its number of inputs.
const INPUTS: usize = 4;
// The words of a block's input.
const INPUT_WORDS: usize = 4;

// Whether a list is a whole number of records.
pub fn is_whole(list: &[u64], width: usize) -> bool
    requires { 0 < width }
    ensures { result ≡ whole width list.now }
{
    list.len() % width == 0
}

// Whether both lists are whole numbers of records. Lists and widths side by side: a struct of the four would be made
// for this test alone, and be no plainer.
pub fn are_whole(inputs: &[u64], in_width: usize, outputs: &[u64], out_width: usize) -> bool
    requires { (0 < in_width) × (0 < out_width) }
    ensures { result ≡ (whole in_width inputs.now && whole out_width outputs.now) }
{
    is_whole(inputs, in_width) && is_whole(outputs, out_width)
}

pub fn count_records(list: &[u64], width: usize) -> usize
    requires { 0 < width }
    ensures { result ≡ records width list.now }
{
    list.len() / width
}

// What output `i` adds to the fee.
fn fee_at(outputs: &[u64], i: usize) -> u64
    requires { i * 7 + 7 ≤ length outputs.now }
    ensures { result ≡ fee_at outputs.now i }
{
    let at = i * OUTPUT_WORDS;
    if outputs[at + FLAG] != 0 {
        outputs[at + VALUE]
    } else {
        0
    }
}

// The fee of a submission: the values that are flagged.
pub fn extract_fee(outputs: &[u64]) -> Option<u64>
    ensures { result ≡ fee_sum outputs.now }
{
    let mut sum: u64 = 0;
    for i in 0..count_records(outputs, OUTPUT_WORDS) {
        sum = sum.checked_add(fee_at(outputs, i))?;
    }
    Some(sum)
}

// How many numbers have 32 bits.
const WORD_32: u64 = 1 << 32;
// How many of them are not negative.
const HALF_32: u64 = 1 << 31;

// A height of 32 bits, read as signed, plus 2^31.
pub fn height_order(word: u64) -> u64
    ensures { result ≡ biased word }
{
    (word % WORD_32 + HALF_32) % WORD_32
}

// The greatest height of a list of outputs, in the order of signed numbers; 0 where there is none.
pub fn height_key(list: &[u64], width: usize, word: usize) -> u64
    requires { word < width }
    ensures { result ≡ height_key width word list.now }
{
    let mut key: u64 = 0;
    for i in 0..count_records(list, width) {
        key = key.max(height_order(list[i * width + word]));
    }
    key
}

// The inputs that a block's transactions count, at most 2^64−1.
fn total_inputs(transactions: &[u64]) -> u64
    ensures { result ≡ fold (λ sum i. capped (sum + field 5 4 transactions.now i)) 0 (range_with_len 0 (records 5 transactions.now)) }
{
    (0..count_records(transactions, TRANSACTION_WORDS)).fold(
        0u64,
        |sum, i| sum.saturating_add(transactions[i * TRANSACTION_WORDS + INPUTS]),
    )
}

// Whether a block's numbers of inputs add up to the inputs that it gives.
pub fn counts_agree(transactions: &[u64], inputs: &[u64]) -> bool
    ensures { result ≡ counts_agree transactions.now inputs.now }
{
    total_inputs(transactions) == count_records(inputs, INPUT_WORDS) as u64
}
