// The base weight of a transaction.
#![tactic(auto)]

ghost use Rattle.std.specs.Prelude.{◌≡◌};
ghost use Rattle.weight.specs.Weight.{factor_of, fee_per_factor};

use pool_types::FeeStrategy;
use words::wide::Wide;

// What stands for a cost of 0, by which nothing can be divided.
const FAKE_COST: u64 = 1000;

fn fee_factor(size: u64, cost: u64, strategy: FeeStrategy) -> u64
    ensures { result ≡ factor_of strategy size cost }
{
    match strategy {
        FeeStrategy::FeePerByte => size,
        FeeStrategy::FeePerCycle => { if cost == 0 { FAKE_COST } else { cost } }
    }
}

// fee × 1024 / factor, rounded down.
pub fn fee_per_factor(fee: u64, size: u64, cost: u64, strategy: FeeStrategy) -> u64
    ensures { result ≡ fee_per_factor strategy fee size cost }
{
    Wide::product(fee, 1024).quotient(fee_factor(size, cost, strategy))
}
