// Numbers of two words: the exact product of a word and half a word, a sum of words with its carry, and the quotient of two words by one.
ghost use Rattle.std.specs.Prelude.{◌≡◌, ◌+◌, ◌*◌, ◌/◌, ◌%◌, ◌^◌, ◌<◌};
ghost use Rattle.words.specs.Sums.{quotient_of};
ghost use Rattle.words.specs.Wide.{wide_of};
ghost use Rattle.words.specs.Divide.{Length, Serves, Ready, part_of, stepped};

// Half a word has 32 bits.
const HALF: u64 = 0x1_0000_0000;

#[derive(Clone, Copy)]
pub struct Wide {
    pub high: u64,
    pub low: u64,
}

// ---- the quotient of two words by one

// What a division has come to: the quotient of the bits so far, and what is left of them.
#[derive(Clone, Copy)]
struct Part {
    quotient: u64,
    rest: u64,
}

// How many bits a step takes after the first: what is left is below d, and with half a word behind it, it still fits a word. A divisor that
// is no half word leaves no such room, and each bit is a step.
fn step_bits(d: u64) -> u32
    ensures { Serves d result }
{
    if d < HALF { 32 } else { 1 }
}

impl Part {
    // Divides what is left with `size` bits more behind it. For a divisor of more than half a word that is one bit, and twice what is left and the
    // bit reach d exactly if what is left and the bit reach the gap.
    fn step(self, digit: u64, d: u64, size: u32) -> Part
        requires { Ready self digit d size }
        ensures { result ≡ stepped self digit d size }
    {
        if d < HALF {
            let n = (self.rest << size) + digit;
            return Part {
                quotient: (self.quotient << size) + n / d,
                rest: n % d,
            };
        }
        let gap = d - self.rest;
        let next = self.rest + digit;
        if next < gap {
            return Part {
                quotient: self.quotient + self.quotient,
                rest: self.rest + next,
            };
        }
        Part {
            quotient: self.quotient + self.quotient + 1,
            rest: next - gap,
        }
    }
}

impl Wide {
    // x × y, by the halves of x. The low words are added modulo 2^64: the sum wrapped exactly if it is below what was added.
    pub fn product(x: u64, y: u32) -> Wide
        ensures { wide_of result ≡ x * y }
    {
        let by = y as u64;
        let upper = x / HALF * by;
        let lower = x % HALF * by;
        let low = std::num::wrapping_add_u64(upper % HALF * HALF, lower);
        if low < lower {
            return Wide {
                high: upper / HALF + 1,
                low,
            };
        }
        Wide {
            high: upper / HALF,
            low,
        }
    }

    // w + x, with room for the carry: the high word of a sum of n words is below n.
    pub fn add_word(self, x: u64) -> Wide
        requires { self.high + 1 < 2 ^ 64 }
        ensures { wide_of result ≡ wide_of self + x }
    {
        let low = std::num::wrapping_add_u64(self.low, x);
        if low < x {
            return Wide {
                high: self.high + 1,
                low,
            };
        }
        Wide {
            high: self.high,
            low,
        }
    }

    // How many bits w has up to its highest one bit.
    fn bits(self) -> u32
        ensures { Length (wide_of self) result }
    {
        if self.high != 0 {
            return 128 - u64::leading_zeros(self.high);
        }
        64 - u64::leading_zeros(self.low)
    }

    // The 64 bits of w from bit `at` up.
    fn word_at(self, at: u32) -> u64
        requires { at < 128 }
        ensures { result ≡ wide_of self / 2 ^ at % 2 ^ 64 }
    {
        if at == 0 {
            return self.low;
        }
        if at < 64 {
            return (self.high << (64 - at)) + (self.low >> at);
        }
        self.high >> (at - 64)
    }

    // The first step, down to bit `at`: nothing is left from before, so that it takes as many bits as a word has.
    fn first_step(self, d: u64, at: u32) -> Part
        requires { (0 < d) × (at < 128) × (wide_of self < 2 ^ (64 + at)) }
        ensures { result ≡ part_of (wide_of self) d at }
    {
        let top = self.word_at(at);
        Part {
            quotient: top / d,
            rest: top % d,
        }
    }

    // The division starts at the highest one bit: the leading zeros of the high or the low word fix the number of steps. The first takes 64 bits,
    // or what there is; each other takes 32, or one for a divisor of more.
    fn divide(self, d: u64) -> u64
        requires { self.high < d }
        ensures { result ≡ wide_of self / d }
    {
        let most = step_bits(d);
        let mut at = self.bits();
        at -= at.min(64);
        let mut t = self.first_step(d, at);
        // the rules name this form, so it counts bits and is no library call
        while 0 < at {
            let size = at.min(most);
            at -= size;
            t = t.step(self.word_at(at) % (1u64 << size), d, size);
        }
        t.quotient
    }

    // w / d, rounded down: 0 where d is 0, and 2^64−1 where the quotient is larger.
    pub fn quotient(self, d: u64) -> u64
        ensures { result ≡ quotient_of (wide_of self) d }
    {
        if d == 0 {
            return 0;
        }
        if d <= self.high {
            return u64::MAX;
        }
        self.divide(d)
    }
}
