//! Four numbers as a value.
ghost use Rattle.std.specs.Prelude.{◌≡◌};
ghost use Rattle.ledger_numbers.specs.Spelled.{numbers_of, value_of, has_two};

use ledger_log::Value;

/// Four numbers of 64 bits, which take the 32 bytes of a value. An account that has fewer leaves the last ones 0.
#[derive(Clone, Copy, Debug, PartialEq, Eq)]
pub struct Numbers {
    pub first: u64,
    pub second: u64,
    pub third: u64,
    pub fourth: u64,
}

impl Numbers {
    /// The numbers of an account that has two.
    pub fn two(first: u64, second: u64) -> Numbers
        ensures { result ≡ record { first = first; second = second; third = 0; fourth = 0 } }
    {
        Numbers {
            first,
            second,
            third: 0,
            fourth: 0,
        }
    }

    /// Whether an account that has two numbers may have these.
    pub fn has_two(&self) -> bool
        ensures { result ≡ has_two self.now }
    {
        self.third == 0 && self.fourth == 0
    }

    #[tactic(auto, unfolding(crate::specs::Spelled::value_of))]
    pub fn to_value(&self) -> Value
        ensures { result ≡ value_of self.now }
    {
        let first = self.first;
        let second = self.second;
        let third = self.third;
        let fourth = self.fourth;
        let mut value = [0; 32];
        value[..8].copy_from_slice(&first.to_be_bytes());
        value[8..16].copy_from_slice(&second.to_be_bytes());
        value[16..24].copy_from_slice(&third.to_be_bytes());
        value[24..].copy_from_slice(&fourth.to_be_bytes());
        value
    }

    /// Each value has its numbers.
    #[tactic(auto, unfolding(crate::specs::Spelled::numbers_of))]
    pub fn from_value(value: &Value) -> Numbers
        ensures is { result ≡ numbers_of value.now }
        ensures again { value_of result ≡ value.now }
    {
        let mut first = [0; 8];
        first.copy_from_slice(&value[..8]);
        let mut second = [0; 8];
        second.copy_from_slice(&value[8..16]);
        let mut third = [0; 8];
        third.copy_from_slice(&value[16..24]);
        let mut fourth = [0; 8];
        fourth.copy_from_slice(&value[24..]);
        Numbers {
            first: u64::from_be_bytes(first),
            second: u64::from_be_bytes(second),
            third: u64::from_be_bytes(third),
            fourth: u64::from_be_bytes(fourth),
        }
    }
}
