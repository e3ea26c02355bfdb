ghost use Rattle.std.specs.Prelude.{◌≡◌, ◌+◌, ◌<◌, ◌≤◌, [], ◌∷◌, ◌++◌, take};

use crate::MOST_NUMBERS;

/// The numbers on a sheet, in the order given.
// An array with its length: a command can be copied, which one that holds an `ArrayVec` cannot.
#[derive(Clone, Copy, Debug, PartialEq, Eq)]
pub struct Sheet {
    bytes: [u8; MOST_NUMBERS],
    len: usize,
    ghost few: { len ≤ 500 },
}

impl Sheet {
    /// A sheet with no numbers.
    pub(crate) fn new() -> Sheet
        ensures made { take result.len result.bytes ≡ [] }
        ensures len { result.len ≡ 0 }
    {
        Sheet {
            bytes: [0; MOST_NUMBERS],
            len: 0,
        }
    }

    /// Puts one more number after the others.
    pub(crate) fn push(&mut self, number: u8)
        requires { self.old.len < 500 }
        ensures after { take self.new.len self.new.bytes ≡ take self.old.len self.old.bytes ++ (number ∷ []) }
        ensures len { self.new.len ≡ self.old.len + 1 }
    {
        self.bytes[self.len] = number;
        self.len += 1;
    }

    /// The numbers.
    pub fn as_slice(&self) -> &[u8]
        ensures value { result.now ≡ take self.now.len self.now.bytes }
    {
        &self.bytes[..self.len]
    }
}
