ghost use Rattle.std.specs.Prelude.{◌≡◌, ℕ, ◌<◌, ◌≤◌, List, [], ◌∷◌, ◌++◌, length, MatchOption, Decides};

use crate::LONGEST;
use arrayvec::ArrayVec;

/// The bytes of one line, gathered one by one in fixed memory.
#[derive(Debug, Drop)]
pub struct LineBuffer {
    // none once a byte came that did not fit
    bytes: Option<ArrayVec<u8, LONGEST>>,
}

impl LineBuffer {
    ghost use Rattle.lines.specs.Gathering.{Gathered};

    /// A buffer with no bytes.
    pub fn new() -> LineBuffer
        ensures made { Gathered result [] }
    {
        LineBuffer {
            bytes: Some(ArrayVec::new()),
        }
    }

    /// Takes one more byte of the line.
    pub fn push(&mut self, b: u8)
        ensures after { (xs : List ℕ) → Gathered self.old xs → Gathered self.new (xs ++ (b ∷ [])) }
    {
        if let Some(bytes) = &mut self.bytes
            && bytes.try_push(b).is_err()
        {
            self.bytes = None;
        }
    }

    /// Forgets the line, so that another can be gathered.
    pub fn clear(&mut self)
        ensures after { Gathered self.new [] }
    {
        *self = LineBuffer::new();
    }

    /// The line's bytes, unless there were too many.
    pub fn text(&self) -> Option<&[u8]>
        ensures cases { (xs : List ℕ) → Gathered self.now xs → MatchOption result (1000 < length xs) (λ text. (length xs ≤ 1000) × (text.now ≡ xs)) }
    {
        self.bytes.as_ref().map(ArrayVec::as_slice)
    }

    /// Whether no byte was pushed since the buffer was made or cleared.
    pub fn is_empty(&self) -> bool
        ensures cases { (xs : List ℕ) → Gathered self.now xs → Decides result (xs ≡ []) }
    {
        self.bytes.as_ref().is_some_and(ArrayVec::is_empty)
    }
}
