ghost use Rattle.std.specs.Prelude.{◌≡◌, ℕ, ◌≤◌, List, [], ◌∷◌, length, Some, None, ◌≢◌, All};
ghost use Rattle.command.specs.Grammar.{Digit, number_written};
ghost use Rattle.command.specs.Scan.{Counted, Field, ModelField};
ghost use Rattle.vocabulary.specs.declared.model_kind.ModelKind.{ModelKind};

use vocabulary::model_kind::ModelKind;

/// A number has at most so many digits.
const MOST_DIGITS: usize = 7;

/// What stands behind the space in front.
fn after_space(s: &[u8]) -> Option<&[u8]>
    ensures { elim result [ Some rest ↦ s.now ≡ 32 ∷ rest.now | None ↦ ((rest : List ℕ) → s.now ≢ 32 ∷ rest) ] }
{
    s.strip_prefix(b" ")
}

/// How many digits stand in front.
fn digits(s: &[u8]) -> usize
    ensures { Counted s.now result }
{
    s.iter()
        .position(|b| !b.is_ascii_digit())
        .unwrap_or(s.len())
}

/// The number that the digits write.
fn value(s: &[u8]) -> u32
    requires few { length s.now ≤ 7 }
    requires digits { All Digit s.now }
    ensures { result ≡ number_written s.now }
{
    s.iter().fold(0, |v, b| v * 10 + u32::from(*b - b'0'))
}

/// One space and one to seven digits, with what is left behind the last digit.
pub(crate) fn field(s: &[u8]) -> Option<(u32, &[u8])>
    ensures { elim result [ Some x ↦ Field s.now x.0 x.1.now | None ↦ ((x : ℕ) (more : List ℕ) → Field s.now x more → ⊥) ] }
{
    let rest = after_space(s)?;
    let n = digits(rest);
    // two tests: with `contains` the check leaves two goals of this function open
    if n == 0 || n > MOST_DIGITS {
        return None;
    }
    let (front, after) = rest.split_at(n);
    Some((value(front), after))
}

/// One space and one to seven digits, with nothing behind them.
pub(crate) fn last_field(s: &[u8]) -> Option<u32>
    ensures { elim result [ Some x ↦ Field s.now x [] | None ↦ ((x : ℕ) → Field s.now x [] → ⊥) ] }
{
    match field(s)? {
        (x, []) => Some(x),
        _ => None,
    }
}

/// One space and one model letter, with what is left behind it.
pub(crate) fn model_field(s: &[u8]) -> Option<(ModelKind, &[u8])>
    ensures { elim result [ Some x ↦ ModelField s.now x.0 x.1.now | None ↦ ((m : ModelKind) (more : List ℕ) → ModelField s.now m more → ⊥) ] }
{
    let (letter, after) = after_space(s)?.split_first()?;
    Some((ModelKind::try_from(*letter).ok()?, after))
}
