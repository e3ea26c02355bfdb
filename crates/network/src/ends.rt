ghost use Rattle.std.specs.Prelude.{None};
ghost use Rattle.rules.specs.Refusals.{ends_refusal, Checks};

use vocabulary::refusal::Refusal;

/// Whether a and b are two different members of 1 to n, as the ends of a link have to be.
pub fn check_ends(n: u32, a: u32, b: u32) -> Result<(), Refusal>
    ensures { Checks (ends_refusal n a b None) result }
{
    if !(1..=n).contains(&a) || !(1..=n).contains(&b) {
        return Err(Refusal::OutOfRange);
    }
    if a == b {
        return Err(Refusal::SameMember);
    }
    Ok(())
}
