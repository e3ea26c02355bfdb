ghost use Rattle.std.specs.Prelude.{◌≡◌, ℕ};
ghost use Rattle.rules.specs.Links.{Links, LawfulLinks};
ghost use Rattle.rules.specs.Models.{Meaning, LawfulModel};
ghost use Rattle.network.specs.Parts.{links_in, set_in};

use network::induced::Induced;

/// A model answers two questions about the members of a set; its meaning is these answers.
pub trait GroupModel {
    ghost meaning: { Self → Meaning };

    /// Whether the member a fits the set.
    fn fits(&self, part: &Induced<'_>, a: u32) -> bool
        ensures { result ≡ (meaning self.now).fits (links_in part.now) (set_in part.now) a };

    /// Whether the two different members a and b pair in the set.
    fn pair(&self, part: &Induced<'_>, a: u32, b: u32) -> bool
        ensures { result ≡ (meaning self.now).pairs (links_in part.now) (set_in part.now) a b };

    ghost lawful: { (m : Self) (n : ℕ) (l : Links) → LawfulLinks n l → LawfulModel n l (meaning m) };
}
