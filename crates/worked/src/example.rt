ghost use Rattle.std.specs.Prelude.{◌≡◌};
ghost use Rattle.rules.specs.Worked.{WorkedFacts};

/// A small network that is written down.
#[derive(Clone, Copy, Debug, PartialEq, Eq)]
pub enum Example {
    /// 1 linked to each of 2 3 4 5
    Star,
    /// the triangles 1 2 3 and 4 5 6, with 1 linked to 4, 2 to 5 and 3 to 6
    Prism,
    /// each of 1 2 3 linked to each of 4 5 6
    TwoRows,
    /// 2 linked to 1 and to 3
    Path,
}

impl Example {
    ghost use Rattle.worked.specs.Examples.{network_of};

    /// How many members there are.
    pub fn members(self) -> u32
        ensures { result ≡ (network_of self).members }
    {
        match self {
            Example::Star => 5,
            Example::Prism | Example::TwoRows => 6,
            Example::Path => 3,
        }
    }

    /// The links, each once, by its two ends.
    #[tactic(auto, using(rules::proofs::Worked::worked_facts))]
    pub fn links(self) -> &'static [(u32, u32)]
        ensures value { result.now ≡ (network_of self).links }
        ensures facts { WorkedFacts }
    {
        match self {
            Example::Star => &[(1, 2), (1, 3), (1, 4), (1, 5)],
            Example::Prism => &[
                (1, 2),
                (1, 3),
                (2, 3),
                (4, 5),
                (4, 6),
                (5, 6),
                (1, 4),
                (2, 5),
                (3, 6),
            ],
            Example::TwoRows => &[
                (1, 4),
                (1, 5),
                (1, 6),
                (2, 4),
                (2, 5),
                (2, 6),
                (3, 4),
                (3, 5),
                (3, 6),
            ],
            Example::Path => &[(1, 2), (2, 3)],
        }
    }
}
