// Counts of trials.
ghost use Rattle.std.specs.Prelude.{◌≡◌};
ghost use Rattle.vectors.specs.Tallies.{tally};

use std::fmt;

/// How many trials there were, and how many agreed.
#[derive(Clone, Copy)]
pub struct Tally {
    pub tried: usize,
    pub agreed: usize,
}

impl Tally {
    /// Counts trials, each of which is given by whether it agreed.
    pub fn of(trials: &[bool]) -> Tally
        ensures { result ≡ tally trials.now }
    {
        Tally {
            tried: trials.len(),
            agreed: trials.iter().filter(|agreed| **agreed).count(),
        }
    }
}

impl fmt::Display for Tally {
    fn fmt<W: fmt::Write>(&self, f: &mut fmt::Formatter<W>) -> fmt::Result {
        let tried = self.tried;
        let agreed = self.agreed;
        write!(f, "{tried} tried, {agreed} agreed")
    }
}
