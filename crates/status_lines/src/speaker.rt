//! The two programs, as their lines name them.

ghost use Rattle.std.specs.Prelude.{◌≡◌};
ghost use Rattle.status_lines.specs.Lines.{speaker_text};

/// The program that prints a line. Each line begins with its name.
#[derive(Clone, Copy, Debug, PartialEq, Eq)]
pub enum Speaker {
    /// The program that repairs a table.
    Alod,
    /// The program that checks a run of the other.
    Alodcheck,
}

impl Speaker {
    /// The name of the program.
    pub fn name(&self) -> &'static str
        ensures { result.now ≡ speaker_text self.now }
    {
        match self {
            Speaker::Alod => "alod",
            Speaker::Alodcheck => "alodcheck",
        }
    }
}
