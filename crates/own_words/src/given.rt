ghost use Rattle.std.specs.Prelude.{◌≡◌};
ghost use Rattle.clap.specs.Matches.{found_of};
ghost use Rattle.clap.specs.Walk.{rows_of};
ghost use Rattle.own_words.specs.Held.{AreHeld};
ghost use Rattle.own_words.specs.Seen.{seen};
ghost use Rattle.own_words.specs.Words.{Given as Gives};

use clap::ArgMatches;

/// What the words after the first give.
#[derive(Clone, Copy)]
pub(crate) struct Given<'m, 'w> {
    /// The plain words, where there are any.
    pub(crate) words: Option<&'m [&'w str]>,
    /// The value of `--steps`.
    pub(crate) steps: Option<&'w str>,
    /// The value of `-o`.
    pub(crate) out: Option<&'w str>,
    /// Whether `--trace` stands.
    pub(crate) trace: bool,
}

/// What the matches of a command hold.
pub(crate) fn given_by<'m, 'w>(matches: &'m ArgMatches<'w>) -> Given<'m, 'w>
    ensures { (g : Gives) → AreHeld g (rows_of (found_of matches.now)) → seen result ≡ g }
{
    Given {
        words: matches.get_strs("words"),
        steps: matches.get_str("steps"),
        out: matches.get_str("out"),
        trace: matches.get_flag("trace"),
    }
}
