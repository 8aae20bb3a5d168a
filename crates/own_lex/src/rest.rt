ghost use Rattle.std.specs.Prelude.{◌≡◌};
ghost use Rattle.own_tree.specs.Characters as spec;
ghost use Rattle.own_tree.specs.Characters.{bytes_of};

/// What is left of a text: its characters, and the number of bytes that they take.
#[derive(Clone, Copy)]
pub(crate) struct Rest<'a> {
    pub(crate) chars: &'a [char],
    pub(crate) left: u32,
    ghost counted: { left ≡ bytes_of chars.now },
}

impl<'a> Rest<'a> {
    ghost use Rattle.std.specs.Prelude.{◌≤◌, ◌<◌, false, drop};

    /// What is left after the first character, if there is one.
    #[tactic(auto, using(crate::proofs::Left::bytes_of_cons))]
    pub(crate) fn after(self) -> Rest<'a>
        ensures value { result.chars.now ≡ spec.after self.entry.chars.now }
        ensures within { result.left ≤ self.entry.left }
        ensures shorter { spec.is_over self.entry.chars.now ≡ false → result.left < self.entry.left }
    {
        let Some((c, chars)) = self.chars.split_first() else {
            return self;
        };
        Rest {
            chars,
            left: self.left - c.len_utf8() as u32,
        }
    }

    pub(crate) fn is_over(self) -> bool
        ensures { result ≡ spec.is_over self.entry.chars.now }
    {
        self.chars.is_empty()
    }

    pub(crate) fn first(self) -> Option<char>
        ensures { result ≡ spec.first self.entry.chars.now }
    {
        self.chars.first().copied()
    }

    /// What is left after so many characters, or nothing where there are fewer.
    #[tactic(auto, using(crate::proofs::Steps::drop_goes, crate::proofs::Steps::drop_over))]
    pub(crate) fn skip(self, count: usize) -> Rest<'a>
        ensures value { result.chars.now ≡ drop count self.entry.chars.now }
        ensures within { result.left ≤ self.entry.left }
    {
        let mut rest = self;
        let mut more = count;
        while more > 0 {
            rest = rest.after();
            more -= 1;
        }
        rest
    }

    /// Whether the text begins with these ASCII characters.
    pub(crate) fn begins(self, start: &str) -> bool
        ensures { result ≡ spec.begins start.now self.entry.chars.now }
    {
        begins(self.chars, start.as_bytes())
    }
}

/// Whether the characters begin with these ASCII ones. It calls itself once for each byte of `start`.
fn begins(chars: &[char], start: &[u8]) -> bool
    ensures { result ≡ spec.begins start.now chars.now }
{
    let Some((b, others)) = start.split_first() else {
        return true;
    };
    match chars.split_first() {
        Some((c, chars)) => *c as u32 == u32::from(*b) && begins(chars, others),
        None => false,
    }
}
