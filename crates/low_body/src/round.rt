ghost use Rattle.std.specs.Prelude.{◌≡◌, ◌≤◌, ◌+◌};
ghost use Rattle.core_form.specs.declared.limits.TheConstants.{MOST_JUMPED, MOST_DEPTH};
ghost use Rattle.low_laws.specs.Lower.{label};
ghost use Rattle.low_body.specs.RoundView.{round_view, labels_in};

/// What stands round code, the innermost first. A block or a loop is a label of the core and of the machine
/// (Core 1.0, 2.4.5), an if one of the machine alone.
#[derive(Clone, Copy)]
pub(crate) enum Round<'a> {
    Bare,
    Block(&'a Round<'a>),
    If(&'a Round<'a>),
}

/// The machine's label of the block or loop that is so many farther out than the innermost.
pub(crate) fn label(round: &Round<'_>, jumped: u32) -> u32
    requires small { jumped ≤ MOST_JUMPED }
    requires depth { labels_in (round_view round.now) ≤ MOST_DEPTH }
    ensures value { result ≡ label (round_view round.now) jumped }
    ensures within { result ≤ jumped + labels_in (round_view round.now) }
{
    match round {
        Round::Bare => jumped,
        Round::Block(_) if jumped == 0 => 0,
        Round::Block(outer) => label(outer, jumped - 1) + 1,
        Round::If(outer) => label(outer, jumped) + 1,
    }
}
