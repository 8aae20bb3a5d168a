//! What a walk over a text finds.

ghost use Rattle.std.specs.Prelude.{◌≡◌};
ghost use Rattle.own_survey.specs.Judgements.{nothing, with_body, with_taken, with_fault, earlier, code_of};

use own_shapes::Counted;
use own_tree::Span;
use own_tree::limits::{MOST_BODIES, MOST_PARAMETERS};

/// What a written type name names.
#[derive(Clone, Copy, Debug, PartialEq, Eq)]
pub enum Written {
    Unknown,
    Copyable,
    /// A type that is declared `: ~Copyable` (SE-0390).
    Noncopyable,
}

/// A judgement of the type table.
#[derive(Clone, Copy, Debug, PartialEq, Eq)]
pub enum Judgement {
    /// A type name is `Int`, `Bool` or declared.
    KnownType,
    /// Names of one scope are different.
    DifferentNames,
    /// No type contains itself.
    FiniteType,
    /// A copyable type has copyable parts.
    CopyableParts,
    /// A `deinit` stands in a noncopyable struct, once; an `init` stands once.
    Lifetime,
    /// A noncopyable parameter has a modifier; a copyable one has none or `inout`.
    ParameterModifier,
    /// A method of a copyable type has no modifier or `mutating`.
    MethodModifier,
    /// Some names are not declared at the top, and `func main()` is.
    TopNames,
}

impl Judgement {
    /// Its number: 1 for T01, and so on.
    pub fn code(self) -> u8
        ensures { result ≡ code_of self }
    {
        match self {
            Judgement::KnownType => 1,
            Judgement::DifferentNames => 2,
            Judgement::FiniteType => 3,
            Judgement::CopyableParts => 4,
            Judgement::Lifetime => 5,
            Judgement::ParameterModifier => 6,
            Judgement::MethodModifier => 7,
            Judgement::TopNames => 8,
        }
    }
}

/// A judgement that is false, and where.
#[derive(Clone, Copy, Debug, PartialEq, Eq)]
pub struct Fault {
    pub judgement: Judgement,
    pub at: Span,
}

/// What was found so far.
#[derive(Clone, Copy, Debug, PartialEq, Eq)]
pub struct Survey {
    /// How many bodies there are, where that is below 2^64.
    pub bodies: u64,
    /// The first body past M6.
    pub extra_body: Option<Span>,
    /// The first body, case or call of `print` that is past M7.
    pub taken: Option<Counted>,
    /// The judgement that is false at the earliest place.
    pub fault: Option<Fault>,
}

/// The earlier of two faults in the text, and the first of two at one place.
pub(crate) fn earlier_fault(first: Option<Fault>, second: Option<Fault>) -> Option<Fault>
    ensures { result ≡ earlier first second }
{
    match (first, second) {
        (Some(a), Some(b)) => Some(if b.at.start < a.at.start { b } else { a }),
        (Some(a), None) => Some(a),
        (None, other) => other,
    }
}

impl Survey {
    /// Nothing was found yet.
    pub(crate) fn new() -> Survey
        ensures { result ≡ nothing }
    {
        Survey {
            bodies: 0,
            extra_body: None,
            taken: None,
            fault: None,
        }
    }

    /// A body at its place.
    pub(crate) fn note_body(&mut self, at: Span)
        ensures { self.new ≡ with_body self.old at }
    {
        if self.bodies == MOST_BODIES as u64 {
            self.extra_body = Some(at);
        }
        self.bodies = self.bodies.saturating_add(1);
    }

    /// A body, a case or a call of `print`, with the number of what it takes.
    pub(crate) fn note_taken(&mut self, count: usize, at: Span)
        ensures { self.new ≡ with_taken self.old count at }
    {
        if self.taken.is_none() && MOST_PARAMETERS < count {
            self.taken = Some(Counted {
                count: count as u64,
                at,
            });
        }
    }

    /// What is false of a part.
    pub(crate) fn note_fault(&mut self, fault: Option<Fault>)
        ensures { self.new ≡ with_fault self.old fault }
    {
        self.fault = earlier_fault(self.fault, fault);
    }
}
