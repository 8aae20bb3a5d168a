use anyhow::bail;
use std::str::FromStr;

/// A kind of problem.
#[derive(Clone, Copy)]
pub enum Kind {
    /// A pattern for each case of an enum, which says nothing of the payloads.
    Cases,
    /// A pattern for each case of an enum, which has a literal at each payload.
    Truths,
    /// Patterns of one case, which have three literals each.
    Clauses,
    /// Patterns of a chain of enums, which name a case at each level.
    Nested,
    /// Patterns with a truth each, beside the only case of an enum.
    Single,
    /// A pattern for each case of an enum, among types that are a chain of structs.
    Structs,
    /// Patterns that each have two truths, at places that lie far apart.
    Pairs,
}

impl FromStr for Kind {
    type Err = anyhow::Error;

    fn from_str(word: &str) -> anyhow::Result<Kind> {
        match word {
            "cases" => Ok(Kind::Cases),
            "truths" => Ok(Kind::Truths),
            "clauses" => Ok(Kind::Clauses),
            "nested" => Ok(Kind::Nested),
            "single" => Ok(Kind::Single),
            "structs" => Ok(Kind::Structs),
            "pairs" => Ok(Kind::Pairs),
            _ => bail!(
                "no kind of problem: cases, truths, clauses, nested, single, structs or pairs"
            ),
        }
    }
}
