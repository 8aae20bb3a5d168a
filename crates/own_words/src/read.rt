//! The values of what the words give.

ghost use Rattle.std.specs.Prelude.{◌≡◌, ◌≢◌, ◌<◌, ◌≤◌, ◌^◌, ℕ, ℤ, IfOk, IfErr, [], List, Option, map, codes};
ghost use Rattle.own_tree.specs.declared.command.Command.{Command};
ghost use Rattle.own_words.specs.Seen.{HasOwn, all_or_none, one_or_none, seen};
ghost use Rattle.own_words.specs.Words.{Text, AreInputs, AreIntegers, AreSteps, IsInteger, IsName, IsNameIfAny};
ghost use Rattle.own_words.specs.Words.{IsNatural, Takes, most_size, steps, outs, traces};
ghost use Rattle.own_words.specs.declared.error.WordsError.TheVariants as words_error;

use crate::error::WordsError;
use crate::given::Given;
use own_tree::{Bytes, Command, Row};
use std::alloc::Global;

/// The most steps that may be asked for, and how many there are where none are.
const MOST_STEPS: u64 = 9_223_372_036_854_775_807;

/// The largest size of a generated program.
const MOST_SIZE: u32 = 2_000;

/// The command of that name, of what the words behind it give. `clap` has refused options that are
/// not its own. `Usage` where the words give no such command, `Memory` where memory was refused.
pub(crate) fn command(alloc: Global, name: &str, given: &Given) -> Result<Command, WordsError>
    requires { HasOwn name.now (seen given.now) }
    ensures ok { IfOk result (λ c. Takes c name.now (seen given.now)) }
    ensures usage { IfErr result (λ e. e ≡ words_error.Usage
        → (c : Command) → Takes c name.now (seen given.now) → ⊥) }
{
    match name {
        "check" => check(alloc, given),
        "build" => build(alloc, given),
        "run" => run(alloc, given),
        "exec" => exec(alloc, given),
        "selftest" => selftest(given),
        _ => Err(WordsError::Usage),
    }
}

fn check(alloc: Global, given: &Given) -> Result<Command, WordsError>
    requires { (seen given.now steps ≡ []) × (seen given.now outs ≡ []) × (seen given.now traces ≡ []) }
    ensures ok { IfOk result (λ c. Takes c (codes "check") (seen given.now)) }
    ensures usage { IfErr result (λ e. e ≡ words_error.Usage
        → (c : Command) → Takes c (codes "check") (seen given.now) → ⊥) }
{
    let file = only_file(alloc, given.words)?;
    Ok(Command::Check(file))
}

fn build(alloc: Global, given: &Given) -> Result<Command, WordsError>
    requires { seen given.now steps ≡ [] }
    ensures ok { IfOk result (λ c. Takes c (codes "build") (seen given.now)) }
    ensures usage { IfErr result (λ e. e ≡ words_error.Usage
        → (c : Command) → Takes c (codes "build") (seen given.now) → ⊥) }
{
    let file = only_file(alloc, given.words)?;
    match file_name_if_any(alloc, given.out)? {
        Some(out) => Ok(Command::Build {
            file,
            out,
            trace: given.trace,
        }),
        None => Err(WordsError::Usage),
    }
}

fn run(alloc: Global, given: &Given) -> Result<Command, WordsError>
    ensures ok { IfOk result (λ c. Takes c (codes "run") (seen given.now)) }
    ensures usage { IfErr result (λ e. e ≡ words_error.Usage
        → (c : Command) → Takes c (codes "run") (seen given.now) → ⊥) }
{
    let (file, input) = file_and_input(alloc, given.words)?;
    let out = file_name_if_any(alloc, given.out)?;
    let steps = steps(given.steps)?;
    Ok(Command::Run {
        file,
        out,
        steps,
        trace: given.trace,
        input,
    })
}

fn exec(alloc: Global, given: &Given) -> Result<Command, WordsError>
    requires { (seen given.now outs ≡ []) × (seen given.now traces ≡ []) }
    ensures ok { IfOk result (λ c. Takes c (codes "exec") (seen given.now)) }
    ensures usage { IfErr result (λ e. e ≡ words_error.Usage
        → (c : Command) → Takes c (codes "exec") (seen given.now) → ⊥) }
{
    let (file, input) = file_and_input(alloc, given.words)?;
    let steps = steps(given.steps)?;
    Ok(Command::Exec { file, steps, input })
}

fn selftest(given: &Given) -> Result<Command, WordsError>
    requires { (seen given.now steps ≡ []) × (seen given.now outs ≡ []) × (seen given.now traces ≡ []) }
    ensures ok { IfOk result (λ c. Takes c (codes "selftest") (seen given.now)) }
    ensures usage { IfErr result (λ e. e ≡ words_error.Usage
        → (c : Command) → Takes c (codes "selftest") (seen given.now) → ⊥) }
{
    match given.words {
        Some([number, size]) => {
            let number = natural(number)?;
            let size = size_of(size)?;
            Ok(Command::Selftest { number, size })
        }
        _ => Err(WordsError::Usage),
    }
}

/// The one plain word, which names a file.
fn only_file(alloc: Global, words: Option<&[&str]>) -> Result<Bytes, WordsError>
    ensures ok { IfOk result (λ name. IsName (all_or_none words.entry) name) }
    ensures usage { IfErr result (λ e. e ≡ words_error.Usage
        → (name : Text) → IsName (all_or_none words.entry) name → ⊥) }
{
    match words {
        Some([file]) => file_name(alloc, file),
        _ => Err(WordsError::Usage),
    }
}

/// The plain words as a file and numbers.
fn file_and_input(alloc: Global, words: Option<&[&str]>) -> Result<(Bytes, Row<i64>), WordsError>
    ensures ok { IfOk result (λ p. AreInputs (all_or_none words.entry) p.0 p.1) }
    ensures usage { IfErr result (λ e. e ≡ words_error.Usage
        → (file : Text) (input : List ℤ) → AreInputs (all_or_none words.entry) file input → ⊥) }
{
    match words {
        Some([file, input @ ..]) => {
            let file = file_name(alloc, file)?;
            let input = integers(alloc, input)?;
            Ok((file, input))
        }
        _ => Err(WordsError::Usage),
    }
}

/// The value of an option that names a file, if the option stands.
fn file_name_if_any(alloc: Global, text: Option<&str>) -> Result<Option<Bytes>, WordsError>
    ensures ok { IfOk result (λ name. IsNameIfAny (one_or_none text.entry) name) }
    ensures usage { IfErr result (λ e. e ≡ words_error.Usage
        → (name : Option Text) → IsNameIfAny (one_or_none text.entry) name → ⊥) }
{
    match text {
        Some(text) => {
            let name = file_name(alloc, text)?;
            Ok(Some(name))
        }
        None => Ok(None),
    }
}

/// The name of a file, which is not empty.
fn file_name(alloc: Global, text: &str) -> Result<Bytes, WordsError>
    ensures ok { IfOk result (λ name. (name ≡ text.now) × (text.now ≢ [])) }
    ensures usage { IfErr result (λ e. e ≡ words_error.Usage → text.now ≡ []) }
{
    if text.is_empty() {
        return Err(WordsError::Usage);
    }
    Ok(Row::from_slice(alloc, text.as_bytes())?)
}

/// How many steps are asked for.
fn steps(text: Option<&str>) -> Result<u64, WordsError>
    ensures ok { IfOk result (λ n. AreSteps (one_or_none text.entry) n) }
    ensures usage { IfErr result (λ _. (n : ℕ) → AreSteps (one_or_none text.entry) n → ⊥) }
{
    match text {
        Some(text) => match text.parse::<u64>() {
            Ok(steps) if steps <= MOST_STEPS => Ok(steps),
            _ => Err(WordsError::Usage),
        },
        None => Ok(MOST_STEPS),
    }
}

fn integers(alloc: Global, texts: &[&str]) -> Result<Row<i64>, WordsError>
    ensures ok { IfOk result (λ input. AreIntegers (map (λ s. s.now) texts.now) input) }
    ensures usage { IfErr result (λ e. e ≡ words_error.Usage
        → (input : List ℤ) → AreIntegers (map (λ s. s.now) texts.now) input → ⊥) }
{
    let mut input = Row::new(alloc);
    for text in texts {
        let number = integer(text)?;
        input.push(number)?;
    }
    Ok(input)
}

fn integer(text: &str) -> Result<i64, WordsError>
    ensures ok { IfOk result (λ z. IsInteger text.now z) }
    ensures usage { IfErr result (λ _. (z : ℤ) → IsInteger text.now z → ⊥) }
{
    text.parse::<i64>().map_err(|_| WordsError::Usage)
}

fn natural(text: &str) -> Result<u32, WordsError>
    ensures ok { IfOk result (λ n. IsNatural text.now n × (n < 2 ^ 32)) }
    ensures usage { IfErr result (λ _. (n : ℕ) → IsNatural text.now n → n < 2 ^ 32 → ⊥) }
{
    text.parse::<u32>().map_err(|_| WordsError::Usage)
}

fn size_of(text: &str) -> Result<u32, WordsError>
    ensures ok { IfOk result (λ n. IsNatural text.now n × (1 ≤ n) × (n ≤ most_size)) }
    ensures usage { IfErr result (λ _. (n : ℕ) → IsNatural text.now n → 1 ≤ n → n ≤ most_size → ⊥) }
{
    let size = natural(text)?;
    if size < 1 || size > MOST_SIZE {
        return Err(WordsError::Usage);
    }
    Ok(size)
}
