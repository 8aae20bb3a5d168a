//! Words and what they are, in one table.

use crate::{WordsError, read_words};
use own_tree::{Bytes, Command};
use std::alloc::Global;
use std::test::Fail;

/// Words with `|` between them, and the command as text, or `-` where they are none.
static CASES: [(&str, &str); 52] = [
    ("check|a", "check a"),
    ("check|--|a", "check a"),
    ("check|a|--", "check a"),
    ("check|-", "check -"),
    ("check|--|-x", "check -x"),
    ("check|--|--", "check --"),
    ("check|", "-"),
    ("check", "-"),
    ("check|a|b", "-"),
    ("check|a|--|--", "-"),
    ("check|--trace|a", "-"),
    ("build|a|-o|b", "build a b false"),
    ("build|-ob|--trace|a", "build a b true"),
    ("build|a|-o=b", "build a b false"),
    ("build|a|-o==b", "build a =b false"),
    ("build|a|-o|-", "build a - false"),
    ("build|a|-o=", "-"),
    ("build|a|-o|", "-"),
    ("build|a|-o", "-"),
    ("build|a|-o|--|b", "-"),
    ("build|a|-o|-b", "-"),
    ("build|a", "-"),
    ("build|a|-ob|-ob", "-"),
    ("build|a|-ob|--steps=5", "-"),
    ("build|a|-ob|--trace|--trace", "-"),
    ("build|a|-ob|--trace=x", "-"),
    ("run|a", "run a 9223372036854775807 false"),
    ("run|a|--steps=5", "run a 5 false"),
    ("run|--steps|+5|a|1|--trace|2", "run a 5 true 1 2"),
    ("run|a|-ob|+1", "run a -o b 9223372036854775807 false 1"),
    (
        "run|a|--|-9223372036854775808|9223372036854775807",
        "run a 9223372036854775807 false -9223372036854775808 9223372036854775807",
    ),
    ("run|a|--|-9223372036854775809", "-"),
    ("run|a|9223372036854775808", "-"),
    ("run|a|-2", "-"),
    ("run|a|", "-"),
    ("run|a|--steps|5|--steps|6", "-"),
    ("run|a|--step|5", "-"),
    ("run|a|--steps", "-"),
    ("run|a|--steps=", "-"),
    ("run|a|--steps|-5", "-"),
    (
        "exec|a|--steps=9223372036854775807|--|-1",
        "exec a 9223372036854775807 -1",
    ),
    ("exec|a|--steps=9223372036854775808", "-"),
    ("exec|a|-ob", "-"),
    ("exec|a|-é", "-"),
    ("selftest|4294967295|+2000", "selftest 4294967295 2000"),
    ("selftest|4294967296|1", "-"),
    ("selftest|1|0", "-"),
    ("selftest|1|2001", "-"),
    ("selftest|--|-0|1", "-"),
    ("--help|check", "-"),
    ("--|check|a", "-"),
    ("help", "-"),
];

fn name(bytes: &Bytes) -> &str {
    std::str::from_utf8(bytes.as_slice()).unwrap_or("?")
}

fn numbers(alloc: Global, line: &mut String, input: &[i64]) -> Result<(), Fail> {
    for number in input {
        line.push_str(format!(in alloc; " {number}")?.as_str())?;
    }
    Ok(())
}

fn shown(alloc: Global, command: &Command) -> Result<String, Fail> {
    match command {
        Command::Check(file) => Ok(format!(in alloc; "check {}", name(file))?),
        Command::Build { file, out, trace } => {
            Ok(format!(in alloc; "build {} {} {trace}", name(file), name(out))?)
        }
        Command::Run {
            file,
            out,
            steps,
            trace,
            input,
        } => {
            let mut line = format!(in alloc; "run {}", name(file))?;
            if let Some(out) = out {
                line.push_str(format!(in alloc; " -o {}", name(out))?.as_str())?;
            }
            line.push_str(format!(in alloc; " {steps} {trace}")?.as_str())?;
            numbers(alloc, &mut line, input.as_slice())?;
            Ok(line)
        }
        Command::Exec { file, steps, input } => {
            let mut line = format!(in alloc; "exec {} {steps}", name(file))?;
            numbers(alloc, &mut line, input.as_slice())?;
            Ok(line)
        }
        Command::Selftest { number, size } => Ok(format!(in alloc; "selftest {number} {size}")?),
    }
}

#[test]
fn words_are_commands(rt: HostRuntime) -> Result<(), Fail> {
    let alloc = rt.alloc();
    for (line, wanted) in &CASES {
        let mut words = Vec::new(alloc);
        for word in line.split('|') {
            words.push(String::from_str(alloc, word)?)?;
        }
        match read_words(alloc, words.as_slice()) {
            Ok(command) => assert_eq!(rt; shown(alloc, &command)?.as_str(), *wanted),
            Err(error) => {
                assert_eq!(rt; error, WordsError::Usage);
                assert_eq!(rt; *wanted, "-");
            }
        }
    }
    assert_eq!(rt; read_words(alloc, &[]).err(), Some(WordsError::Usage));
    Ok(())
}
