//! What `clap` is told of the command line: no help, no version, and a subcommand for each command.
//! The numbers and the names of files are read from its matches.

ghost use Rattle.std.specs.Prelude.{◌≡◌, IfOk, false};
ghost use Rattle.clap.specs.Walk.{rule_of};
ghost use Rattle.clap.specs.Simple.{app_of};
ghost use Rattle.own_words.specs.Told.{IsTold, words_rule, steps_rule, out_rule, trace_rule};
ghost use Rattle.own_words.specs.Told.{bare_app, check_app, build_app, run_app, exec_app, selftest_app, line_app};

use clap::{Arg, ArgAction, Command};
use std::alloc::{AllocError, Global};

/// The command line of the program.
pub(crate) fn line<'a>(alloc: Global) -> Result<Command<'a>, AllocError>
    ensures { IfOk result (λ c. app_of c ≡ line_app) }
{
    bare(alloc)
        .subcommand(check(alloc)?)?
        .subcommand(build(alloc)?)?
        .subcommand(run(alloc)?)?
        .subcommand(exec(alloc)?)?
        .subcommand(selftest(alloc)?)
}

fn bare<'a>(alloc: Global) -> Command<'a>
    ensures { IsTold bare_app result }
{
    Command::new(alloc, "swiftown")
        .no_binary_name(true)
        .disable_help_flag(true)
        .disable_help_subcommand(true)
        .disable_version_flag(true)
        .subcommand_required(true)
}

fn check<'a>(alloc: Global) -> Result<Command<'a>, AllocError>
    ensures { IfOk result (λ c. IsTold check_app c) }
{
    Command::new(alloc, "check").arg(words(alloc))
}

fn build<'a>(alloc: Global) -> Result<Command<'a>, AllocError>
    ensures { IfOk result (λ c. IsTold build_app c) }
{
    Command::new(alloc, "build")
        .arg(words(alloc))?
        .arg(out(alloc))?
        .arg(trace(alloc))
}

fn run<'a>(alloc: Global) -> Result<Command<'a>, AllocError>
    ensures { IfOk result (λ c. IsTold run_app c) }
{
    Command::new(alloc, "run")
        .arg(words(alloc))?
        .arg(steps(alloc))?
        .arg(out(alloc))?
        .arg(trace(alloc))
}

fn exec<'a>(alloc: Global) -> Result<Command<'a>, AllocError>
    ensures { IfOk result (λ c. IsTold exec_app c) }
{
    Command::new(alloc, "exec")
        .arg(words(alloc))?
        .arg(steps(alloc))
}

fn selftest<'a>(alloc: Global) -> Result<Command<'a>, AllocError>
    ensures { IfOk result (λ c. IsTold selftest_app c) }
{
    Command::new(alloc, "selftest").arg(words(alloc))
}

fn words<'a>(alloc: Global) -> Arg<'a>
    ensures { (rule_of result ≡ words_rule) × (result.global ≡ false) }
{
    Arg::new(alloc, "words").action(ArgAction::Append)
}

fn steps<'a>(alloc: Global) -> Arg<'a>
    ensures { (rule_of result ≡ steps_rule) × (result.global ≡ false) }
{
    Arg::new(alloc, "steps")
        .long("steps")
        .action(ArgAction::Set)
}

fn out<'a>(alloc: Global) -> Arg<'a>
    ensures { (rule_of result ≡ out_rule) × (result.global ≡ false) }
{
    Arg::new(alloc, "out").short('o').action(ArgAction::Set)
}

fn trace<'a>(alloc: Global) -> Arg<'a>
    ensures { (rule_of result ≡ trace_rule) × (result.global ≡ false) }
{
    Arg::new(alloc, "trace")
        .long("trace")
        .action(ArgAction::SetTrue)
}
