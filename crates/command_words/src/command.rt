//! The commands of `clap` that read the words of the two programs.
ghost use Rattle.std.specs.Prelude.{◌≡◌, IfOk, false};
ghost use Rattle.clap.specs.Words.{app_of, rule_of};
ghost use Rattle.command_words.specs.Inside.Rules.{app, bare_app, flag_rule, names_rule, setting_rule};

use crate::Program;
use clap::{Arg, ArgAction, Command};
use std::alloc::{AllocError, Global};

/// An option without a value, which may stand once.
fn flag<'a>(alloc: Global, name: &'a str) -> Arg<'a>
    ensures rule { rule_of result ≡ flag_rule name.entry.now }
    ensures local { result.global ≡ false }
{
    Arg::new(alloc, name).long(name).action(ArgAction::SetTrue)
}

/// An option with one value of any text, which may stand once.
fn setting<'a>(alloc: Global, name: &'a str) -> Arg<'a>
    ensures rule { rule_of result ≡ setting_rule name.entry.now }
    ensures local { result.global ≡ false }
{
    Arg::new(alloc, name).long(name).action(ArgAction::Set)
}

/// The names, as many as there are.
fn names<'a>(alloc: Global) -> Arg<'a>
    ensures rule { rule_of result ≡ names_rule }
    ensures local { result.global ≡ false }
{
    Arg::new(alloc, "names").action(ArgAction::Append)
}

/// A command without options, whose words begin with the first after the program's own name.
fn bare_command<'a>(alloc: Global) -> Command<'a>
    ensures { app_of result ≡ bare_app }
{
    Command::new(alloc, "alod")
        .no_binary_name(true)
        .disable_help_flag(true)
        .disable_version_flag(true)
}

/// The command of `alod`.
fn repair_command<'a>(alloc: Global) -> Result<Command<'a>, AllocError>
    ensures { IfOk result (λ command. app_of command ≡ app Program.Repair) }
{
    let workers = setting(alloc, "workers");
    let made = setting(alloc, "made");
    let el_part = flag(alloc, "el-part");
    let names = names(alloc);
    let command = bare_command(alloc).arg(workers)?;
    let command = command.arg(made)?;
    let command = command.arg(el_part)?;
    command.arg(names)
}

/// The command of `alodcheck`.
fn check_command<'a>(alloc: Global) -> Result<Command<'a>, AllocError>
    ensures { IfOk result (λ command. app_of command ≡ app Program.Check) }
{
    let refused = flag(alloc, "refused");
    let el_part = flag(alloc, "el-part");
    let names = names(alloc);
    let command = bare_command(alloc).arg(refused)?;
    let command = command.arg(el_part)?;
    command.arg(names)
}

/// The command of a program.
pub fn command<'a>(alloc: Global, program: Program) -> Result<Command<'a>, AllocError>
    ensures { IfOk result (λ command. app_of command ≡ app program) }
{
    match program {
        Program::Repair => repair_command(alloc),
        Program::Check => check_command(alloc),
    }
}
