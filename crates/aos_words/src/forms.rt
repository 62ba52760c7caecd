// The simple commands of clap that read the words.

ghost use Rattle.std.specs.Prelude.{◌≡◌, false, IfOk};
ghost use Rattle.clap.specs.Walk.{rule_of};
ghost use Rattle.clap.specs.Simple.{app_of};
ghost use Rattle.aos_words.specs.Forms.{option_rule, required_rule, flag_rule, files_rule, number_rule};
ghost use Rattle.aos_words.specs.Forms.{run_form, replay_form, files_form, gen_form};

use clap::{Arg, ArgAction, Command};
use std::alloc::{AllocError, Global};

// `--NAME VALUE`
fn option<'a>(alloc: Global, name: &'a str) -> Arg<'a>
    ensures rule { rule_of result ≡ option_rule name.entry.now }
    ensures local { result.global ≡ false }
{
    Arg::new(alloc, name).long(name)
}

// The same, where it has to be given.
fn required<'a>(alloc: Global, name: &'a str) -> Arg<'a>
    ensures rule { rule_of result ≡ required_rule name.entry.now }
    ensures local { result.global ≡ false }
{
    Arg::new(alloc, name).long(name).required(true)
}

// `--NAME`
fn flag<'a>(alloc: Global, name: &'a str) -> Arg<'a>
    ensures rule { rule_of result ≡ flag_rule name.entry.now }
    ensures local { result.global ≡ false }
{
    Arg::new(alloc, name).long(name).action(ArgAction::SetTrue)
}

// `FILE...`
fn files<'a>(alloc: Global) -> Arg<'a>
    ensures rule { rule_of result ≡ files_rule }
    ensures local { result.global ≡ false }
{
    Arg::new(alloc, "FILE").required(true).num_args(1..)
}

// `N`
fn number<'a>(alloc: Global) -> Arg<'a>
    ensures rule { rule_of result ≡ number_rule }
    ensures local { result.global ≡ false }
{
    Arg::new(alloc, "N").required(true)
}

/// `run [--workers n] [--budget b] [--log] FILE...`
pub fn run_form<'a>(alloc: Global) -> Result<Command<'a>, AllocError>
    ensures { IfOk result (λ c. app_of c ≡ run_form) }
{
    Command::new(alloc, "run")
        .arg(option(alloc, "workers"))?
        .arg(option(alloc, "budget"))?
        .arg(flag(alloc, "log"))?
        .arg(files(alloc))
}

/// `replay --script S [--watch] FILE...`
pub fn replay_form<'a>(alloc: Global) -> Result<Command<'a>, AllocError>
    ensures { IfOk result (λ c. app_of c ≡ replay_form) }
{
    Command::new(alloc, "replay")
        .arg(required(alloc, "script"))?
        .arg(flag(alloc, "watch"))?
        .arg(files(alloc))
}

/// `NAME FILE...`
pub fn files_form<'a>(alloc: Global, name: &'a str) -> Result<Command<'a>, AllocError>
    ensures { IfOk result (λ c. app_of c ≡ files_form name.entry.now) }
{
    Command::new(alloc, name).arg(files(alloc))
}

/// `gen [--workers n] N`
pub fn gen_form<'a>(alloc: Global) -> Result<Command<'a>, AllocError>
    ensures { IfOk result (λ c. app_of c ≡ gen_form) }
{
    Command::new(alloc, "gen")
        .arg(option(alloc, "workers"))?
        .arg(number(alloc))
}
