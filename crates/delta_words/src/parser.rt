//! The command as clap reads it, built from what each command takes.

ghost use Rattle.std.specs.Prelude.{◌≡◌, ◌≢◌, [], false, map, string_bytes, IfOk, IfErr};
ghost use Rattle.clap.specs.Words.{App, app_of, rule_of, with_subcommand, fault_of, subcommand_of, subcommand_rows_of};
ghost use Rattle.clap.specs.declared.builder.Command.TheViews.{out-Command as fields_of};
ghost use Rattle.delta_words.specs.ClapCommand.{Make, delta_app, delta_top, leaf_app, operand_that, option_that, with_rule_if, with_rules_of};
ghost use Rattle.delta_words.specs.Commands.{takes_of};

use crate::command::{Command, Takes};
use crate::fault::WordsFault;
use clap::error::ErrorKind;
use clap::{Arg, ArgAction, ArgMatches, Command as Parser};
use std::alloc::{AllocError, Global};

// The arguments with one more, where that is wanted.
#[tactic(auto, unfolding(crate::specs::ClapCommand::with_rule_if))]
fn with_arg_if<'a>(
    given: Result<Vec<Arg<'a>>, AllocError>,
    wanted: bool,
    arg: Arg<'a>,
) -> Result<Vec<Arg<'a>>, AllocError>
    requires { arg.global ≡ false }
    ensures { (bare app : App) → IfOk given.entry (λ args. Make bare args.items app) → IfOk result (λ args. Make bare args.items (with_rule_if wanted app (rule_of arg.entry))) }
{
    match given {
        Ok(mut args) if wanted => {
            args.push(arg)?;
            Ok(args)
        }
        given => {
            drop(arg);
            given
        }
    }
}

// An operand, which must stand there where that is said.
fn operand<'a>(alloc: Global, id: &'a str, must: bool, action: ArgAction) -> Arg<'a>
    ensures rule { rule_of result ≡ operand_that id.entry.now must action }
    ensures local { result.global ≡ false }
{
    Arg::new(alloc, id).required(must).action(action)
}

// An option of this name.
fn option<'a>(alloc: Global, id: &'a str, action: ArgAction) -> Arg<'a>
    ensures rule { rule_of result ≡ option_that id.entry.now action }
    ensures local { result.global ≡ false }
{
    Arg::new(alloc, id).long(id).action(action)
}

// What a subcommand takes, as arguments.
fn arguments<'a>(alloc: Global, takes: Takes) -> Result<Vec<Arg<'a>>, AllocError>
    ensures { (bare : App) → IfOk result (λ args. Make bare args.items (with_rules_of takes bare)) }
{
    let none = Ok(Vec::new(alloc));
    let first = operand(alloc, "FIRST", true, ArgAction::Set);
    let one = with_arg_if(none, takes.operands > 0, first);
    let second = operand(alloc, "SECOND", true, ArgAction::Set);
    let two = with_arg_if(one, takes.operands > 1, second);
    let rest = operand(alloc, "REST", takes.operands > 2, ArgAction::Append);
    let all = with_arg_if(two, takes.most > 2, rest);
    let budget = option(alloc, "budget", ArgAction::Set);
    let with_budget = with_arg_if(all, takes.budget, budget);
    let v2 = option(alloc, "v2", ArgAction::SetTrue);
    let with_v2 = with_arg_if(with_budget, takes.v2, v2);
    let frames = option(alloc, "frames", ArgAction::SetTrue);
    with_arg_if(with_v2, takes.frames, frames)
}

// The subcommand of a name.
fn leaf<'a>(alloc: Global, name: &'a str, takes: Takes) -> Result<Parser<'a>, AllocError>
    ensures app { IfOk result (λ c. app_of c ≡ leaf_app name.entry.now takes) }
    ensures local { IfOk result (λ c. (fields_of c).has_globals ≡ false) }
{
    match arguments(alloc, takes) {
        Ok(args) => Parser::new(alloc, name).args(args),
        Err(error) => Err(error),
    }
}

// The command with one subcommand more.
fn with_sub<'a>(
    parser: Parser<'a>,
    sub: Result<Parser<'a>, AllocError>,
) -> Result<Parser<'a>, AllocError>
    requires { IfOk sub (λ c. (fields_of c).has_globals ≡ false) }
    ensures { (a : App) → IfOk sub.entry (λ c. app_of c ≡ a) → IfOk result (λ c. app_of c ≡ with_subcommand (app_of parser.entry) a.top) }
{
    match sub {
        Ok(sub) => parser.subcommand(sub),
        Err(error) => {
            drop(parser);
            Err(error)
        }
    }
}

// The command with the subcommand of a name.
fn with_command<'a>(
    alloc: Global,
    given: Result<Parser<'a>, AllocError>,
    name: &'a str,
    command: Command,
) -> Result<Parser<'a>, AllocError>
    ensures { (a : App) → IfOk given.entry (λ c. app_of c ≡ a) → IfOk result (λ c. app_of c ≡ with_subcommand a (leaf_app name.entry.now (takes_of command)).top) }
{
    match given {
        Ok(parser) => with_sub(parser, leaf(alloc, name, command.takes())),
        Err(error) => Err(error),
    }
}

// The command alone.
fn top<'a>(alloc: Global) -> Parser<'a>
    ensures { app_of result ≡ delta_top }
{
    Parser::new(alloc, "delta")
        .no_binary_name(true)
        .disable_help_flag(true)
        .disable_help_subcommand(true)
        .disable_version_flag(true)
        .subcommand_required(true)
}

// The whole command.
fn delta_command<'a>(alloc: Global) -> Result<Parser<'a>, AllocError>
    ensures { IfOk result (λ c. app_of c ≡ delta_app) }
{
    let run = with_command(alloc, Ok(top(alloc)), "run", Command::Run);
    let eval = with_command(alloc, run, "eval", Command::Eval);
    let check = with_command(alloc, eval, "check", Command::Check);
    let print = with_command(alloc, check, "print", Command::Print);
    let text = with_command(alloc, print, "text", Command::Text);
    let load = with_command(alloc, text, "gen", Command::Gen);
    let bound = with_command(alloc, load, "bound", Command::Bound);
    let derive = with_command(alloc, bound, "derive", Command::Derive);
    let feed = with_command(alloc, derive, "feed", Command::Feed);
    let save = with_command(alloc, feed, "save", Command::Save);
    with_command(alloc, save, "resume", Command::Resume)
}

/// What clap finds in the words.
pub fn find_matches<'a>(alloc: Global, words: &'a [String]) -> Result<ArgMatches<'a>, WordsFault>
    ensures taken { IfOk result (λ m. fault_of delta_app (map string_bytes words.entry.now) ≡ []) }
    ensures rows { IfOk result (λ m. subcommand_rows_of m ≡ subcommand_of delta_app (map string_bytes words.entry.now)) }
    ensures usage { IfErr result (λ e. e ≡ WordsFault.Usage → fault_of delta_app (map string_bytes words.entry.now) ≢ []) }
{
    let Ok(parser) = delta_command(alloc) else {
        return Err(WordsFault::Memory);
    };
    match parser.try_get_matches_from(words) {
        Ok(matches) => Ok(matches),
        Err(error) => {
            if matches!(error.kind(), ErrorKind::OutOfMemory) {
                Err(WordsFault::Memory)
            } else {
                Err(WordsFault::Usage)
            }
        }
    }
}
