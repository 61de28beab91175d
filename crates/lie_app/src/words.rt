// The words of a command line, and the command that they are.
ghost use Rattle.std.specs.Prelude.{◌≡◌, ◌≤◌, [], map, IfOk, IfSome, option_map, false};
ghost use Rattle.clap.specs.Words.{app_of, found_of, rows_of, rule_of, subcommand_rows_of};
ghost use Rattle.lie_analysis.specs.Limits.{greatest_budget};
ghost use Rattle.lie_degree.specs.Columns.{greatest_degree};
ghost use Rattle.lie_app.specs.Words.{texts, in_words, command_of, budget_of, number_in, degree_in, member_in, count_in, name_in};
ghost use Rattle.lie_app.specs.Words.{study_of, study_name_in, sample_of, serve_of, HasNumbers, IsReady, IsNoOtherWord};
ghost use Rattle.lie_outer.specs.Names.{IsStudyName};
ghost use Rattle.lie_sample.specs.Family.{least_member, greatest_member};
ghost use Rattle.clap.specs.Walk.{first_of};
ghost use Rattle.lie_app.specs.Interface.{argument, option, interface, subcommand, has_globals, named_met, command_met};

use clap::error::ErrorKind;
use clap::{Arg, ArgMatches};
use lie_analysis::MAX_BUDGET;
use lie_degree::MAX_DEGREE;
use lie_outer::is_name;
use lie_sample::{MAX_MEMBER, MIN_MEMBER};
use lie_work::FileCommand;
use std::alloc::{AllocError, Global};

/// A command, with its arguments.
#[derive(Clone, Copy, Debug, PartialEq, Eq)]
pub enum Command<T> {
    /// Something is asked of the system of a file, which has this path.
    OnFile(T, FileCommand<T>),
    /// Something is asked of the desk.
    OnDesk(DeskCommand<T>),
    /// The numbers of the growing family up to this member are asked for, with the steps that each run may make.
    Sample(u64, u64),
    /// Connections are served: the address, how many, and the steps that each run may make.
    OnLink(T, u32, u64),
}

/// What is asked of the desk, where studies are kept by name.
#[derive(Clone, Copy, Debug, PartialEq, Eq)]
pub enum DeskCommand<T> {
    /// The study of a file under a name: the name, the path of the file, and the steps that the run may make.
    Study(T, T, u64),
    /// The names of all studies.
    List,
    /// The report of the study of this name.
    Show(T),
    /// That the study of this name goes.
    Drop(T),
}

// An argument that may not be left out.
fn argument<'a>(alloc: Global, name: &'a str) -> Arg<'a>
    ensures rule { rule_of result ≡ argument name.entry.now }
    ensures local { result.global ≡ false }
{
    Arg::new(alloc, name).required(true)
}

// An option with a value.
fn option<'a>(alloc: Global, name: &'a str) -> Arg<'a>
    ensures rule { rule_of result ≡ option name.entry.now }
    ensures local { result.global ≡ false }
{
    Arg::new(alloc, name).long(name)
}

// A command with these arguments, none of which may be left out, and these options.
fn subcommand<'a>(
    alloc: Global,
    name: &'a str,
    arguments: &[&'a str],
    options: &[&'a str],
) -> Result<clap::Command<'a>, AllocError>
    ensures shape { IfOk result (λ c. app_of c ≡ record {
      top = subcommand name.now (map (λ a. a.now) arguments.now) (map (λ o. o.now) options.now);
      subs = [];
    }) }
    ensures local { IfOk result (λ c. has_globals c ≡ false) }
{
    let mut command = clap::Command::new(alloc, name);
    for &id in arguments {
        command = command.arg(argument(alloc, id))?;
    }
    for &id in options {
        command = command.arg(option(alloc, id))?;
    }
    Ok(command)
}

// What the words may be: one of these commands, and no call for help.
fn interface<'a>(alloc: Global) -> Result<clap::Command<'a>, AllocError>
    ensures { IfOk result (λ c. app_of c ≡ interface) }
{
    clap::Command::new(alloc, "lie")
        .no_binary_name(true)
        .disable_help_flag(true)
        .disable_help_subcommand(true)
        .subcommand_required(true)
        .subcommand(subcommand(alloc, "determine", &["path"], &[])?)?
        .subcommand(subcommand(alloc, "check", &["path", "field"], &[])?)?
        .subcommand(subcommand(alloc, "analyse", &["path"], &["steps"])?)?
        .subcommand(subcommand(alloc, "degree", &["path", "degree"], &[])?)?
        .subcommand(subcommand(alloc, "sample", &["last"], &["steps"])?)?
        .subcommand(subcommand(alloc, "serve", &["address"], &["count", "steps"])?)?
        .subcommand(subcommand(alloc, "study", &["name", "path"], &["steps"])?)?
        .subcommand(subcommand(alloc, "list", &[], &[])?)?
        .subcommand(subcommand(alloc, "show", &["name"], &[])?)?
        .subcommand(subcommand(alloc, "drop", &["name"], &[])?)
}

// The steps that a run may make where the words don't say it.
const DEFAULT_BUDGET: u64 = 100_000;

// The digits that the number of steps may have in the words.
const BUDGET_DIGITS: usize = 8;

// The number that a text of digits writes, where they are at most so many and it is in the range.
fn number_in(text: &str, most_digits: usize, least: u64, greatest: u64) -> Option<u64>
    ensures number { result ≡ number_in most_digits least greatest text.now }
    ensures bound { IfSome result (λ n. n ≤ greatest) }
    ensures from { IfSome result (λ n. least ≤ n) }
{
    if text.len() > most_digits || text.starts_with('+') {
        return None;
    }
    let number = text.parse::<u64>().ok()?;
    if number < least || greatest < number {
        return None;
    }
    Some(number)
}

// The steps that a run may make, by the value of `--steps`.
fn budget_of(steps: Option<&str>) -> Option<u64>
    ensures steps { result ≡ budget_of (option_map (λ s. s.now) steps.entry) }
    ensures few { IfSome result (λ n. n ≤ greatest_budget) }
{
    match steps {
        Some(text) => number_in(text, BUDGET_DIGITS, 1, MAX_BUDGET),
        None => Some(DEFAULT_BUDGET),
    }
}

// How many connections may be served.
const MAX_COUNT: u64 = 1_000_000;

// The digits that this number may have in the words.
const COUNT_DIGITS: usize = 7;

// How many connections are served, by the value of `--count`.
fn count_in(text: &str) -> Option<u32>
    ensures { result ≡ count_in text.now }
{
    match number_in(text, COUNT_DIGITS, 1, MAX_COUNT) {
        Some(number) => Some(number as u32),
        None => None,
    }
}

// The digits that a degree may have in the words.
const DEGREE_DIGITS: usize = 1;

// The degree that a text of digits writes.
fn degree_in(text: &str) -> Option<u8>
    ensures degree { result ≡ degree_in text.now }
    ensures low { IfSome result (λ d. d ≤ greatest_degree) }
{
    match number_in(text, DEGREE_DIGITS, 0, u64::from(MAX_DEGREE)) {
        Some(number) => Some(number as u8),
        None => None,
    }
}

// The digits that the number of a member of the growing family may have in the words.
const MEMBER_DIGITS: usize = 2;

// The number of a member that a text of digits writes.
fn member_in(text: &str) -> Option<u64>
    ensures member { result ≡ member_in text.now }
    ensures least { IfSome result (λ k. least_member ≤ k) }
    ensures greatest { IfSome result (λ k. k ≤ greatest_member) }
{
    number_in(text, MEMBER_DIGITS, MIN_MEMBER, MAX_MEMBER)
}

// The text, where it is the name of a study.
fn name_in(text: &str) -> Option<&str>
    ensures name { option_map (λ n. n.now) result ≡ name_in text.now }
    ensures is_name { IfSome result (λ n. IsStudyName n.now) }
{
    if is_name(text.as_bytes()) {
        Some(text)
    } else {
        None
    }
}

// The name of a study, by the value of its argument.
fn study_name<'a>(arguments: &ArgMatches<'a>) -> Option<&'a str>
    ensures name { option_map (λ n. n.now) result ≡ study_name_in (λ id. first_of id (rows_of (found_of arguments.now))) }
    ensures is_name { IfSome result (λ n. IsStudyName n.now) }
{
    name_in(arguments.get_str("name")?)
}

// The study that the values ask for.
fn study_met<'a>(arguments: &ArgMatches<'a>) -> Option<Command<&'a str>>
    ensures few { IfSome result HasNumbers }
    ensures ready { IfSome result (λ c. IsReady (in_words (λ w. w.now) c)) }
    ensures met { option_map (in_words (λ w. w.now)) result ≡ study_of (λ id. first_of id (rows_of (found_of arguments.now))) }
{
    let name = study_name(arguments)?;
    let path = arguments.get_str("path")?;
    let budget = budget_of(arguments.get_str("steps"))?;
    Some(Command::OnDesk(DeskCommand::Study(name, path, budget)))
}

// The numbers of the growing family that the values ask for.
fn sample_met<'a>(arguments: &ArgMatches<'a>) -> Option<Command<&'a str>>
    ensures few { IfSome result HasNumbers }
    ensures ready { IfSome result (λ c. IsReady (in_words (λ w. w.now) c)) }
    ensures met { option_map (in_words (λ w. w.now)) result ≡ sample_of (λ id. first_of id (rows_of (found_of arguments.now))) }
{
    let text = arguments.get_str("last")?;
    let last = member_in(text)?;
    let budget = budget_of(arguments.get_str("steps"))?;
    Some(Command::Sample(last, budget))
}

// The service that the values ask for.
fn service_met<'a>(arguments: &ArgMatches<'a>) -> Option<Command<&'a str>>
    ensures few { IfSome result HasNumbers }
    ensures ready { IfSome result (λ c. IsReady (in_words (λ w. w.now) c)) }
    ensures met { option_map (in_words (λ w. w.now)) result ≡ serve_of (λ id. first_of id (rows_of (found_of arguments.now))) }
{
    let address = arguments.get_str("address")?;
    let count = count_in(arguments.get_str("count")?)?;
    let budget = budget_of(arguments.get_str("steps"))?;
    Some(Command::OnLink(address, count, budget))
}

// The command of a name, with the values of its arguments.
fn named_met<'a>(name: &str, arguments: &ArgMatches<'a>) -> Option<Command<&'a str>>
    ensures few { IfSome result HasNumbers }
    ensures ready { IfSome result (λ c. IsReady (in_words (λ w. w.now) c)) }
    ensures met { option_map (in_words (λ w. w.now)) result ≡ named_met name.now (rows_of (found_of arguments.now)) }
{
    match name {
        "sample" => sample_met(arguments),
        "study" => study_met(arguments),
        "list" => Some(Command::OnDesk(DeskCommand::List)),
        "show" => Some(Command::OnDesk(DeskCommand::Show(study_name(arguments)?))),
        "drop" => Some(Command::OnDesk(DeskCommand::Drop(study_name(arguments)?))),
        "serve" => service_met(arguments),
        _ => file_met(name, arguments),
    }
}

// The command on a file of a name, with the values of its arguments.
fn file_met<'a>(name: &str, arguments: &ArgMatches<'a>) -> Option<Command<&'a str>>
    requires { IsNoOtherWord name.now }
    ensures few { IfSome result HasNumbers }
    ensures ready { IfSome result (λ c. IsReady (in_words (λ w. w.now) c)) }
    ensures met { option_map (in_words (λ w. w.now)) result ≡ named_met name.now (rows_of (found_of arguments.now)) }
{
    let path = arguments.get_str("path")?;
    match name {
        "determine" => Some(Command::OnFile(path, FileCommand::Determine)),
        "check" => Some(Command::OnFile(path, FileCommand::Check(arguments.get_str("field")?))),
        "analyse" => Some(Command::OnFile(
            path,
            FileCommand::Analyse(budget_of(arguments.get_str("steps"))?),
        )),
        "degree" => {
            let text = arguments.get_str("degree")?;
            Some(Command::OnFile(path, FileCommand::Degree(degree_in(text)?)))
        }
        _ => None,
    }
}

// The command that was met, with the values of its arguments.
fn command_met<'a>(found: &ArgMatches<'a>) -> Option<Command<&'a str>>
    ensures few { IfSome result HasNumbers }
    ensures ready { IfSome result (λ c. IsReady (in_words (λ w. w.now) c)) }
    ensures met { option_map (in_words (λ w. w.now)) result ≡ command_met (subcommand_rows_of found.now) }
{
    let (name, arguments) = found.subcommand()?;
    named_met(name, arguments)
}

/// The command that the words are: `determine` and a path, or `check`, a path and the text of a field, or `analyse` and a path, with
/// `--steps` and a number at any place; or `degree`, a path and a digit up to 8; or `sample` and a number from 2 to 32, with `--steps`
/// too; or `serve` and an address, with `--count` and a number, and `--steps` too; or `study`, a name and a path, with `--steps` too, or
/// `list`, or `show` or `drop` and a name; `None` for any other words. A word `--` makes all later words arguments; before it a word
/// that begins with a dash, and isn't the dash alone, is an option of the command or refused. It fails only for want of memory.
pub fn command_of<'a>(
    alloc: Global,
    words: &'a [String],
) -> Result<Option<Command<&'a str>>, AllocError>
    ensures few { IfOk result (λ c. IfSome c HasNumbers) }
    ensures ready { IfOk result (λ found. IfSome found (λ c. IsReady (in_words (λ w. w.now) c))) }
    ensures command { IfOk result (λ c. option_map (in_words (λ w. w.now)) c ≡ command_of (texts words.now)) }
{
    match interface(alloc)?.try_get_matches_from(words) {
        Ok(found) => Ok(command_met(&found)),
        Err(error) if error.kind() == ErrorKind::OutOfMemory => Err(AllocError),
        Err(_) => Ok(None),
    }
}
