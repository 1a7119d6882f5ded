//! The command line, read by `clap`.
ghost use Rattle.std.specs.Prelude.{◌≡◌, Some, IfErr, IfOk, IfSome, IsNone, true, map, option_map};
ghost use Rattle.clap.specs.Words.{FailsBy, app_of, kind_of};
ghost use Rattle.vipr_command.specs.Args.{IsArgument, IsCommand, app_for, are_accepted, asked_by};
ghost use Rattle.vipr_command.specs.Args.{asks_for_help, bare, command_word, compact_rule};
ghost use Rattle.vipr_command.specs.Args.{file_named, file_rule, flag_rule, form_asked, is_set};
ghost use Rattle.vipr_command.specs.Args.{line, long_rule, out_rule, profile_named, profile_rule};
ghost use Rattle.vipr_command.specs.Args.{request_of, sum_rule, with_file, with_task, words_fault};
ghost use Rattle.vipr_command.specs.declared.request.Task.{Task};

use crate::request::{Job, Task};
use clap::error::ErrorKind;
use clap::{Arg, ArgAction, Command, Error};
use std::alloc::{AllocError, Global};
use vipr_rules::Profile;
use vipr_write::Form;

/// Reads a command line, the program's name first.
///
/// The error is `clap`'s: help that was asked for, words that aren't accepted, or want of memory.
pub fn job<'a>(alloc: Global, words: &'a [&'a str]) -> Result<Job<'a>, Error>
    ensures ok { IfOk result
        (λ j. asked_by (map (λ w. w.now) words.entry.now) ≡ Some (request_of j)) }
    ensures err { IfErr result (λ e. are_accepted (map (λ w. w.now) words.entry.now) ≡ true
        → kind_of e ≡ ErrorKind.OutOfMemory) }
    ensures kinds { FailsBy (words_fault (map (λ w. w.now) words.entry.now)) result }
{
    let mut line = command_line(alloc)?;
    match job_for(alloc, &mut line, words) {
        Ok(job) => {
            drop(line);
            Ok(job)
        }
        Err(error) => {
            let error = with_likely_tip(alloc, &mut line, words, error);
            drop(line);
            Err(error)
        }
    }
}

/// The error of words that aren't accepted. No command is like a path, so if there is one in place
/// of a command, the tip says where a path belongs.
fn with_likely_tip(alloc: Global, commands: &mut Command<'_>, words: &[&str], error: Error) -> Error
    ensures { kind_of result ≡ kind_of error }
{
    match (error.kind(), words) {
        (ErrorKind::InvalidSubcommand, [_, word, ..]) if is_path(*word) => {
            match no_command(alloc, commands, *word) {
                Ok(other) => {
                    drop(error);
                    other
                }
                Err(_) => error,
            }
        }
        _ => error,
    }
}

fn is_path(word: &str) -> bool {
    word.as_bytes().contains(&b'/') || word.as_bytes().contains(&b'.')
}

/// The error of a path in place of a command.
fn no_command(alloc: Global, commands: &mut Command<'_>, path: &str) -> Result<Error, AllocError>
    ensures { IfOk result (λ e. kind_of e ≡ ErrorKind.InvalidSubcommand) }
{
    let message = format!(in alloc;
        "unrecognized subcommand '{path}'\n\n  tip: a file comes after a command: 'vipr check {path}'"
    )?;
    let error = commands.error(ErrorKind::InvalidSubcommand, message.as_str());
    drop(message);
    error
}

/// Reads a command line, `help --help` as `help`.
fn job_for<'a>(
    alloc: Global,
    commands: &mut Command<'a>,
    words: &'a [&'a str],
) -> Result<Job<'a>, Error>
    requires { app_of commands.old ≡ line }
    ensures ok { IfOk result
        (λ j. asked_by (map (λ w. w.now) words.entry.now) ≡ Some (request_of j)) }
    ensures err { IfErr result (λ e. are_accepted (map (λ w. w.now) words.entry.now) ≡ true
        → kind_of e ≡ ErrorKind.OutOfMemory) }
    ensures kinds { FailsBy (words_fault (map (λ w. w.now) words.entry.now)) result }
{
    if asks_for_help(words) {
        job_by(alloc, commands, &words[..2])
    } else {
        job_by(alloc, commands, words)
    }
}

fn asks_for_help(words: &[&str]) -> bool
    ensures { result ≡ asks_for_help (map (λ w. w.now) words.now) }
{
    match words {
        [_, command, word] => *command == "help" && (*word == "--help" || *word == "-h"),
        _ => false,
    }
}

/// Reads a command line by the program's commands.
fn job_by<'a>(
    alloc: Global,
    commands: &mut Command<'a>,
    words: &'a [&'a str],
) -> Result<Job<'a>, Error>
    requires { app_of commands.old ≡ line }
    ensures ok { IfOk result
        (λ j. asked_by (map (λ w. w.now) words.entry.now) ≡ Some (request_of j)) }
    ensures err { IfErr result (λ e. are_accepted (map (λ w. w.now) words.entry.now) ≡ true
        → kind_of e ≡ ErrorKind.OutOfMemory) }
    ensures kinds { FailsBy (words_fault (map (λ w. w.now) words.entry.now)) result }
{
    let matches = commands.try_get_matches_from_mut(words)?;
    let Some((name, inner)) = matches.subcommand() else {
        unreachable!()
    };
    let Some(command) = task_named(name) else {
        unreachable!()
    };
    let word = inner.get_str("profile");
    let form = form_asked(inner.get_str("compact"));
    let is_long = is_set(inner.get_str("long"));
    let has_sum = is_set(inner.get_str("sum"));
    let file = file_named(inner.get_str("file"));
    let out = file_named(inner.get_str("out"));
    drop(matches);
    let Some(profile) = profile_named(word) else {
        return Err(no_profile(alloc, commands, name, word)?);
    };
    Ok(Job {
        command,
        profile,
        form,
        is_long,
        has_sum,
        file,
        out,
    })
}

/// The error of a value that names no profile, at this command.
fn no_profile(
    alloc: Global,
    commands: &mut Command<'_>,
    command: &str,
    word: Option<&str>,
) -> Result<Error, AllocError>
    ensures { IfOk result (λ e. kind_of e ≡ ErrorKind.InvalidValue) }
{
    let word = word.unwrap_or("");
    let message = format!(in alloc;
        "invalid value '{word}' for '--profile <PROFILE>' of 'vipr {command}'\n  [possible values: 1, 2]"
    )?;
    let error = commands.error(ErrorKind::InvalidValue, message.as_str());
    drop(message);
    error
}

/// The file that a word names: `-` names none, but standard input or output.
fn file_named<'a>(word: Option<&'a str>) -> Option<&'a str>
    ensures { option_map (λ s. s.now) result ≡ file_named (option_map (λ s. s.now) word.entry) }
{
    match word {
        None | Some("-") => None,
        Some(name) => Some(name),
    }
}

fn task_named(name: &str) -> Option<Task>
    ensures some { IfSome result (λ t. command_word t ≡ name.now) }
    ensures none { IsNone result → (t : Task) → command_word t ≡ name.now → ⊥ }
{
    match name {
        "check" => Some(Task::Check),
        "explain" => Some(Task::Explain),
        "show" => Some(Task::Show),
        "tighten" => Some(Task::Tighten),
        _ => None,
    }
}

fn profile_named(word: Option<&str>) -> Option<Profile>
    ensures { result ≡ profile_named (option_map (λ s. s.now) word.entry) }
{
    match word {
        None | Some("1") => Some(Profile::One),
        Some("2") => Some(Profile::Two),
        Some(_) => None,
    }
}

// The flag's value is `true` where it is among the words.
fn form_asked(flag: Option<&str>) -> Form
    ensures { result ≡ form_asked (option_map (λ s. s.now) flag.entry) }
{
    match flag {
        Some("true") => Form::Compact,
        _ => Form::Canonical,
    }
}

// The flag's value is `true` where it is among the words.
fn is_set(flag: Option<&str>) -> bool
    ensures { result ≡ is_set (option_map (λ s. s.now) flag.entry) }
{
    match flag {
        Some("true") => true,
        _ => false,
    }
}

/// The program's commands and their arguments.
fn command_line<'a>(alloc: Global) -> Result<Command<'a>, AllocError>
    ensures { IfOk result (λ c. app_of c ≡ line) }
{
    let line = with_task(alloc, no_commands(alloc), Task::Check)?;
    let line = with_task(alloc, line, Task::Explain)?;
    let line = with_task(alloc, line, Task::Show)?;
    with_task(alloc, line, Task::Tighten)
}

/// The program's name and version, before any command.
fn no_commands<'a>(alloc: Global) -> Command<'a>
    ensures { app_of result ≡ bare }
{
    Command::new(alloc, "vipr")
        .about("Checks VIPR 1.0 certificates")
        .version("1.2.0")
        .subcommand_required(true)
}

/// The command line with the command of one more task.
fn with_task<'a>(alloc: Global, line: Command<'a>, task: Task) -> Result<Command<'a>, AllocError>
    ensures { IfOk result (λ c. app_of c ≡ with_task (app_of line.entry) task) }
{
    line.subcommand(command_for(alloc, task)?)
}

/// The command of a task, with its arguments.
fn command_for<'a>(alloc: Global, task: Task) -> Result<Command<'a>, AllocError>
    ensures { IfOk result (λ c. IsCommand c (app_for task)) }
{
    let command = on_file(alloc, task)?;
    match task {
        Task::Check => command.arg(profile(alloc))?.arg(sum(alloc)),
        Task::Explain => command
            .arg(profile(alloc))?
            .arg(long(alloc))?
            .arg(sum(alloc)),
        Task::Show => command.arg(compact(alloc)),
        Task::Tighten => command
            .arg(profile(alloc))?
            .arg(out(alloc))?
            .arg(compact(alloc)),
    }
}

/// The command of a task, with FILE alone.
fn on_file<'a>(alloc: Global, task: Task) -> Result<Command<'a>, AllocError>
    ensures { IfOk result (λ c. IsCommand c (with_file task)) }
{
    let (about, example) = help_for(task);
    Command::new(alloc, word_of(task))
        .about(about)
        .after_help(example)
        .arg(file(alloc))
}

fn word_of<'a>(task: Task) -> &'a str
    ensures { result.now ≡ command_word task }
{
    match task {
        Task::Check => "check",
        Task::Explain => "explain",
        Task::Show => "show",
        Task::Tighten => "tighten",
    }
}

/// What help says of a command: what it does, and an example.
fn help_for<'a>(task: Task) -> (&'a str, &'a str) {
    let about = match task {
        Task::Check => "Checks a certificate and prints the verdict",
        Task::Explain => "Checks a certificate and prints the verdict and the reason",
        Task::Show => "Writes a certificate's canonical text",
        Task::Tighten => "Writes a verified certificate without what its proof doesn't need",
    };
    let example = match task {
        Task::Check => "Example: vipr check plan.vipr",
        Task::Explain => "Example: xz -dc plan.vipr.xz | vipr explain",
        Task::Show => "Example: vipr show plan.vipr > canonical.vipr",
        Task::Tighten => "Example: vipr tighten plan.vipr --out short.vipr",
    };
    (about, example)
}

fn file<'a>(alloc: Global) -> Arg<'a>
    ensures { IsArgument result file_rule }
{
    Arg::new(alloc, "file").value_name("FILE").help(
        "The certificate; standard input by default, or if it is -",
    )
}

fn profile<'a>(alloc: Global) -> Arg<'a>
    ensures { IsArgument result profile_rule }
{
    Arg::new(alloc, "profile")
        .long("profile")
        .value_name("PROFILE")
        .help("Which profile of the rules: 1 (the default) or 2")
}

fn out<'a>(alloc: Global) -> Arg<'a>
    ensures { IsArgument result out_rule }
{
    Arg::new(alloc, "out")
        .short('o')
        .long("out")
        .value_name("OUT")
        .help("Where to write it; standard output by default, or if it is -")
}

fn compact<'a>(alloc: Global) -> Arg<'a>
    ensures { IsArgument result compact_rule }
{
    flag(
        alloc,
        "compact",
        "Writes OBJ for rows that are the objective's",
    )
}

fn long<'a>(alloc: Global) -> Arg<'a>
    ensures { IsArgument result long_rule }
{
    flag(alloc, "long", "Adds an explanation for people")
}

fn sum<'a>(alloc: Global) -> Arg<'a>
    ensures { IsArgument result sum_rule }
{
    flag(alloc, "sum", "Also prints the SHA-256 of what was read")
}

/// A flag of this name.
fn flag<'a>(alloc: Global, name: &'a str, help: &'a str) -> Arg<'a>
    ensures { IsArgument result (flag_rule name.entry.now) }
{
    Arg::new(alloc, name)
        .long(name)
        .action(ArgAction::SetTrue)
        .help(help)
}
