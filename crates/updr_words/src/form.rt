ghost use Rattle.std.specs.Prelude.{◌≡◌, IfOk, map, false};
ghost use Rattle.clap.specs.Words.{app_of, rule_of};
ghost use Rattle.updr_words.specs.Forms.{form_of, number_of, file_rule, number_rule, flag_rule, app_by, with_rules};

use clap::{Arg, ArgAction, Command, value_parser};
use std::alloc::{AllocError, Global};

/// How words give a number.
#[derive(Clone, Copy)]
pub enum Giving {
    /// By an option: `--`, the number's name, and the number.
    ByOption,
    /// By a word of its own, which has to be there.
    ByWord,
}

/// A number that the words give.
#[derive(Clone, Copy)]
pub struct Number {
    pub name: &'static str,
    pub giving: Giving,
    /// What stands for the number where its option isn't given. Of a word it says nothing.
    pub usual: &'static str,
    pub least: u32,
    pub most: u32,
}

/// The words that a command takes.
#[derive(Clone, Copy)]
pub struct Form {
    /// The first word.
    pub name: &'static str,
    /// What stands for each of the files that the command reads, in the order of reading.
    pub files: &'static [&'static str],
    /// Those that are words of their own stand behind the files.
    pub numbers: &'static [Number],
    /// The options without a value: each is `--` and its name.
    pub flags: &'static [&'static str],
}

/// The place of a file.
fn file_arg<'a>(alloc: Global, name: &'a str) -> Arg<'a>
    ensures rule { rule_of result ≡ file_rule name.entry.now }
    ensures own { result.global ≡ false }
{
    Arg::new(alloc, name).required(true).action(ArgAction::Set)
}

/// The option of a number, or its place among the words.
fn number_arg<'a>(alloc: Global, number: Number) -> Arg<'a>
    ensures rule { rule_of result ≡ number_rule (number_of number) }
    ensures own { result.global ≡ false }
{
    let parser = value_parser!(u32).range(i64::from(number.least)..=i64::from(number.most));
    let arg = Arg::new(alloc, number.name).value_parser(parser);
    match number.giving {
        Giving::ByOption => arg.long(number.name).default_value(number.usual),
        Giving::ByWord => arg.required(true).action(ArgAction::Set),
    }
}

/// An option without a value.
fn flag_arg<'a>(alloc: Global, name: &'a str) -> Arg<'a>
    ensures rule { rule_of result ≡ flag_rule name.entry.now }
    ensures own { result.global ≡ false }
{
    Arg::new(alloc, name).long(name).action(ArgAction::SetTrue)
}

/// The command with the places of these files behind its own arguments.
fn with_files<'a>(
    alloc: Global,
    command: Command<'a>,
    files: &[&'static str],
) -> Result<Command<'a>, AllocError>
    ensures { IfOk result (λ c. app_of c
        ≡ with_rules (app_of command.entry) (map file_rule (map (λ s. s.now) files.now))) }
{
    let mut command = command;
    'each: for name in files {
        command = command.arg(file_arg(alloc, name))?;
    }
    Ok(command)
}

/// The command with the arguments of these numbers behind its own.
fn with_numbers<'a>(
    alloc: Global,
    command: Command<'a>,
    numbers: &[Number],
) -> Result<Command<'a>, AllocError>
    ensures { IfOk result (λ c. app_of c
        ≡ with_rules (app_of command.entry) (map number_rule (map number_of numbers.now))) }
{
    let mut command = command;
    'each: for number in numbers {
        command = command.arg(number_arg(alloc, *number))?;
    }
    Ok(command)
}

/// The command with these options without a value behind its own arguments.
fn with_flags<'a>(
    alloc: Global,
    command: Command<'a>,
    flags: &[&'static str],
) -> Result<Command<'a>, AllocError>
    ensures { IfOk result (λ c. app_of c
        ≡ with_rules (app_of command.entry) (map flag_rule (map (λ s. s.now) flags.now))) }
{
    let mut command = command;
    'each: for name in flags {
        command = command.arg(flag_arg(alloc, name))?;
    }
    Ok(command)
}

/// The command of `clap` that takes these words.
pub fn command_by<'a>(alloc: Global, form: &Form) -> Result<Command<'a>, AllocError>
    ensures { IfOk result (λ c. app_of c ≡ app_by (form_of form.now)) }
{
    let with_files = with_files(alloc, Command::new(alloc, form.name), form.files)?;
    let with_numbers = with_numbers(alloc, with_files, form.numbers)?;
    with_flags(alloc, with_numbers, form.flags)
}
