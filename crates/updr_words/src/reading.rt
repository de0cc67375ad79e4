ghost use Rattle.std.specs.Prelude.{◌≡◌, ℕ, List, [], IfOk, IsErrOf, IfSome, None, map, string_bytes};
ghost use Rattle.std.specs.List.{AllZip};
ghost use Rattle.clap.specs.Words.{found_of, rows_of, fault_of, matches_of, Text};
ghost use Rattle.updr_words.specs.Forms.{Form, IsSimple, form_of, app_by, number_of, texts};
ghost use Rattle.updr_words.specs.Jobs.{IsJob, job_of, GivesFile, GivesNumber, is_given};

use crate::form::{Form, Number, command_by};
use clap::ArgMatches;
use clap::error::ErrorKind;
use std::alloc::{AllocError, Global};
use thiserror::Error;

/// What words ask of a command.
#[derive(Drop)]
pub struct Job<'a> {
    /// The names of the files, in the order of the form.
    pub files: Vec<&'a str>,
    pub numbers: Vec<u32>,
    /// Whether each option without a value is given.
    pub flags: Vec<bool>,
}

/// Why words are no job.
#[derive(Debug, Drop, Error)]
pub enum WordsFault {
    /// The words aren't of the command's form.
    #[error("not of the command's form")]
    Usage,
    /// There wasn't enough memory.
    #[error("out of memory")]
    Memory,
}

impl From<AllocError> for WordsFault {
    ghost use Rattle.std.specs.Prelude.{◌≡◌};
    ghost use Rattle.updr_words.specs.declared.reading.WordsFault.TheVariants.{Memory};

    ghost from_gives = { λ _ f. f ≡ Memory };

    fn from(_: AllocError) -> WordsFault {
        WordsFault::Memory
    }
}

/// What `clap` finds in these words. To ask for help or for the version is a fault as any other.
fn matches_by<'a>(
    alloc: Global,
    form: &Form,
    words: &'a [String],
) -> Result<ArgMatches<'a>, WordsFault>
    requires { IsSimple (form_of form.now) }
    ensures read { IfOk result (λ _. fault_of (app_by (form_of form.now))
        (map string_bytes words.entry.now) ≡ []) }
    ensures found { IfOk result (λ m. rows_of (found_of m)
        ≡ matches_of (app_by (form_of form.now)) (map string_bytes words.entry.now)) }
    ensures refused { IsErrOf result WordsFault.Usage
        → fault_of (app_by (form_of form.now)) (map string_bytes words.entry.now) ≡ []
        → ⊥ }
{
    let command = command_by(alloc, form)?;
    match command.try_get_matches_from(words) {
        Ok(matches) => Ok(matches),
        Err(error) => if matches!(error.kind(), ErrorKind::OutOfMemory) {
            Err(WordsFault::Memory)
        } else {
            Err(WordsFault::Usage)
        },
    }
}

/// The words at the places of files.
fn files_at<'a>(
    alloc: Global,
    matches: &ArgMatches<'a>,
    places: &[&'static str],
) -> Result<Vec<&'a str>, WordsFault>
    ensures found { IfOk result (λ v. AllZip (GivesFile (rows_of (found_of matches.now)))
        (texts places.now)
        (texts v.items)) }
    ensures none { IsErrOf result WordsFault.Usage
        → (ts : List Text)
        → AllZip (GivesFile (rows_of (found_of matches.now))) (texts places.now) ts
        → ⊥ }
{
    let mut files = Vec::new(alloc);
    'each: for place in places {
        let Some(file) = matches.get_str(place) else {
            return Err(WordsFault::Usage);
        };
        files.push(file).map_err(|_| WordsFault::Memory)?;
    }
    Ok(files)
}

/// The number that an option gives, if it lies in its range.
fn number_at(matches: &ArgMatches<'_>, number: &Number) -> Option<u32>
    ensures some { IfSome result (GivesNumber (rows_of (found_of matches.now))
        (number_of number.now)) }
    ensures none { result ≡ None
        → (v : ℕ)
        → GivesNumber (rows_of (found_of matches.now)) (number_of number.now) v
        → ⊥ }
{
    match matches.get_one::<u32>(number.name) {
        Some(value) if number.least <= value && value <= number.most => Some(value),
        _ => None,
    }
}

/// The numbers that these options give.
fn numbers_at(
    alloc: Global,
    matches: &ArgMatches<'_>,
    numbers: &[Number],
) -> Result<Vec<u32>, WordsFault>
    ensures found { IfOk result (λ v. AllZip (GivesNumber (rows_of (found_of matches.now)))
        (map number_of numbers.now)
        v.items) }
    ensures none { IsErrOf result WordsFault.Usage
        → (vs : List ℕ)
        → AllZip (GivesNumber (rows_of (found_of matches.now))) (map number_of numbers.now) vs
        → ⊥ }
{
    let mut values = Vec::new(alloc);
    'each: for number in numbers {
        let Some(value) = number_at(matches, number) else {
            return Err(WordsFault::Usage);
        };
        values.push(value).map_err(|_| WordsFault::Memory)?;
    }
    Ok(values)
}

/// Whether an option without a value is given.
fn is_given(matches: &ArgMatches<'_>, flag: &str) -> bool
    ensures { result ≡ is_given (rows_of (found_of matches.now)) flag.now }
{
    match matches.get_str(flag) {
        Some(word) => word == "true",
        None => false,
    }
}

/// Whether each of these options is given.
fn flags_at(
    alloc: Global,
    matches: &ArgMatches<'_>,
    flags: &[&'static str],
) -> Result<Vec<bool>, AllocError>
    ensures { IfOk result (λ v. v.items
        ≡ map (is_given (rows_of (found_of matches.now))) (texts flags.now)) }
{
    let mut given = Vec::new(alloc);
    'each: for flag in flags {
        given.push(is_given(matches, flag))?;
    }
    Ok(given)
}

/// What these words ask of the command of this form. The first of them is the command's name.
///
/// # Errors
///
/// `Usage` comes exactly where `clap` doesn't read the words by the form: also where they ask for
/// help or for the version, where an option is repeated, and where a number is out of its range.
pub fn read<'a>(alloc: Global, form: &Form, words: &'a [String]) -> Result<Job<'a>, WordsFault>
    requires { IsSimple (form_of form.now) }
    ensures found { IfOk result (λ job. IsJob (form_of form.now)
        (map string_bytes words.entry.now)
        (job_of job)) }
    ensures none { IsErrOf result WordsFault.Usage
        → (job : _)
        → IsJob (form_of form.now) (map string_bytes words.entry.now) job
        → ⊥ }
{
    let matches = matches_by(alloc, form, words)?;
    Ok(Job {
        files: files_at(alloc, &matches, form.files)?,
        numbers: numbers_at(alloc, &matches, form.numbers)?,
        flags: flags_at(alloc, &matches, form.flags)?,
    })
}
