//! Runs the top call on cases that are written as text (docs/CASES.md), each over files and sinks in memory.
//!
//! The arguments are files of cases. For each case a line is printed: `NAME: as wanted`, or `NAME: ` and the
//! first difference. The status is 1 where a case differs or can't be read.
#![tactic(auto)]

mod case;
mod compare;
mod content;
mod read;
mod run;

use case::{Case, Item};
use content::Texts;
use read::read_items;
use run::run_case;
use std::alloc::Global;
use std::collections::BTreeSet;
use std::process::ExitCode;
use std::rt::Files;
use std::sync::Wait;
use std::thread::Threads;
use std::{env, fs};

/// What was seen of the cases so far.
#[derive(Drop)]
struct Report {
    names: BTreeSet<String>,
    differs: bool,
}

impl Report {
    /// Prints a line about a case, or about a line of a file, that isn't as wanted.
    fn differ(&mut self, rt: &impl Print, name: &str, difference: &str) -> anyhow::Result<()> {
        self.differs = true;
        println!(rt; "{name}: {difference}")?;
        Ok(())
    }

    /// Prints why a text or a case isn't complete.
    fn fail<R: Print + AllocGlobal>(
        &mut self,
        rt: &R,
        name: &str,
        error: &anyhow::Error,
    ) -> anyhow::Result<()> {
        let line = format!(in rt.alloc(); "{error}")?;
        self.differ(rt, name, line.as_str())
    }

    /// Runs a case, and prints its line.
    fn run<R: Print + Files + Threads + Wait + Sync + AllocGlobal>(
        &mut self,
        rt: &R,
        case: &Case,
        texts: &mut Texts,
    ) -> anyhow::Result<()> {
        let name = case.name.as_str();
        if !self.names.insert(case.name.clone()?)? {
            return self.differ(rt, name, "another case has this name");
        }
        match run_case(rt, case, texts) {
            Ok(None) => println!(rt; "{name}: as wanted")?,
            Ok(Some(difference)) => self.differ(rt, name, difference.as_str())?,
            Err(error) => self.fail(rt, name, &error)?,
        }
        Ok(())
    }

    /// Runs the cases of a file.
    fn run_file<R: Print + Files + Threads + Wait + Sync + AllocGlobal>(
        &mut self,
        rt: &R,
        path: &str,
    ) -> anyhow::Result<()> {
        let Ok(text) = fs::read_to_string(rt, path) else {
            return self.differ(rt, path, "cannot be read");
        };
        let items = read_items(rt.alloc(), path, text.as_str())?;
        let mut texts = Texts::new(rt.alloc());
        for item in items {
            self.run_item(rt, path, item, &mut texts)?;
        }
        Ok(())
    }

    /// Runs a case, or keeps a text.
    fn run_item<R: Print + Files + Threads + Wait + Sync + AllocGlobal>(
        &mut self,
        rt: &R,
        path: &str,
        item: Item,
        texts: &mut Texts,
    ) -> anyhow::Result<()> {
        match item {
            Item::Text(text) => match texts.define(rt, text) {
                Ok(()) => Ok(()),
                Err(error) => self.fail(rt, path, &error),
            },
            Item::Case(case) => self.run(rt, &case, texts),
            Item::Fault(place, fault) => self.differ(rt, place.as_str(), fault.as_str()),
        }
    }
}

/// The arguments after the program's name.
fn arguments(rt: &HostRuntime, alloc: Global) -> anyhow::Result<Vec<String>> {
    let mut arguments = env::args(rt)?;
    let _ = arguments.next();
    Ok(arguments.collect(alloc)?)
}

fn main(rt: HostRuntime) -> anyhow::Result<ExitCode> {
    let paths = arguments(&rt, rt.alloc())?;
    anyhow::ensure!(!paths.is_empty(), "no file of cases is named");
    let mut report = Report {
        names: BTreeSet::new(rt.alloc()),
        differs: false,
    };
    for path in paths.as_slice() {
        report.run_file(&rt, path.as_str())?;
    }
    Ok(ExitCode::from(u8::from(report.differs)))
}
