//! What was done at each group since the process began, as text for Prometheus. It is written to a file beside the one
//! that is named, which then takes its place: so whoever reads that finds all of it.
use crate::clock::{millis, seconds};
use crate::fault::{Fault, unwritable};
use crate::print::{print_number, say};
use sr_live::Ran;
use std::alloc::{AllocError, Global};
use std::fs::OpenOptions;
use std::io::{Error, ErrorKind, Write};
use std::{fs, io, process};

/// What was done at a group since the process began.
#[derive(Drop)]
pub(crate) struct Counts {
    /// The key and the group, as they follow the name of a metric.
    labels: String,
    runs: u64,
    claimed: u64,
    stale: u64,
    without_plan: u64,
    errors: u64,
    /// When a run last had status 0, in seconds since 1970; or 0.
    last_success: u64,
    /// How many milliseconds the last run took.
    last_millis: u64,
}

/// What is told of each group.
#[derive(Clone, Copy)]
enum Metric {
    Runs,
    Claimed,
    Stale,
    WithoutPlan,
    Errors,
    LastSuccess,
    LastMillis,
}

const METRICS: &[Metric] = &[
    Metric::Runs,
    Metric::Claimed,
    Metric::Stale,
    Metric::WithoutPlan,
    Metric::Errors,
    Metric::LastSuccess,
    Metric::LastMillis,
];

impl Metric {
    fn name(self) -> &'static str {
        match self {
            Metric::Runs => "sr_recover_runs_total",
            Metric::Claimed => "sr_recover_claimed_total",
            Metric::Stale => "sr_recover_stale_total",
            Metric::WithoutPlan => "sr_recover_without_plan_total",
            Metric::Errors => "sr_recover_errors_total",
            Metric::LastSuccess => "sr_recover_last_success_timestamp_seconds",
            Metric::LastMillis => "sr_recover_last_run_milliseconds",
        }
    }

    /// What a reader is told of it.
    fn help(self) -> &'static str {
        match self {
            Metric::Runs => "Runs of this process: turns of watch at the group, or one run.",
            Metric::Claimed => "Entries of dead consumers that others were given.",
            Metric::Stale => "Runs in which the group changed in each try.",
            Metric::WithoutPlan => "Runs in which there were too few places.",
            Metric::Errors => "Runs that had any other fault.",
            Metric::LastSuccess => "When a run last had status 0, in seconds since 1970; or 0.",
            Metric::LastMillis => "How many milliseconds the last run took.",
        }
    }

    /// Whether it only grows, or tells of the last run.
    fn kind(self) -> &'static str {
        match self {
            Metric::LastSuccess | Metric::LastMillis => "gauge",
            _ => "counter",
        }
    }
}

impl Counts {
    /// A group at which nothing was done.
    pub(crate) fn new(alloc: Global, key: &str, group: &str) -> Result<Counts, AllocError> {
        let mut labels = String::from_str(alloc, "{key=\"")?;
        push_escaped(&mut labels, key)?;
        labels.push_str("\",group=\"")?;
        push_escaped(&mut labels, group)?;
        labels.push_str("\"}")?;
        Ok(Counts {
            labels,
            runs: 0,
            claimed: 0,
            stale: 0,
            without_plan: 0,
            errors: 0,
            last_success: 0,
            last_millis: 0,
        })
    }

    /// Counts the entries that were claimed.
    pub(crate) fn add_claimed(&mut self, ran: &Ran) {
        match ran {
            Ran::Done { claimed, .. } => self.claimed = self.claimed.saturating_add(*claimed),
            Ran::Impossible(_) | Ran::Stale { .. } => {}
        }
    }

    /// Counts a run that ends now with this status. It began at this millisecond.
    pub(crate) fn end_run(&mut self, rt: &HostRuntime, code: u8, began: u64) {
        self.runs = self.runs.saturating_add(1);
        self.last_millis = millis(rt).saturating_sub(began);
        match code {
            0 => self.last_success = seconds(rt),
            3 => self.without_plan = self.without_plan.saturating_add(1),
            4 => self.stale = self.stale.saturating_add(1),
            _ => self.errors = self.errors.saturating_add(1),
        }
    }

    /// What it is of a metric.
    fn value(&self, metric: Metric) -> u64 {
        match metric {
            Metric::Runs => self.runs,
            Metric::Claimed => self.claimed,
            Metric::Stale => self.stale,
            Metric::WithoutPlan => self.without_plan,
            Metric::Errors => self.errors,
            Metric::LastSuccess => self.last_success,
            Metric::LastMillis => self.last_millis,
        }
    }
}

/// Adds a text as the value of a label has it.
///
/// Source: Prometheus documentation, "Exposition formats", section "Comments, help text, and type information".
fn push_escaped(text: &mut String, value: &str) -> Result<(), AllocError> {
    for one in value.chars() {
        match one {
            '\\' => text.push_str("\\\\")?,
            '"' => text.push_str("\\\"")?,
            '\n' => text.push_str("\\n")?,
            _ => text.push(one)?,
        }
    }
    Ok(())
}

/// The text of the file that tells of these groups: for each metric what it is, and a line for each group.
pub(crate) fn metrics_text(alloc: Global, groups: &[&Counts]) -> Result<Vec<u8>, Fault> {
    let mut text = Vec::new(alloc);
    for metric in METRICS {
        let name = metric.name().as_bytes();
        say(&mut text, b"# HELP ")?;
        say(&mut text, name)?;
        say(&mut text, b" ")?;
        say(&mut text, metric.help().as_bytes())?;
        say(&mut text, b"\n# TYPE ")?;
        say(&mut text, name)?;
        say(&mut text, b" ")?;
        say(&mut text, metric.kind().as_bytes())?;
        say(&mut text, b"\n")?;
        for counts in groups {
            say(&mut text, name)?;
            say(&mut text, counts.labels.as_bytes())?;
            print_number(&mut text, b" ", counts.value(*metric))?;
            say(&mut text, b"\n")?;
        }
    }
    Ok(text)
}

/// The file that is written.
#[derive(Drop)]
pub(crate) struct MetricsFile<'a> {
    path: &'a str,
    /// What is written first, in the same folder.
    draft: String,
    /// Whether the last write failed.
    is_failing: bool,
}

impl<'a> MetricsFile<'a> {
    /// The file of this path, if it can be written: of the trial nothing is left. Nothing but a file is replaced.
    pub(crate) fn new(rt: &HostRuntime, path: &'a str) -> Result<MetricsFile<'a>, Fault> {
        if path.is_empty() {
            return Err(Fault::Asked("--metrics: it has to be the name of a file"));
        }
        let number = process::id(rt.process());
        let draft = format!(in rt.alloc(); "{path}.{number}")?;
        match try_out(rt, path, draft.as_str()) {
            Ok(()) => Ok(MetricsFile {
                path,
                draft,
                is_failing: false,
            }),
            Err(error) => Err(unwritable(rt.alloc(), "error: --metrics", path, error)),
        }
    }

    /// Writes this text. A fault if that fails, and did not fail before.
    pub(crate) fn write(
        &mut self,
        rt: &HostRuntime,
        text: Result<Vec<u8>, Fault>,
    ) -> Option<Fault> {
        match self.replace(rt, text) {
            Ok(()) => {
                self.is_failing = false;
                None
            }
            Err(fault) => {
                let is_told = self.is_failing;
                self.is_failing = true;
                if is_told { None } else { Some(fault) }
            }
        }
    }

    /// Writes this text, whatever was told before.
    fn replace(&self, rt: &HostRuntime, text: Result<Vec<u8>, Fault>) -> Result<(), Fault> {
        let text = text?;
        let draft = self.draft.as_str();
        match put_in_place(rt, self.path, draft, text.as_slice()) {
            Ok(()) => Ok(()),
            Err(error) => {
                let _ = fs::remove_file(rt, draft);
                Err(unwritable(rt.alloc(), "metrics", self.path, error))
            }
        }
    }
}

/// Whether a file can be written: what has its name has to be one, and the draft can be made.
fn try_out(rt: &HostRuntime, path: &str, draft: &str) -> io::Result<()> {
    match fs::symlink_metadata(rt, path) {
        Ok(found) => {
            if !found.is_file() {
                return Err(Error::new(
                    ErrorKind::InvalidInput,
                    "there is something else than a file",
                ));
            }
        }
        Err(error) => {
            if error.kind() != ErrorKind::NotFound {
                return Err(error);
            }
        }
    }
    write_draft(rt, draft, b"")?;
    fs::remove_file(rt, draft)
}

/// Writes the draft, and has it take the place of the file.
fn put_in_place(rt: &HostRuntime, path: &str, draft: &str, text: &[u8]) -> io::Result<()> {
    write_draft(rt, draft, text)?;
    fs::rename(rt, draft, path)
}

/// Writes a new file. What a process of the same number has left is removed before.
fn write_draft(rt: &HostRuntime, draft: &str, text: &[u8]) -> io::Result<()> {
    let _ = fs::remove_file(rt, draft);
    let mut file = OpenOptions::new()
        .write(true)
        .create_new(true)
        .open(rt, draft)?;
    file.write_all(text)
}
