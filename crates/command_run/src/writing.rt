//! The lines of the log are written to the sink.
ghost use Rattle.run_labels.specs.Callbacks.{callback_lines};
ghost use Rattle.run_labels.specs.Lines.{line_of};
ghost use Rattle.std.specs.Prelude.{◌≡◌, ◌++◌, ◌≢◌, ◌≤◌, OnOk, OnErr, Err};
ghost use Rattle.std.specs.Io.KnownBytes.{Appends};
ghost use Rattle.outside_io.specs.Causes.{Rose};
ghost use Rattle.command_run.specs.Headline.{WritesPart, printed, text_of};
ghost use Rattle.load_summary.specs.Summary.{summary as spec_summary};

use crate::running::Trouble;
use load_summary::summary;
use outside_io::{Failed, Sink};
use run_labels::{Label, RunLog, append_callbacks, append_line};
use std::alloc::{AllocError, Global};

/// What is told of a log.
#[derive(Clone, Copy)]
pub enum Form {
    /// The lines of its labels, with those of their steps or without them.
    Lines(bool),
    /// How many calls ended, with which codes, and in how many steps.
    Summary,
}

/// From so many bytes on, the lines that are rendered are written.
const PIECE: usize = 4096;

// Writes all of the bytes.
fn write_all<K: Sink>(sink: &mut K, bytes: &[u8]) -> Result<(), Failed>
    ensures later { K.faults sink.old ≤ K.faults sink.new }
    ensures written { OnOk result (Appends (K.held sink.old) (K.held sink.new) bytes.now) }
    ensures failed { OnErr result (Rose (K.faults sink.old) (K.faults sink.new)) }
    ensures part { OnErr result (WritesPart (K.held sink.old) (K.held sink.new) bytes.now) }
{
    let mut at = 0;
    'writing: while at < bytes.len() {
        let (_, rest) = bytes.split_at(at);
        at += sink.write(rest)?;
    }
    Ok(())
}

// What a label prints, with the lines of the callbacks behind it.
#[inline(always)]
fn append_label(text: &mut Vec<u8>, label: &Label, steps: bool) -> Result<(), AllocError>
    ensures { OnOk result (text.new.items ≡ text.old.items ++ (line_of steps label.now ++ callback_lines label.now)) }
{
    append_line(text, label, steps)?;
    append_callbacks(text, label)
}

/// Writes the lines of the labels, with their steps or without them, some thousand bytes at a time.
#[inline(never)]
pub fn write_lines<K: Sink>(
    alloc: Global,
    sink: &mut K,
    labels: &[Label],
    steps: bool,
) -> Result<(), Trouble>
    ensures later { K.faults sink.old ≤ K.faults sink.new }
    ensures written { OnOk result (Appends (K.held sink.old) (K.held sink.new) (printed steps labels.now)) }
    ensures failed { result ≡ Err Trouble.Failed → Rose (K.faults sink.old) (K.faults sink.new) }
    ensures part { OnErr result (WritesPart (K.held sink.old) (K.held sink.new) (printed steps labels.now)) }
{
    let mut text = Vec::new(alloc);
    for label in labels {
        if append_label(&mut text, label, steps).is_err() {
            return Err(Trouble::Memory);
        }
        if text.len() >= PIECE {
            if write_all(sink, text.as_slice()).is_err() {
                return Err(Trouble::Failed);
            }
            text.clear();
        }
    }
    if write_all(sink, text.as_slice()).is_err() {
        return Err(Trouble::Failed);
    }
    Ok(())
}

/// Writes what is told of a log.
pub fn write_log<K: Sink>(
    alloc: Global,
    sink: &mut K,
    log: &RunLog,
    form: Form,
) -> Result<(), Trouble>
    ensures later { K.faults sink.old ≤ K.faults sink.new }
    ensures written { OnOk result (Appends (K.held sink.old) (K.held sink.new) (text_of form log.now.labels)) }
    ensures failed { result ≡ Err Trouble.Failed → Rose (K.faults sink.old) (K.faults sink.new) }
    ensures part { OnErr result (WritesPart (K.held sink.old) (K.held sink.new) (text_of form log.now.labels)) }
{
    match form {
        Form::Lines(steps) => write_lines(alloc, sink, log.as_slice(), steps),
        Form::Summary => write_summary(alloc, sink, log),
    }
}

// Writes the summary of a log.
#[inline(never)]
fn write_summary<K: Sink>(alloc: Global, sink: &mut K, log: &RunLog) -> Result<(), Trouble>
    ensures later { K.faults sink.old ≤ K.faults sink.new }
    ensures written { OnOk result (Appends (K.held sink.old) (K.held sink.new) (spec_summary log.now.labels)) }
    ensures failed { result ≡ Err Trouble.Failed → Rose (K.faults sink.old) (K.faults sink.new) }
    ensures part { OnErr result (WritesPart (K.held sink.old) (K.held sink.new) (spec_summary log.now.labels)) }
{
    let Ok(text) = summary(alloc, log) else {
        return Err(Trouble::Memory);
    };
    match write_all(sink, text.as_slice()) {
        Ok(()) => Ok(()),
        Err(Failed) => Err(Trouble::Failed),
    }
}
