//! From bytes to a script, line by line, or to the first fault.
ghost use Rattle.std.specs.Prelude.{◌≡◌, ◌<◌, ◌≤◌, ◌+◌, OnOk, IfErr, IfOk, Ok, None, false};
ghost use Rattle.std.specs.Bool.{OnTrue};
ghost use Rattle.ckpt_types.specs.Limits.{script_lines_max, script_reads_max};
ghost use Rattle.script_lang.specs.declared.faults.ParseError.TheVariants as parse_errors;
ghost use Rattle.script_lang.specs.Faults.{Parses, Misses};
ghost use Rattle.script_lang.specs.BuiltScripts.{IsBuiltScript};
ghost use Rattle.script_lang.specs.Scripts.{IsScript};
ghost use Rattle.script_lines.specs.Table.{line_said};
ghost use Rattle.script_lang.specs.Grammar.{start, take_line, take_lines, script_of, whole_script, if_allowed, fault_of, text_lines, after_reading, some_line, words_of, is_race as spec_is_race, IsSmall};
ghost use Rattle.script_lang.specs.Plain.{OnlyAsks};

use crate::faults::{ParseError, ScriptFault};
use crate::marks::{Marks, is_race, next_marks};
use crate::quick::{Quick, behind_begin, quick_line};
use crate::reading::{first_line, read_line, says_nothing};
use crate::script::Script;
use ckpt_types::{ActorName, Op, SCRIPT_BYTES_MAX, SCRIPT_LINES_MAX, SCRIPT_READS_MAX, Vector};
use script_lines::Line;
use script_words::{LineError, Reason};
use std::alloc::{AllocError, Global};
use std::marker::Model;

// Most lines have more bytes.
const LINE_BYTES: usize = 16;

/// The script that the bytes spell, or the first line at fault. Memory may be refused at any line.
pub fn parse(alloc: Global, bytes: &[u8]) -> Result<Script, ParseError>
    ensures exact { Parses result (script_of bytes.now) }
    ensures script { IfOk result IsScript }
    ensures built { IfOk result IsBuiltScript }
{
    parse_exactly(alloc, bytes)
}

#[tactic(auto, unfolding(crate::specs::Grammar::script_of))]
fn parse_exactly(alloc: Global, bytes: &[u8]) -> Result<Script, ParseError>
    ensures { Parses result (script_of bytes.now) }
{
    if bytes.len() > SCRIPT_BYTES_MAX {
        let fault = ScriptFault {
            line: 0,
            reason: Reason::Length,
        };
        return Err(fault.into());
    }
    let mut reader = Reader::new(alloc, room_for(bytes.len()))?;
    read_all(alloc, &mut reader, bytes)?;
    reader.finish()
}

// So many lines have room from the beginning in a script of so many bytes: those of most scripts.
fn room_for(bytes: usize) -> usize {
    (bytes / LINE_BYTES).min(SCRIPT_LINES_MAX as usize)
}

// The lines one after the other.
fn read_all(alloc: Global, reader: &mut Reader, bytes: &[u8]) -> Result<(), ParseError>
    ensures ok { OnOk result (take_lines reader.old (text_lines bytes.now) ≡ Ok reader.new) }
    ensures err { IfErr result (λ e. Misses e (take_lines reader.old (text_lines bytes.now))) }
{
    let mut rest = bytes;
    while !rest.is_empty() {
        let (line, behind) = first_line(rest);
        reader.take(alloc, line)?;
        rest = behind;
    }
    Ok(())
}

// What was read of a script so far.
#[derive(Drop)]
struct Reader {
    lines: Vec<Line>,
    number: u32,
    race: u32,
    marks: Marks,
}

impl Model for Reader {
    ghost use Rattle.std.specs.Prelude.{◌≡◌, ◌≤◌, length, reverse};
    ghost use Rattle.ckpt_types.specs.Limits.{script_lines_max};
    ghost use Rattle.script_lang.specs.Grammar.{Progress, marks_of, IsSmall};

    ghost Value = { Progress };

    ghost view = { λ r. record { number = r.number; race = r.race; earlier = reverse r.lines.items } };

    ghost invariant = { λ r. (r.number ≤ script_lines_max) × (length r.lines.items ≤ r.number) × (r.marks ≡ marks_of (reverse r.lines.items)) × IsSmall r.marks };
}

impl Reader {
    #[tactic(auto, unfolding(crate::specs::Grammar::marks_of))]
    fn new(alloc: Global, room: usize) -> Result<Reader, AllocError>
        ensures { IfOk result (λ r. r ≡ start) }
    {
        let lines = Vec::with_capacity(alloc, room)?;
        Ok(Reader {
            lines,
            number: 0,
            race: 0,
            marks: Marks {
                none: true,
                moment: 0,
                block: None,
                asked: 0,
                shows: 0,
            },
        })
    }

    // One more line of the text.
    #[tactic(auto, unfolding(crate::specs::Grammar::take_line))]
    fn take(&mut self, alloc: Global, text: &[u8]) -> Result<(), ParseError>
        ensures ok { OnOk result (take_line self.old text.now ≡ Ok self.new) }
        ensures err { IfErr result (λ e. Misses e (take_line self.old text.now)) }
    {
        if self.number >= SCRIPT_LINES_MAX {
            return Err(self.fault(Reason::Lines));
        }
        if says_nothing(text) {
            self.skip();
            return Ok(());
        }
        match quick_line(alloc, text)? {
            Quick::Write(client, place, update) => {
                self.add_access(Line::Call(client, Op::Write(place, update)), 0)
            }
            Quick::Read(client, place, elements, len) => {
                self.add_access(Line::Call(client, Op::Read(place, elements)), len)
            }
            Quick::Other => self.take_other(alloc, text),
        }
    }

    // One more line that says something, where it is not read at once. It is, where it is so behind `begin`.
    #[inline(never)]
    fn take_other(&mut self, alloc: Global, text: &[u8]) -> Result<(), ParseError>
        requires { self.old.number < script_lines_max }
        ensures ok { OnOk result (after_reading self.old (some_line (line_said (words_of text.now))) ≡ Ok self.new) }
        ensures err { IfErr result (λ e. Misses e (after_reading self.old (some_line (line_said (words_of text.now))))) }
    {
        let Some(rest) = behind_begin(text) else {
            return self.take_any(alloc, text);
        };
        match quick_line(alloc, rest)? {
            Quick::Write(client, place, update) => {
                let op = Op::Write(place, update);
                self.add_access(Line::Begin(ActorName::Client(client), op), 0)
            }
            Quick::Read(client, place, elements, len) => {
                let op = Op::Read(place, elements);
                self.add_access(Line::Begin(ActorName::Client(client), op), len)
            }
            Quick::Other => self.take_any(alloc, text),
        }
    }

    // One more line that says something, of any form.
    #[inline(always)]
    fn take_any(&mut self, alloc: Global, text: &[u8]) -> Result<(), ParseError>
        requires { self.old.number < script_lines_max }
        ensures ok { OnOk result (after_reading self.old (some_line (line_said (words_of text.now))) ≡ Ok self.new) }
        ensures err { IfErr result (λ e. Misses e (after_reading self.old (some_line (line_said (words_of text.now))))) }
    {
        match read_line(alloc, text) {
            Ok(line) => self.add(line),
            Err(LineError::NoMemory) => Err(ParseError::NoMemory),
            Err(LineError::Fault(reason)) => Err(self.fault(reason)),
        }
    }

    // The next line has this fault.
    fn fault(&self, reason: Reason) -> ParseError
        ensures { result ≡ parse_errors.Fault (record { line = self.now.number + 1; reason = reason }) }
    {
        ParseError::Fault(ScriptFault {
            line: self.number + 1,
            reason,
        })
    }

    // One more line that says nothing.
    fn skip(&mut self)
        requires { self.old.number < script_lines_max }
        ensures { self.new ≡ record self.old { number = self.old.number + 1 } }
    {
        self.number += 1;
    }

    // One more write or read, which asks for so many bytes.
    #[inline(always)]
    #[tactic(auto, using(crate::proofs::Marking::marks_more))]
    fn add_access(&mut self, line: Line, asked: u64) -> Result<(), ParseError>
        requires number { self.old.number < script_lines_max }
        requires race { spec_is_race line ≡ false }
        requires marks { OnlyAsks line asked }
        ensures ok { OnOk result (if_allowed self.old line (fault_of self.old.earlier line) ≡ Ok self.new) }
        ensures err { IfErr result (λ e. Misses e (if_allowed self.old line (fault_of self.old.earlier line))) }
    {
        if !takes(&self.marks, asked) {
            return self.add_apart(line);
        }
        if self.lines.reserve(1).is_err() {
            let_go(line);
            return Err(ParseError::NoMemory);
        }
        self.lines.push_reserved(line);
        self.number += 1;
        self.marks.asked += asked;
        Ok(())
    }

    // One more line that says something, apart from the reading of those that are most used.
    #[inline(never)]
    fn add_apart(&mut self, line: Line) -> Result<(), ParseError>
        requires { self.old.number < script_lines_max }
        ensures ok { OnOk result (if_allowed self.old line (fault_of self.old.earlier line) ≡ Ok self.new) }
        ensures err { IfErr result (λ e. Misses e (if_allowed self.old line (fault_of self.old.earlier line))) }
    {
        self.add(line)
    }

    // One more line that says something.
    #[inline(always)]
    #[tactic(auto, using(crate::proofs::Marking::marks_more))]
    fn add(&mut self, line: Line) -> Result<(), ParseError>
        requires { self.old.number < script_lines_max }
        ensures ok { OnOk result (if_allowed self.old line (fault_of self.old.earlier line) ≡ Ok self.new) }
        ensures err { IfErr result (λ e. Misses e (if_allowed self.old line (fault_of self.old.earlier line))) }
    {
        let marks = match next_marks(self.marks, &line) {
            Ok(marks) => marks,
            Err(reason) => {
                let_go(line);
                return Err(self.fault(reason));
            }
        };
        if self.lines.reserve(1).is_err() {
            let_go(line);
            return Err(ParseError::NoMemory);
        }
        let race = if is_race(&line) {
            self.number + 1
        } else {
            self.race
        };
        self.lines.push_reserved(line);
        self.number += 1;
        self.race = race;
        self.marks = marks;
        Ok(())
    }

    // The script, where no block is left open.
    #[tactic(auto, unfolding(crate::specs::Grammar::marks_of))]
    fn finish(self) -> Result<Script, ParseError>
        ensures { Parses result (whole_script self) }
    {
        if self.marks.block.is_some() {
            return Err(ParseError::Fault(ScriptFault {
                line: self.race,
                reason: Reason::Race,
            }));
        }
        Ok(Vector::from_vec(self.lines))
    }
}

// Whether a line stands in no block, and may ask for so many bytes.
#[inline(always)]
fn takes(marks: &Marks, asked: u64) -> bool
    requires { IsSmall marks.now }
    ensures { OnTrue result ((marks.now.none ≡ false) × (marks.now.block ≡ None) × (marks.now.asked + asked ≤ script_reads_max)) }
{
    if marks.none {
        return false;
    }
    match marks.block {
        Some(_) => false,
        None => asked <= SCRIPT_READS_MAX - marks.asked,
    }
}

// Lets the line go.
fn let_go(line: Line) {
    let _ = line;
}
