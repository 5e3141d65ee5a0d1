//! A record that is being written.

ghost use Rattle.std.specs.Prelude.{◌≡◌, [], ◌∷◌, ◌++◌, ◌≤◌, length, take, IfOk, OnOk, OnErr, string_bytes};
ghost use Rattle.lat_outside.specs.Causes.{Rose};
ghost use Rattle.lat_record.specs.OpeningText.{opening_text};
ghost use Rattle.lat_record.specs.RecordText.{entry_text, record_text};
ghost use Rattle.lat_record.specs.Recorders.{AllWritten, FrontOf, IsRecord, SomeWritten, Wrote, WroteFront};

use crate::opening::Opening;
use crate::written::{entry_onto, opening_onto};
use lat_base::Memory;
use lat_outside::{Failed, Sink};
use lat_past::Past;
use lat_tale::Tale;
use std::alloc::{AllocError, Global};
use std::marker::Model;

/// Whether a record goes on.
#[derive(Clone, Copy, Debug, PartialEq, Eq)]
pub enum Recording {
    /// It is written on.
    On,
    /// A write failed, or no memory was found for a line: nothing is written any more.
    Over,
}

/// A record of what a core is told, on its way to a sink. Contracts see what the core was made of and its whole history, all text
/// that was written, and the text that is to be written; the first three exist in the proofs alone. What was written and what is
/// to be written are together the record, while it goes on, and the front of it once it is over.
pub struct Recorder<K: Sink> {
    opening: Opening,
    history: Tale<Past>,
    file: K,
    text: Tale<u8>,
    rest: String,
    state: Recording,
}

impl<K: Sink> Drop for Recorder<K> {
    fn drop(self) {
        let Self {
            opening,
            history,
            file,
            text,
            rest,
            state,
        } = self;
    }
}

impl<K: Sink> Model for Recorder<K> {
    ghost use Rattle.std.specs.Prelude.{◌++◌, string_bytes};
    ghost use Rattle.lat_record.specs.RecordText.{record_text};
    ghost use Rattle.lat_record.specs.Recorders.{IsRecord, RecorderView};

    ghost Value = { RecorderView K };

    ghost view = { λ a. record {
      opening = a.opening;
      history = a.history.items;
      file = a.file;
      text = a.text.items;
      rest = string_bytes a.rest;
      state = a.state;
    } };

    ghost invariant = { λ a. IsRecord a.state (a.text.items ++ string_bytes a.rest) (record_text a.opening a.history.items) };
}

// The line of an event in a text of its own.
fn entry_line(alloc: Global, past: &Past) -> Result<String, AllocError>
    ensures { IfOk result (λ line. string_bytes line ≡ entry_text past.now) }
{
    let mut line = String::new(alloc);
    entry_onto(alloc, &mut line, past)?;
    Ok(line)
}

// Adds the line of an event to a text. After want of memory the text is as it was.
fn add_line(alloc: Global, text: &mut String, past: &Past) -> Result<(), AllocError>
    ensures ok { OnOk result (string_bytes text.new ≡ string_bytes text.old ++ entry_text past.now) }
    ensures err { OnErr result (string_bytes text.new ≡ string_bytes text.old) }
{
    let line = entry_line(alloc, past)?;
    text.push_str(&line)
}

// Adds so many bytes of these to the text.
fn tell_front(text: &mut Tale<u8>, bytes: &[u8], count: usize)
    requires { count ≤ length bytes.now }
    ensures { text.new.items ≡ text.old.items ++ take count bytes.now }
{
    let (front, _) = bytes.split_at(count);
    text.push_all(front);
}

// Writes all of these bytes, and adds those that were written to the text.
fn write_on<K: Sink>(file: &mut K, text: &mut Tale<u8>, bytes: &[u8]) -> Result<(), Failed>
    ensures all { OnOk result (text.new.items ≡ text.old.items ++ bytes.now) }
    ensures front { WroteFront (K.written file.old) (K.written file.new) text.old.items text.new.items bytes.now }
    ensures fault { OnErr result (Rose (K.faults file.old) (K.faults file.new)) }
    ensures later { K.faults file.old ≤ K.faults file.new }
{
    let mut at = 0;
    while at < bytes.len() {
        let (_, rest) = bytes.split_at(at);
        let n = file.write(rest)?;
        if n == 0 {
            return Err(Failed);
        }
        tell_front(text, rest, n);
        at += n;
    }
    Ok(())
}

// Writes all of the rest, and lets go of it.
fn write_out<K: Sink>(file: &mut K, text: &mut Tale<u8>, rest: &mut String) -> Recording
    ensures wrote { Wrote (K.written file.old) (K.written file.new) text.old.items text.new.items }
    ensures all { result ≡ Recording.On → text.new.items ≡ text.old.items ++ string_bytes rest.old }
    ensures some { FrontOf text.old.items (string_bytes rest.old) text.new.items }
    ensures none { string_bytes rest.new ≡ [] }
    ensures fault { result ≡ Recording.Over → Rose (K.faults file.old) (K.faults file.new) }
{
    let state = match write_on(file, text, rest.as_bytes()) {
        Ok(()) => Recording::On,
        Err(_) => Recording::Over,
    };
    rest.clear();
    state
}

// Writes all of the rest where the record goes on, and lets go of it.
fn write_rest<K: Sink>(
    state: Recording,
    file: &mut K,
    text: &mut Tale<u8>,
    rest: &mut String,
) -> Recording
    ensures wrote { Wrote (K.written file.old) (K.written file.new) text.old.items text.new.items }
    ensures all { result ≡ Recording.On → AllWritten state text.old.items (string_bytes rest.old)
        text.new.items (string_bytes rest.new) }
    ensures some { state ≡ Recording.On → result ≡ Recording.Over →
        SomeWritten text.old.items (string_bytes rest.old) text.new.items (string_bytes rest.new) }
    ensures fault { state ≡ Recording.On → result ≡ Recording.Over →
        Rose (K.faults file.old) (K.faults file.new) }
    ensures stays { state ≡ Recording.Over → (result ≡ Recording.Over)
        × ((file.new ≡ file.old) × ((text.new ≡ text.old) × (rest.new ≡ rest.old))) }
{
    match state {
        Recording::On => write_out(file, text, rest),
        Recording::Over => Recording::Over,
    }
}

// Adds the line of an event to the rest, where the record goes on and memory is found for it.
fn add_rest(alloc: Global, state: Recording, rest: &mut String, past: &Past) -> Recording
    ensures on { result ≡ Recording.On →
        (state ≡ Recording.On) × (string_bytes rest.new ≡ string_bytes rest.old ++ entry_text past.now) }
    ensures over { result ≡ Recording.Over → string_bytes rest.new ≡ string_bytes rest.old }
{
    match state {
        Recording::On => match add_line(alloc, rest, past) {
            Ok(()) => Recording::On,
            Err(_) => Recording::Over,
        },
        Recording::Over => Recording::Over,
    }
}

impl<K: Sink> Recorder<K> {
    /// The record of a core that was made of this and wasn't told anything yet, on its way to this sink. Nothing is written yet.
    /// `Memory` where none is found for its first lines.
    pub fn start(alloc: Global, opening: Opening, file: K) -> Result<Recorder<K>, Memory>
        ensures opening { IfOk result (λ r. (r.opening ≡ opening) × (r.file ≡ file)) }
        ensures history { IfOk result (λ r. r.history ≡ []) }
        ensures text { IfOk result (λ r. (r.text ≡ []) × (r.rest ≡ opening_text opening)) }
        ensures on { IfOk result (λ r. r.state ≡ Recording.On) }
    {
        let mut rest = String::new(alloc);
        opening_onto(alloc, &mut rest, &opening)?;
        Ok(Recorder {
            opening,
            history: Tale::new(),
            file,
            text: Tale::new(),
            rest,
            state: Recording::On,
        })
    }

    /// While the record goes on, what was written and what is to be written are the whole record of the history; once it is over,
    /// they are the front of it.
    pub fn is_record(&self)
        ensures { IsRecord self.now.state (self.now.text ++ self.now.rest) (record_text self.now.opening self.now.history) }
    {
        let _ = &self.file;
    }

    /// Whether it goes on.
    pub fn state(&self) -> Recording
        ensures { result ≡ self.now.state }
    {
        self.state
    }

    /// The event that the core was told last, with its answer. Its line is to be written, behind all others. Where no memory is
    /// found for it the record is over.
    pub fn add(&mut self, alloc: Global, past: &Past)
        ensures history { self.new.history ≡ self.old.history ++ past.now ∷ [] }
        ensures same { (self.new.opening ≡ self.old.opening) × (self.new.file ≡ self.old.file) × (self.new.text ≡ self.old.text) }
        ensures line { self.new.state ≡ Recording.On →
            (self.old.state ≡ Recording.On) × (self.new.rest ≡ self.old.rest ++ entry_text past.now) }
        ensures over { self.new.state ≡ Recording.Over → self.new.rest ≡ self.old.rest }
    {
        let Recorder {
            history,
            rest,
            state,
            ..
        } = self;
        *history = history.and(past);
        *state = add_rest(alloc, *state, rest, past);
    }

    /// Writes all that is to be written. Where a write fails the record is over, and what is left of it is let go; once it is over,
    /// nothing is written.
    pub fn flush(&mut self)
        ensures same { (self.new.opening ≡ self.old.opening) × (self.new.history ≡ self.old.history) }
        ensures wrote { Wrote (K.written self.old.file) (K.written self.new.file) self.old.text self.new.text }
        ensures all { self.new.state ≡ Recording.On →
            (self.new.text ≡ self.old.text ++ self.old.rest) × (self.new.rest ≡ []) }
        ensures over { self.old.state ≡ Recording.On → self.new.state ≡ Recording.Over →
            Rose (K.faults self.old.file) (K.faults self.new.file) }
        ensures stays { self.old.state ≡ Recording.Over → self.new ≡ self.old }
    {
        let Recorder {
            file,
            text,
            rest,
            state,
            ..
        } = self;
        *state = write_rest(*state, file, text, rest);
    }
}
