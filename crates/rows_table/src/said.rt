//! What is written of a row's call. A space parts what one call of these says from what the next one says.

use crate::{Row, RowError};
use std::fmt::{Debug, Display};

impl Row<'_> {
    /// What the call says so far.
    pub fn said(&self) -> &str {
        self.said.as_str()
    }

    /// Keeps that a call ran out of memory, which is its only refusal.
    pub fn keep<E: Drop>(&mut self, done: Result<(), E>) {
        match done {
            Ok(()) => {}
            Err(_) => self.fail(RowError::OutOfMemory),
        }
    }

    /// Parts what comes from what stands there.
    fn part(&mut self) {
        if !self.said.is_empty() {
            self.close(" ");
        }
    }

    /// Says a text, after what stands there with no space between.
    pub fn close(&mut self, text: &str) {
        let done = self.said.push_str(text);
        self.keep(done);
    }

    /// Says a text.
    pub fn say(&mut self, text: &str) {
        if !text.is_empty() {
            self.part();
            self.close(text);
        }
    }

    /// Says what a value displays, after what stands there with no space between.
    pub fn close_shown<T: Display>(&mut self, value: &T) {
        let done = write!(self.said, "{value}");
        self.keep(done);
    }

    /// Says what a value displays.
    pub fn show<T: Display>(&mut self, value: &T) {
        self.part();
        self.close_shown(value);
    }

    /// Says what a value displays, in quotation marks.
    pub fn quote<T: Display>(&mut self, value: &T) {
        self.say("\"");
        self.close_shown(value);
        self.close("\"");
    }

    /// Says a value by the names of its variants.
    pub fn debug<T: Debug>(&mut self, value: &T) {
        self.part();
        let done = write!(self.said, "{value:?}");
        self.keep(done);
    }

    /// Says `ok`, or by its name why something is refused.
    pub fn outcome<E: Debug + Drop>(&mut self, done: Result<(), E>) {
        match done {
            Ok(()) => self.say("ok"),
            Err(refusal) => self.debug(&refusal),
        }
    }

    /// Says what a value displays, under a name.
    pub fn tell<T: Display>(&mut self, name: &str, value: &T) {
        self.say(name);
        self.close("=");
        self.close_shown(value);
    }

    /// Says under a name whether something holds.
    pub fn tell_whether(&mut self, name: &str, holds: bool) {
        self.say(name);
        self.close(if holds { "=yes" } else { "=no" });
    }

    /// Says whether something holds.
    pub fn whether(&mut self, holds: bool) {
        self.say(if holds { "yes" } else { "no" });
    }

    /// Says octets in hexadecimal, `-` for none.
    pub fn hexadecimal(&mut self, octets: &[u8]) {
        self.part();
        self.close_octets(octets);
    }

    /// Says octets under a name.
    pub fn tell_octets(&mut self, name: &str, octets: &[u8]) {
        self.say(name);
        self.close("=");
        self.close_octets(octets);
    }

    /// Says octets after what stands there with no space between.
    fn close_octets(&mut self, octets: &[u8]) {
        if octets.is_empty() {
            return self.close("-");
        }
        match hex::encode(self.alloc(), octets) {
            Ok(digits) => self.close(digits.as_str()),
            Err(_) => self.fail(RowError::OutOfMemory),
        }
    }

    /// Says why octets are refused, and nothing else.
    pub fn refuse(&mut self, error: dns_name::ParseError) {
        self.said.clear();
        self.debug(&error);
    }
}
