//! The flag words of an Apply, and the attributes by which a target's lines are configured.
ghost use Rattle.std.specs.Prelude.{◌≡◌, ◌+◌, ◌<◌, ◌≤◌, [], ◌∷◌, ◌++◌, length, ◌==◌};
ghost use Rattle.std.specs.List.{list_any};
ghost use Rattle.gl_driver.specs.Calls.{FitsOp};
ghost use Rattle.gl_uapi.specs.declared.layout.TheConstants.{ATTRIBUTES_MAX};
ghost use Rattle.gl_aggregator.specs.Commands.{attributes_to, flag_words, flags_attribute, values_attribute, with_word, with_words};
ghost use Rattle.gl_aggregator.specs.Routes.{IsRoute, line_at, lines_on, position_at};

use crate::routes::Route;
use crate::words::{Choice, offsets_of, position_at, word_at, word_to};
use gl_base::Op;
use gl_uapi::layout::ATTRIBUTES_MAX;
use gl_uapi::{AttributeValue, NewAttribute};
use std::marker::Model;

/// Flag words, at most one for each line. Contracts see the list of them.
#[derive(Drop)]
pub(crate) struct FlagWords {
    count: u32,
    words: [u64; 64],
}

impl Model for FlagWords {
    ghost use Rattle.std.specs.Prelude.{◌≤◌, ℕ, List, take};

    ghost Value = { List ℕ };

    ghost view = { λ w. take w.count w.words };

    ghost invariant = { λ w. w.count ≤ 64 };
}

impl FlagWords {
    /// No words.
    fn new() -> FlagWords
        ensures { result ≡ [] }
    {
        FlagWords {
            count: 0,
            words: [0; 64],
        }
    }

    /// The words.
    pub(crate) fn words(&self) -> &[u64]
        ensures words { result.now ≡ self.now }
        ensures few { length self.now ≤ 64 }
    {
        &self.words[..self.count as usize]
    }

    /// One word more.
    fn put(&mut self, word: u64)
        requires { length self.old < 64 }
        ensures { self.new ≡ self.old ++ word ∷ [] }
    {
        self.words[self.count as usize] = word;
        self.count += 1;
    }

    /// One word more, where it isn't 0 and isn't among them.
    fn put_new(&mut self, word: u64)
        requires { length self.old < 64 }
        ensures words { self.new ≡ with_word word self.old }
        ensures few { length self.new ≤ length self.old + 1 }
    {
        if word == 0 || is_among(self.words(), word) {
            return;
        }
        self.put(word);
    }

    /// The flag word of one of an operation's lines more, if the line is the target's.
    fn put_line(&mut self, op: &Op, route: &Route, i: u32, offset: u32)
        requires room { length self.old ≤ i }
        requires i { i < 64 }
        requires route { IsRoute route.now }
        ensures words { self.new ≡ with_words op.now self.old (line_at i (position_at op.now route.now.base route.now.target.lines.count i offset)) }
        ensures few { length self.new ≤ i + 1 }
    {
        match position_at(op, route, i, offset) {
            Some(_) => self.put_new(word_at(op, i)),
            None => {}
        }
    }
}

/// The word is one of these.
fn is_among(words: &[u64], word: u64) -> bool
    ensures { result ≡ list_any (λ other. other == word) words.now }
{
    for other in words {
        if *other == word {
            return true;
        }
    }
    false
}

/// The flag words of an operation's lines that are the target's, each once, in the order of their first lines.
pub(crate) fn flag_words(op: &Op, route: &Route) -> FlagWords
    requires op { FitsOp op.now }
    requires route { IsRoute route.now }
    ensures { result ≡ flag_words op.now (lines_on op.now route.now) }
{
    let offsets = offsets_of(op);
    let mut words = FlagWords::new();
    for (i, offset) in offsets.iter().enumerate() {
        words.put_line(op, route, i as u32, *offset);
    }
    words
}

/// The attribute of a flag word, for the target's lines that have it.
fn flags_attribute(op: &Op, route: &Route, word: u64) -> NewAttribute
    requires op { FitsOp op.now }
    requires route { IsRoute route.now }
    ensures { result ≡ flags_attribute op.now (lines_on op.now route.now) word }
{
    NewAttribute {
        value: AttributeValue::Flags(word),
        mask: word_to(op, route, Choice::Flagged(word)),
    }
}

/// The attribute of the output values of the target's lines.
fn values_attribute(op: &Op, route: &Route) -> NewAttribute
    requires op { FitsOp op.now }
    requires route { IsRoute route.now }
    ensures { result ≡ values_attribute op.now (lines_on op.now route.now) }
{
    NewAttribute {
        value: AttributeValue::OutputValues(word_to(op, route, Choice::High)),
        mask: word_to(op, route, Choice::All),
    }
}

/// Attributes, at most as many as a configuration has room for. Contracts see the list of them.
#[derive(Drop)]
pub(crate) struct Attributes {
    count: u32,
    rows: [NewAttribute; ATTRIBUTES_MAX as usize],
}

impl Model for Attributes {
    ghost use Rattle.std.specs.Prelude.{◌≤◌, List, take};
    ghost use Rattle.gl_uapi.specs.declared.layout.TheConstants.{ATTRIBUTES_MAX};
    ghost use Rattle.gl_uapi.specs.declared.new_requests.NewAttribute.{NewAttribute};

    ghost Value = { List NewAttribute };

    ghost view = { λ a. take a.count a.rows };

    ghost invariant = { λ a. a.count ≤ ATTRIBUTES_MAX };
}

impl Attributes {
    /// No attribute.
    fn new() -> Attributes
        ensures { result ≡ [] }
    {
        Attributes {
            count: 0,
            rows: no_attributes(),
        }
    }

    /// One attribute more.
    fn put(&mut self, attribute: &NewAttribute)
        requires { length self.old < ATTRIBUTES_MAX }
        ensures { self.new ≡ self.old ++ attribute.now ∷ [] }
    {
        self.rows[self.count as usize] = *attribute;
        self.count += 1;
    }

    /// The attributes.
    pub(crate) fn rows(&self) -> &[NewAttribute]
        ensures rows { result.now ≡ self.now }
        ensures few { length self.now ≤ ATTRIBUTES_MAX }
    {
        &self.rows[..self.count as usize]
    }
}

/// Rows without an attribute.
fn no_attributes() -> [NewAttribute; ATTRIBUTES_MAX as usize] {
    [NewAttribute {
        value: AttributeValue::Flags(0),
        mask: 0,
    }; ATTRIBUTES_MAX as usize]
}

/// The attributes by which the target's lines are configured: one for each of the flag words, and then the output values.
pub(crate) fn attributes_for(op: &Op, route: &Route, words: &FlagWords) -> Attributes
    requires op { FitsOp op.now }
    requires route { IsRoute route.now }
    requires words { words.now ≡ flag_words op.now (lines_on op.now route.now) }
    requires fit { length words.now < ATTRIBUTES_MAX }
    ensures { result ≡ attributes_to op.now (lines_on op.now route.now) }
{
    let each = words.words();
    let mut found = Attributes::new();
    for word in each {
        found.put(&flags_attribute(op, route, *word));
    }
    found.put(&values_attribute(op, route));
    found
}
