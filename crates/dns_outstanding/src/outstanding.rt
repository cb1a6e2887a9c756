//! Questions that are asked at a time.

ghost use Rattle.std.specs.Prelude.{◌≡◌, ◌++◌, ◌∷◌, [], not, if◌then◌else◌, IfOk, OnErr};
ghost use Rattle.dns_outstanding.specs.Outstanding.{AreAskedOnce, is_asked, place_of, without};

use dns_message::Question;
use dns_name::OutOfMemory;
use std::alloc::Global;
use std::marker::Model;

/// A question, and the place at which it is asked.
#[derive(Drop)]
pub struct AskedQuestion {
    pub place: usize,
    pub question: Question,
}

/// Questions that are asked of upstreams at a time, each of them once. Contracts see them in the order in which they were begun.
#[derive(Drop)]
pub struct Outstanding {
    asked: Vec<AskedQuestion>,
}

impl Model for Outstanding {
    ghost use Rattle.std.specs.Prelude.{List};
    ghost use Rattle.dns_outstanding.specs.declared.outstanding.AskedQuestion.{AskedQuestion};
    ghost use Rattle.dns_outstanding.specs.Outstanding.{AreAskedOnce};

    ghost Value = { List AskedQuestion };

    ghost view = { λ o. o.asked.items };

    ghost invariant = { λ o. AreAskedOnce o.asked.items };
}

impl Outstanding {
    /// No question.
    pub fn new(alloc: Global) -> Outstanding
        ensures { result ≡ [] }
    {
        Outstanding {
            asked: Vec::new(alloc),
        }
    }

    /// The place at which a question is asked, if it is.
    pub fn place_of(&self, question: &Question) -> Option<usize>
        ensures { result ≡ place_of question.now self.now }
    {
        self.asked
            .iter()
            .find(|asked| *question == asked.question)
            .map(|asked| asked.place)
    }

    /// Whether a question is asked.
    fn is_asked(&self, question: &Question) -> bool
        ensures { result ≡ is_asked question.now self.now }
    {
        self.asked.iter().any(|asked| *question == asked.question)
    }

    /// A question is asked at a place from now on, unless it is asked already; whether it was begun is given. A refused call leaves
    /// all as it was.
    pub fn ask(&mut self, place: usize, question: Question) -> Result<bool, OutOfMemory>
        ensures begun { IfOk result (λ begun. begun ≡ not (is_asked question self.old)) }
        ensures kept { IfOk result (λ begun. self.new
            ≡ (if begun then self.old ++ record { place = place; question = question } ∷ [] else self.old)) }
        ensures err { OnErr result (self.new ≡ self.old) }
    {
        if self.is_asked(&question) {
            return Ok(false);
        }
        self.asked.push(AskedQuestion { place, question })?;
        Ok(true)
    }

    /// What is asked at a place has ended.
    pub fn end(&mut self, place: usize)
        ensures { self.new ≡ without place self.old }
    {
        self.asked.retain(|asked| asked.place != place);
    }

    /// Each question is asked at one place at most.
    pub fn each_once(&self)
        ensures { AreAskedOnce self.now }
    {
        let _asked = &self.asked;
    }
}
