//! The rules of a script, in the order of their lines.

ghost use Rattle.std.specs.Prelude.{◌≡◌, ◌++◌, ◌∷◌, [], OnOk, OnErr};

use dns_name::OutOfMemory;
use std::alloc::Global;
use std::marker::Model;

/// Rules of one kind, in order.
#[derive(Drop)]
pub struct RuleList<R> {
    rules: Vec<R>,
}

impl<R> Model for RuleList<R> {
    ghost use Rattle.std.specs.Prelude.{List};

    ghost Value = { List R };

    ghost view = { λ r. r.rules.items };
}

impl<R: Drop> RuleList<R> {
    /// A list without rules.
    pub fn new(alloc: Global) -> RuleList<R>
        ensures { result ≡ [] }
    {
        RuleList::from_vec(Vec::new(alloc))
    }

    /// The rules of a vector, which is not copied.
    pub fn from_vec(rules: Vec<R>) -> RuleList<R>
        ensures { result ≡ rules.items }
    {
        RuleList { rules }
    }

    /// The rules, in the order of their lines.
    pub fn as_slice(&self) -> &[R]
        ensures { result.now ≡ self.now }
    {
        self.rules.as_slice()
    }

    /// The rules, which are not copied.
    pub fn into_vec(self) -> Vec<R>
        ensures { result.items ≡ self }
    {
        self.rules
    }

    /// Appends a rule to the list, as its last one.
    pub fn push(&mut self, rule: R) -> Result<(), OutOfMemory>
        ensures ok { OnOk result (self.new ≡ self.old ++ rule ∷ []) }
        ensures err { OnErr result (self.new ≡ self.old) }
    {
        self.rules.push(rule)?;
        Ok(())
    }
}
