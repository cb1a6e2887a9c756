//! Why rules aren't made.

/// Why the rules of a configuration aren't made.
#[derive(Clone, Copy)]
pub enum RuleError {
    /// The rule at this place names a key that isn't there.
    UnknownKey(usize),
    OutOfMemory,
}
