//! Names with values, and the value of the deepest name that ends a given one. Routers, forwarders and authorities
//! choose by it.
//!
//! - `Routes` holds names and their values, in the order in which they were added. To contracts it is that list.
//! - `add` adds a name and its value after the others. A name may be added more than once.
//! - `for_name` gives the value for a name.
//! - `Seed` is what the hashes of names begin from: `Seed::fixed` for names that nobody else picks, `Seed::random`
//!   for names that strangers may add.
//!
//! ```text
//! Routes: example.com -> a, com -> b, . -> c
//! for_name(www.example.com) = a    for_name(net) = c
//! ```
//!
//! # What is proved
//!
//! - `for_name` gives the value that is `chosen`. Its name ends the given one, up to ASCII case (RFC 4343), and no
//!   other name that does has more labels.
//! - Of names with equally many labels the one that was added last counts.
//! - "Ends" is what `Name::ends_with` says (`matches_are_suffixes`).
//! - `add` appends, and a refused call leaves the names and their values.
//! - A look-up changes nothing.
//!
//! # What a body could still get away with
//!
//! How many look-ups one call makes. By reading the code it makes one for each label of the name, but none that is
//! longer than any name added. The seed shows in no contract.
#![tactic(auto)]

mod laws;
mod places;
mod routes;
mod seed;

pub use laws::matches_are_suffixes;
pub use routes::Routes;
pub use seed::Seed;
