//! Zone files that include others (RFC 1035, section 5.1), read as records.
//!
//! - `read_zone_including` reads a text, and at each `$INCLUDE` the text of the name that stands there. Texts come from a
//!   `ZoneTexts`, which is asked by name. No file is opened here.
//! - `ZoneTextList` holds texts that were read beforehand. A program may add the text that `NoText` names, and read
//!   again.
//! - `IncludeError` says why there are no records: the name of a text, a line of it, and an `IncludeReason`; or no
//!   memory.
//!
//! An included text has the origin that is named after it, or that of the including one. After it the origin and the
//! last owner are those before. TTLs go on, as in BIND. Its lines are counted from 1, and a parenthesis ends in it. A
//! text that is being read isn't included, and texts nest 16 levels deep at most.
//!
//! ```text
//! $INCLUDE hosts.zone lan -> ZoneTexts::text_named("hosts.zone") -> its records, below lan.ORIGIN
//! ```
//!
//! # What is proved
//!
//! - What is read are exactly the records of the definition `zone_including`, or its first refusal: the text, the line and
//!   the reason.
//! - A text that `read_zone` reads gives the same records here (`a_zone_file_alone_is_read_so`).
//! - After `$INCLUDE` the origin and the owner are those before (`the_origin_comes_back`).
//! - No text crashes a call, and every loop ends, whatever texts include.
//!
//! # What a body could still get away with
//!
//! How often a text is looked up, and how much time and memory texts take.
#![tactic(auto)]

mod inclusion;
mod laws;
mod level;
mod refusal;
mod texts;

pub use laws::{a_zone_file_alone_is_read_so, the_origin_comes_back};
pub use level::{MOST_LEVELS, read_zone_including};
pub use refusal::{IncludeError, IncludeReason};
pub use texts::{ZoneText, ZoneTextList, ZoneTexts};
