//! What the tests serve, and what they are served by.

pub mod cases;
pub mod counting;
pub mod forgetful;
pub mod halting;
pub mod link_case;
pub mod notes;
pub mod services;
pub mod sock_case;
pub mod standing;
pub mod watched;
