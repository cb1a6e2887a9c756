//! A law of names that end others.

ghost use Rattle.std.specs.Prelude.{◌↔◌, ℕ, List, IsTrue};
ghost use Rattle.dns_name.specs.Labels.{EndsWith};
ghost use Rattle.dns_routes.specs.Routes.{ends_name};

/// A name ends another exactly if `Name::ends_with` says so.
pub fn matches_are_suffixes()
    ensures { (q name : List (List ℕ)) → IsTrue (ends_name q name) ↔ EndsWith q name }
{}
