//! Laws of texts that are included.

ghost use Rattle.std.specs.Prelude.{◌≡◌, ℕ, List, Ok};
ghost use Rattle.dns_message.specs.declared.record.Record.{Record};
ghost use Rattle.dns_zone_file.specs.ZoneFile.{ZoneDraft, place_of, zone_file};
ghost use Rattle.dns_zone_include.specs.Including.{Texts, included, zone_including};
ghost use Rattle.dns_zone_include.specs.declared.inclusion.Inclusion.{Inclusion};

/// A text that `read_zone` reads, in which nothing is included, gives the same records here, whatever texts there are.
pub fn a_zone_file_alone_is_read_so()
    ensures { (texts : Texts) (origin : List (List ℕ)) (name text : List ℕ) (rs : List Record)
        → zone_file origin text ≡ Ok rs → zone_including texts origin name text ≡ Ok rs }
{}

/// After `$INCLUDE` the origin is the one before, whatever the included text said (RFC 1035, section 5.1), and so is
/// the last owner.
pub fn the_origin_comes_back()
    ensures { (texts : Texts) (levels : ℕ) (names : List (List ℕ)) (name : List ℕ) (d e : ZoneDraft) (i : Inclusion)
        → included texts levels names name d i ≡ Ok e → place_of e ≡ place_of d }
{}
