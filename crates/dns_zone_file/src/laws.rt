//! Laws of what is read and written.

ghost use Rattle.std.specs.Prelude.{◌≡◌, ◌++◌, ◌∷◌, ℕ, List, Ok, false};
ghost use Rattle.std.specs.List.{AllByRecursion};
ghost use Rattle.dns_name.specs.Labels.{IsName};
ghost use Rattle.dns_message.specs.declared.record.Record.{Record};
ghost use Rattle.dns_entries.specs.Entries.{scan_begins};
ghost use Rattle.dns_zone_file.specs.Lines.{HoldOctets, IsWord, read_behind, words_on};
ghost use Rattle.dns_presentation.specs.Names.{name_of};
ghost use Rattle.dns_zone_file.specs.Pieces.{ZoneReading, after_piece, finished_reading, reading_begun, then_piece};
ghost use Rattle.dns_record_text.specs.RecordText.{TextWord, absolute_text, words_line, zone_text};
ghost use Rattle.dns_zone_file.specs.ZoneRecords.{IsZoneRecord};
ghost use Rattle.dns_zone_file.specs.ZoneFile.{ZoneDraft, steps, after_entry, zone_file};

/// A name that is written reads as that name, wherever the origin is.
pub fn names_read_back()
    ensures { (origin ls : List (List ℕ)) → IsName ls → HoldOctets ls → name_of origin (absolute_text ls) ≡ Ok ls }
{}

/// A line of words is one entry of these words, and what follows it is read after that.
pub fn lines_are_entries()
    ensures { (w : TextWord) (ws : List TextWord) (t : List ℕ) (line : ℕ) (d : ZoneDraft) → AllByRecursion IsWord (w ∷ ws)
        → steps (scan_begins line) d (words_line w ws ++ t) ≡ read_behind (after_entry d line false (words_on line (w ∷ ws))) line t }
{}

/// What comes in pieces is read as what comes at once, and the records of all pieces are those of the whole text.
pub fn a_zone_comes_in_pieces()
    ensures more { (z : ZoneReading) (a b : List ℕ) → after_piece z (a ++ b) ≡ then_piece (after_piece z a) b }
    ensures whole { (origin : List (List ℕ)) (text : List ℕ)
        → zone_file origin text ≡ finished_reading (after_piece (reading_begun origin) text) }
{}

/// What is written of records is read as these records, wherever the origin is.
pub fn a_zone_reads_back()
    ensures { (origin : List (List ℕ)) (rs : List Record) → AllByRecursion IsZoneRecord rs → zone_file origin (zone_text rs) ≡ Ok rs }
{}
