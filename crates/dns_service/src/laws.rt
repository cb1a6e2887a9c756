//! Laws of what is read of a request.

ghost use Rattle.std.specs.Prelude.{◌≡◌, ℕ, List, option_map};
ghost use Rattle.dns_replies.specs.OptRecords.{opt_of};
ghost use Rattle.dns_service.specs.Asked.{asked_of, asked_record, first_asked};
ghost use Rattle.dns_service.specs.OptItems.{first_item, opt_items};

/// The OPT record of octets is the first of their OPT items, if that is a record.
pub fn items_begin_with_opt()
    ensures { (o : List ℕ) → opt_of o ≡ first_item (opt_items o) }
{}

/// What is kept of the first OPT item is what is kept of the OPT record, and none if there is none.
pub fn asked_keeps_opt()
    ensures { (o : List ℕ) → first_asked (asked_of o).opt ≡ option_map asked_record (opt_of o) }
{}
