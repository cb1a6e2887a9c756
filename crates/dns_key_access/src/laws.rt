//! Laws of keys that are wanted.

ghost use Rattle.dns_key_access.specs.Laws.{AllIsAsBefore, NotifiesAreJudged, TransfersAreJudged};

/// Without rules each request is answered as by the service inside.
pub fn without_rules_all_is_as_before()
    ensures { AllIsAsBefore }
{}

/// A transfer of a zone with rules, none of which permits who asks, is REFUSED, whatever the service inside would answer; and such
/// a NOTIFY is NOTAUTH.
pub fn wanted_keys_are_judged()
    ensures transfers { TransfersAreJudged }
    ensures notifies { NotifiesAreJudged }
{}
