//! Laws of caches.

ghost use Rattle.std.specs.Prelude.{◌≡◌, ℕ, List, Some};
ghost use Rattle.dns_base.specs.Msg.{Msg};
ghost use Rattle.dns_cache.specs.Calls.{CacheCall, IsEarlier, TurnAnswers, cache_behind, called};

/// Take a list of calls of a cache that all hand in one service. Each reply out of the cache is an earlier reply of the service to
/// that question, younger than its least TTL. Every TTL is lowered by its age.
pub fn cached_replies_are_earlier_ones()
    ensures { (answer : TurnAnswers) (capacity : ℕ) (before : List CacheCall) (call : CacheCall) (m : Msg)
        → (called answer (cache_behind answer capacity before) call).cached ≡ Some m → IsEarlier answer before call.request m }
{}
