//! Laws of rate limiting.

ghost use Rattle.std.specs.Prelude.{◌≡◌, ◌≤◌, ℕ, List, ◌∷◌, length, take};
ghost use Rattle.std.specs.Map.{lookup};
ghost use Rattle.dns_rate_limit.specs.declared.rate.Rate.{Rate};
ghost use Rattle.dns_rate_limit.specs.declared.rate.Verdict.TheVariants.{Whole};
ghost use Rattle.dns_rate_limit.specs.Accounts.{account, charged_from, verdict};
ghost use Rattle.dns_rate_limit.specs.Histories.{IsBelowRate, IsInOrder, whole_in};
ghost use Rattle.dns_rate_limit.specs.Tables.{own, table, table_verdict};

/// What is done with a response to a client follows from its own last requests, as many as its account still counts.
pub fn clients_are_limited_by_their_own<K: Eq>()
    ensures { (r : Rate) (cap : ℕ) (requests : List (K × ℕ)) (client : K) (second : ℕ)
        → (n : ℕ) × (table_verdict K.eq r cap requests client second ≡ verdict r (take n (own K.eq client requests)) second) }
{}

/// A client that is below its rate is sent each response whole, whatever others ask and whatever left the table.
pub fn networks_below_their_rate<K: Eq>()
    ensures { (r : Rate) (cap : ℕ) (requests : List (K × ℕ)) (client : K) (second : ℕ)
        → IsBelowRate r (second ∷ own K.eq client requests) → table_verdict K.eq r cap requests client second ≡ Whole }
{}

/// A response that is sent whole by all of a client's requests is sent whole by its last ones too: what leaves the table lets
/// more through, and never less.
pub fn forgetting_limits_no_more()
    ensures { (r : Rate) (requests : List ℕ) (n second : ℕ) → verdict r requests second ≡ Whole
        → verdict r (take n requests) second ≡ Whole }
{}

/// A table that holds as many accounts as there were requests has forgotten none.
pub fn small_tables_forget_nothing<K: Eq>()
    ensures { (r : Rate) (cap : ℕ) (requests : List (K × ℕ)) (client : K) (second : ℕ) → length requests ≤ cap
        → table_verdict K.eq r cap requests client second ≡ verdict r (own K.eq client requests) second }
{}

/// No more of the responses to a client in one second are sent whole than its rate says.
pub fn limits_hold()
    ensures { (r : Rate) (requests : List ℕ) (second : ℕ) → IsInOrder requests → whole_in r second requests ≤ r.per_second }
{}
