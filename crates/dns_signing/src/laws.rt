//! Laws of signed replies.

ghost use Rattle.std.specs.Prelude.{◌≡◌, ◌≤◌, ◌+◌, ℕ, List, [], length, Option, Some, None, Ok, false};
ghost use Rattle.std.specs.List.{AllByRecursion};
ghost use Rattle.dns_base.specs.Msg.{Msg};
ghost use Rattle.dns_base.specs.Wire.{wire};
ghost use Rattle.dns_service.specs.Answer.{Answer};
ghost use Rattle.dns_service.specs.Req.{Req, with_metadata};
ghost use Rattle.dns_service.specs.Transport.{limit, limit_over};
ghost use Rattle.dns_hmac.specs.Digests.{size_of};
ghost use Rattle.dns_name.specs.Labels.{IsName};
ghost use Rattle.dns_tsig.specs.declared.error.TsigError.{TsigError};
ghost use Rattle.dns_tsig.specs.Found.{Signed, found};
ghost use Rattle.dns_tsig.specs.Keys.{KeyParts, key_for};
ghost use Rattle.dns_tsig.specs.Messages.{IsBare};
ghost use Rattle.dns_tsig.specs.Verdicts.{message_refusal};
ghost use Rattle.dns_signing.specs.Clients.{HasRoom, IsAtClient, VerifiesFirst, chain_after, client_takes, signed_cut};
ghost use Rattle.dns_signing.specs.Layer.{Policy, clock, refusal_of, signer_of, sole, taken_off, tsig_answer};
ghost use Rattle.dns_signing.specs.Refused.{RefusalParts, refusal_reply, signed_reply, unknown_reply, with_tsig_signed};
ghost use Rattle.dns_signing.specs.Room.{own_size, size_within, tsig_size};
ghost use Rattle.dns_signing.specs.SignedReplies.{SignerParts, given, signed, signed_answers, signed_replies};

use dns_service::cut_fits;
use dns_tsig::{signed_messages_verify, signed_streams_are_taken};

/// A reply is cut to what leaves room for its TSIG, then signed, and then it fits. What signs the replies to a request has such
/// room: what the transport allows, less the TSIG.
pub fn signed_replies_fit()
    ensures signed { (p : SignerParts) (m : Msg) → HasRoom p → signed p m ≡ signed_cut p m }
    ensures fits { (p : SignerParts) (m : Msg) → HasRoom p → length (wire (signed p m)) ≤ p.room + tsig_size p.key }
    ensures room { (p : Policy) (k : KeyParts) (r : Req (Unit {0})) (s : Signed) (hint : Option ℕ) → IsName k.name
        → limit hint ≤ 65535 → HasRoom (signer_of p k r s hint) }
    ensures whole { (p : Policy) (k : KeyParts) (r : Req (Unit {0})) (s : Signed) (hint : Option ℕ) → IsName k.name
        → (signer_of p k r s hint).room + tsig_size k ≡ size_within (limit_over r.transport (limit hint)) }
{}

/// A reply that refuses a request fits what its transport and its client allow, which is never less than 512 octets. One that says
/// BADTIME or BADTRUNC is always signed.
pub fn refusals_fit()
    ensures fits { (p : RefusalParts) (k : KeyParts) (e : TsigError) → 23 ≤ p.size → length (wire (refusal_reply p k e)) ≤ p.size }
    ensures signed { (p : RefusalParts) (k : KeyParts) (e : TsigError) → IsName k.name → 512 ≤ p.size
        → signed_reply p k e ≡ with_tsig_signed p k e }
    ensures least { (r : Req (Unit {0})) → 512 ≤ own_size r }
{}

/// The first reply to a request verifies at its client, under the key and after the request's MAC, at every time within the
/// fudge; and the client has the reply as it was before.
pub fn signed_replies_verify()
    ensures { (p : SignerParts) (m : Msg) (least now : ℕ) → IsAtClient p now → IsBare m → least ≤ size_of p.key.algorithm
        → VerifiesFirst p least now m }
{
    signed_messages_verify();
}

/// The replies to a request, as many as a transfer has, are taken by its client one after the other. The clocks have to agree
/// within the fudge. Replies that a service gives are sent as `signed_replies` has them.
pub fn signed_transfers_are_taken()
    ensures taken { (p : SignerParts) (now : ℕ) (replies : List Msg) → IsAtClient p now → HasRoom p → AllByRecursion IsBare replies
        → client_takes p now replies ≡ Ok (chain_after p replies) }
    ensures sent { (p : SignerParts) (replies : List Msg) (k : ℕ) → p.ended ≡ false
        → signed_answers (given replies) p k ≡ given (signed_replies p replies) k }
{
    cut_fits();
    signed_streams_are_taken();
}

/// A request without a TSIG is answered as the service inside answers it.
pub fn unsigned_requests_are_as_before()
    ensures { (answer : Req (Option ℕ) → ℕ → Answer) (hint : Req (Option ℕ) → Option ℕ) (p : Policy) (r : Req (Unit {0})) (k : ℕ)
        → found r.octets ≡ Ok None → tsig_answer answer hint p r k ≡ answer (with_metadata r None) k }
{}

/// A request that verifies is answered as the service inside answers it without its TSIG, and each reply is signed under its
/// key.
pub fn verified_requests_are_signed_back()
    ensures { (answer : Req (Option ℕ) → ℕ → Answer) (hint : Req (Option ℕ) → Option ℕ) (p : Policy) (r : Req (Unit {0}))
        (s : Signed) (n : ℕ) (key : KeyParts) (k : ℕ) → found r.octets ≡ Ok (Some s) → key_for p.keys s.tsig ≡ Some (n, key)
        → message_refusal key p.least (clock r) [] s ≡ None
        → tsig_answer answer hint p r k ≡ signed_answers (answer (taken_off r s n)) (signer_of p key r s (hint (taken_off r s n))) k }
{}

/// A request under a key that isn't known never reaches the service inside: its one reply says BADKEY.
pub fn unknown_keys_are_refused()
    ensures { (answer : Req (Option ℕ) → ℕ → Answer) (hint : Req (Option ℕ) → Option ℕ) (p : Policy) (r : Req (Unit {0}))
        (s : Signed) (k : ℕ) → found r.octets ≡ Ok (Some s) → key_for p.keys s.tsig ≡ None
        → tsig_answer answer hint p r k ≡ sole (unknown_reply (refusal_of p.fudge r s)) k }
{}
