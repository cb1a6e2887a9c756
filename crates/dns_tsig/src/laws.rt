//! Laws of signatures.

ghost use Rattle.std.specs.Prelude.{◌≡◌, ◌+◌, ◌≤◌, ℕ, List, [], length, take, None, Ok, Option, true, false, Bool};
ghost use Rattle.dns_hmac.specs.Digests.{size_of};
ghost use Rattle.dns_name.specs.Labels.{IsName};
ghost use Rattle.dns_message.specs.Msg.{Msg};
ghost use Rattle.dns_message.specs.Wire.{wire};
ghost use Rattle.dns_tsig.specs.declared.signing.TsigFields.{TsigFields};
ghost use Rattle.dns_tsig.specs.Chained.{IsChain, NoneIsForged, NoneRepeats, Step, steps_of};
ghost use Rattle.dns_tsig.specs.Digested.{digested, variables, with_id};
ghost use Rattle.dns_tsig.specs.Found.{Signed};
ghost use Rattle.dns_tsig.specs.Keys.{KeyParts};
ghost use Rattle.dns_tsig.specs.Messages.{IsBare};
ghost use Rattle.dns_tsig.specs.Sending.{IsStream, chain_sent, sent};
ghost use Rattle.dns_tsig.specs.Signed.{Signs, tsig_by};
ghost use Rattle.dns_tsig.specs.Streams.{Chain, behind_all, chain_behind};
ghost use Rattle.dns_tsig.specs.Tsig.{Tsig};
ghost use Rattle.dns_tsig.specs.Verdicts.{message_refusal};
ghost use Rattle.dns_tsig.specs.Verified.{Agrees, Verifies};

/// What is signed under a key verifies under it, at every time within the fudge.
pub fn signed_messages_verify()
    ensures { (k : KeyParts) (s : TsigFields) (m : Msg) (prior other after mac : List ℕ) (least now : ℕ) → IsBare m → IsName k.name
        → least ≤ size_of k.algorithm → s.time ≤ now + s.fudge → now ≤ s.time + s.fudge → Signs k prior s other (wire m) after mac
        → Verifies k least now prior (wire m) after (tsig_by k s (wire m) other mac) }
{}

/// A message that verifies names the key, has a front of the MAC of the definition, and a time within the fudge.
pub fn verified_messages_agree()
    ensures { (k : KeyParts) (least now : ℕ) (prior : List ℕ) (s : Signed) → message_refusal k least now prior s ≡ None
        → Agrees k now (digested prior s.bare s.tsig) s.tsig }
{}

/// Two messages after one MAC, with variables as long, are digested alike only if messages and variables are the same.
pub fn texts_tell_messages_apart()
    ensures { (prior m n : List ℕ) (s t : Tsig) → length (variables s) ≡ length (variables t)
        → digested prior m s ≡ digested prior n t → (with_id s.original_id m ≡ with_id t.original_id n) × (variables s ≡ variables t) }
{}

/// A stream whose first message is signed, and one of each 100 in a row, is taken, whichever others are signed.
pub fn signed_streams_are_taken()
    ensures { (k : KeyParts) (now : ℕ) (request_mac : List ℕ) (messages : List (Option TsigFields × Msg)) → IsName k.name
        → IsStream now false 0 messages → behind_all k (size_of k.algorithm) now (Ok (chain_behind request_mac))
        (sent k (chain_behind request_mac) messages) ≡ Ok (chain_sent k (chain_behind request_mac) messages) }
{}

/// The texts that are digested of a stream that is taken, each MAC whole, are a chain after the MAC of the request.
pub fn taken_streams_are_chains()
    ensures { (k : KeyParts) (now : ℕ) (request_mac : List ℕ) (messages : List (List ℕ)) (c : Chain)
        → behind_all k (size_of k.algorithm) now (Ok (chain_behind request_mac)) messages ≡ Ok c
        → IsChain k request_mac (steps_of messages request_mac [] false) }
{}

/// A chain each of whose texts the other side digested is a front of that side's chain, if no MAC of it repeats: nothing is
/// missing before its end, comes twice or in another order.
pub fn chains_are_fronts()
    ensures { (k : KeyParts) (request_mac : List ℕ) (sent taken : List Step) → 1 ≤ length request_mac → IsChain k request_mac sent
        → IsChain k request_mac taken → NoneRepeats k request_mac sent → NoneIsForged sent taken → taken ≡ take (length taken) sent }
{}
