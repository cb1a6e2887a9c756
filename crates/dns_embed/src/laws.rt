//! Laws of what is decided and rewritten.

ghost use Rattle.std.specs.Prelude.{◌≡◌, ℕ, Result};
ghost use Rattle.dns_base.specs.Msg.{Msg};
ghost use Rattle.dns_events.specs.declared.settings.Settings.{Settings};
ghost use Rattle.dns_service.specs.Answer.{Answer};
ghost use Rattle.dns_service.specs.Once.{once};
ghost use Rattle.dns_service.specs.Req.{Req};
ghost use Rattle.dns_layers.specs.declared.notifiable.NotifyError.{NotifyError};
ghost use Rattle.dns_layers.specs.Rewritten.{own_reply, reply};
ghost use Rattle.dns_middleware.specs.Wrapped.{passed};
ghost use Rattle.dns_embed.specs.declared.action.Action.TheVariants.{Ask};
ghost use Rattle.dns_embed.specs.declared.rule.ReplyRule.{ReplyRule};
ghost use Rattle.dns_embed.specs.Caller.{SendsAsRuled};
ghost use Rattle.dns_embed.specs.Embedded.{IsDecided, answers, rewrite_by};
ghost use Rattle.dns_embed.specs.Turned.{GivesAsTurned, GivesHeldAsTurned};

/// Ask a service as was decided, and send its reply rewritten. That is what these layers answer round a service that gives this
/// reply to the request as they pass it on.
pub fn asked_and_rewritten_is_answered()
    ensures { (s : Settings) (v : Result (Unit {0}) NotifyError) (r : Req (Unit {0})) (rule : ReplyRule) (m : Msg)
        (svc : Req (Unit {0}) → ℕ → Answer) → IsDecided s v r (Ask rule) → ((k : ℕ) → svc (passed s r) k ≡ once (reply m) k)
        → (k : ℕ) → answers s v svc r k ≡ own_reply (rewrite_by rule m) k }
{}

/// Whoever gives a connection what its request's service gave turns it as the rules for one client do (dns_session's `turn`): what is
/// queued, spent, held and sent is the same, whatever the answers of other requests are.
pub fn what_is_given_is_a_turn()
    ensures item { GivesAsTurned }
    ensures held { GivesHeldAsTurned }
{}

/// Whoever calls a connection by what its client's events ask sends what the rules for one client give (dns_session's `rule`), over the
/// connection's whole life: whatever events come, however the octets are fed, and whatever the service answers.
pub fn what_is_sent_is_as_ruled()
    ensures { SendsAsRuled }
{}
