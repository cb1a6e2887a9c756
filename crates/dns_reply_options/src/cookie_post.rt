//! The rule for the cookie of replies.

ghost use Rattle.std.specs.Prelude.{◌≡◌, OnOk};
ghost use Rattle.dns_base.specs.Wire.{wire};
ghost use Rattle.dns_cookie.specs.CookieData.{cookie_data};
ghost use Rattle.dns_opt.specs.OptData.{for_code};
ghost use Rattle.dns_opt.specs.OptRecords.{opt_of};
ghost use Rattle.dns_reply_options.specs.Carried.{lacks};
ghost use Rattle.dns_reply_options.specs.ServerCookies.{cookie_by, cookie_rule, with_cookie};

use crate::carried::put;
use dns_base::AdditionalBuilder;
use dns_cookie::Cookie;
use dns_layers::Rewrite;
use dns_name::OutOfMemory;
use dns_opt::{ComposeOptData, opt_of};
use dns_rewriting::RuleOf;
use dns_service::fit;
use std::alloc::Global;

/// How the replies to a request get a cookie.
#[derive(Clone, Copy, Debug)]
pub struct CookiePost {
    /// The client cookie of the request, and a server cookie.
    pub cookie: Cookie,
    /// How many octets a reply may take, if that is limited.
    pub limit: Option<u16>,
}

impl Rewrite for CookiePost {
    ghost rewriting = { cookie_by };

    /// The limit of the reply is cleared.
    fn rewrite(&self, alloc: Global, reply: &mut AdditionalBuilder) -> Result<(), OutOfMemory> {
        reply.clear_push_limit();
        with_cookie(alloc, self.cookie, reply)?;
        fit(alloc, self.limit, reply)
    }
}

impl RuleOf<Cookie> for CookiePost {
    ghost rewriting_of = { λ c n. cookie_by (cookie_rule c n) };

    fn rule_of(cookie: Cookie, limit: Option<u16>) -> CookiePost {
        CookiePost { cookie, limit }
    }
}

/// Whether a reply has an OPT record without a cookie.
fn lacks_cookie(reply: &AdditionalBuilder) -> bool
    ensures { result ≡ lacks (for_code 10 cookie_data) (opt_of (wire reply.now.message)) }
{
    match opt_of(&reply.as_message()) {
        Some(opt) => opt.opt().cookie().is_none(),
        None => false,
    }
}

/// Adds a cookie to a reply whose OPT record has none.
fn with_cookie(
    alloc: Global,
    cookie: Cookie,
    reply: &mut AdditionalBuilder,
) -> Result<(), OutOfMemory>
    requires { reply.old.limit ≡ 65535 }
    ensures { OnOk result (reply.new.message ≡ with_cookie cookie reply.old.message) }
{
    if lacks_cookie(reply) {
        return put(alloc, reply, &cookie);
    }
    Ok(())
}
