//! SipHash-2-4 (Aumasson and Bernstein), the hash of RFC 9018 4.4.

ghost use Rattle.std.specs.Prelude.{◌≡◌, ◌+◌, ◌*◌, ◌^◌, ◌≤◌, ◌<◌, take, drop, length, MatchOption};
ghost use Rattle.dns_cookie.specs.Sip.{round as sip_round, start as sip_start, take_word, finish as sip_finish, word, sip};

/// The four words that the hash turns over.
#[derive(Clone, Copy)]
struct State {
    v0: u64,
    v1: u64,
    v2: u64,
    v3: u64,
}

impl State {
    /// The state under the key's two halves.
    fn start(k0: u64, k1: u64) -> State
        ensures { result ≡ sip_start k0 k1 }
    {
        State {
            v0: k0 ^ 0x736f_6d65_7073_6575,
            v1: k1 ^ 0x646f_7261_6e64_6f6d,
            v2: k0 ^ 0x6c79_6765_6e65_7261,
            v3: k1 ^ 0x7465_6462_7974_6573,
        }
    }

    /// The state after one round.
    #[tactic(auto, unfolding(crate::specs::Sip::round))]
    fn round(self) -> State
        ensures { result ≡ sip_round self }
    {
        let v0 = self.v0.wrapping_add(self.v1);
        let v2 = self.v2.wrapping_add(self.v3);
        let v1 = self.v1.rotate_left(13) ^ v0;
        let v3 = self.v3.rotate_left(16) ^ v2;
        let w0 = v0.rotate_left(32).wrapping_add(v3);
        let w2 = v2.wrapping_add(v1);
        State {
            v0: w0,
            v1: v1.rotate_left(17) ^ w2,
            v2: w2.rotate_left(32),
            v3: v3.rotate_left(21) ^ w0,
        }
    }

    /// The state after one word of the message.
    fn after(self, word: u64) -> State
        ensures { result ≡ take_word self word }
    {
        let entered = State {
            v3: self.v3 ^ word,
            ..self
        };
        let turned = entered.round().round();
        State {
            v0: turned.v0 ^ word,
            ..turned
        }
    }

    /// The hash, after the message's last word.
    fn finish(self) -> u64
        ensures { result ≡ sip_finish self }
    {
        let entered = State {
            v2: self.v2 ^ 0xff,
            ..self
        };
        let turned = entered.round().round().round().round();
        turned.v0 ^ turned.v1 ^ turned.v2 ^ turned.v3
    }
}

/// The little-endian number that eight octets are.
#[inline(always)]
fn number(a: u8, b: u8, c: u8, d: u8, e: u8, f: u8, g: u8, h: u8) -> u64
    ensures { result ≡ a + 256 * (b + 256 * (c + 256 * (d + 256 * (e + 256 * (f + 256 * (g + 256 * h)))))) }
{
    u64::from_le_bytes([a, b, c, d, e, f, g, h])
}

/// The first eight octets as a little-endian number, and what follows them.
#[tactic(auto, using(crate::proofs::Words::word_8))]
fn first_word(octets: &[u8]) -> Option<(u64, &[u8])>
    ensures { MatchOption result (length octets.now < 8)
        (λ p. (8 ≤ length octets.now) × (p.0 ≡ word (take 8 octets.now)) × (p.1.now ≡ drop 8 octets.now)) }
{
    let [a, b, c, d, e, f, g, h, rest @ ..] = octets else {
        return None;
    };
    Some((number(*a, *b, *c, *d, *e, *f, *g, *h), rest))
}

/// The last word: fewer than eight octets, and the octet `top` above them.
fn last_word(octets: &[u8], top: u8) -> u64
    requires { length octets.now < 8 }
    ensures { result ≡ word octets.now + top * 2 ^ 56 }
{
    match octets {
        [a, b, c, d, more @ ..] => last_half(*a, *b, *c, *d, more, top),
        _ => first_half(octets, top),
    }
}

/// The last word of fewer than four octets.
#[inline(always)]
fn first_half(octets: &[u8], top: u8) -> u64
    requires { length octets.now < 4 }
    ensures { result ≡ word octets.now + top * 2 ^ 56 }
{
    match octets {
        [] => number(0, 0, 0, 0, 0, 0, 0, top),
        [a] => number(*a, 0, 0, 0, 0, 0, 0, top),
        [a, b] => number(*a, *b, 0, 0, 0, 0, 0, top),
        [a, b, c] => number(*a, *b, *c, 0, 0, 0, 0, top),
        _ => unreachable!(),
    }
}

/// The last word of four octets and fewer than four more.
#[inline(always)]
fn last_half(a: u8, b: u8, c: u8, d: u8, more: &[u8], top: u8) -> u64
    requires { length more.now < 4 }
    ensures { result ≡ a + 256 * (b + 256 * (c + 256 * (d + 256 * word more.now))) + top * 2 ^ 56 }
{
    match more {
        [] => number(a, b, c, d, 0, 0, 0, top),
        [e] => number(a, b, c, d, *e, 0, 0, top),
        [e, f] => number(a, b, c, d, *e, *f, 0, top),
        [e, f, g] => number(a, b, c, d, *e, *f, *g, top),
        _ => unreachable!(),
    }
}

/// The key's two halves, each a little-endian number.
fn halves(key: &[u8; 16]) -> (u64, u64)
    ensures low { result.0 ≡ word (take 8 key.now) }
    ensures high { result.1 ≡ word (drop 8 key.now) }
{
    let [a, b, c, d, e, f, g, h, i, j, k, l, m, n, o, p] = *key;
    (
        number(a, b, c, d, e, f, g, h),
        number(i, j, k, l, m, n, o, p),
    )
}

/// SipHash-2-4 of `octets` under `key`, read in place in blocks of eight octets.
///
/// The hash is a number; RFC 9018 4.4 writes it into a server cookie little-endian.
#[tactic(auto, unfolding(crate::specs::Sip::sip), using(crate::proofs::Words::fold_step, crate::proofs::Words::last_alone))]
pub fn siphash24(key: &[u8; 16], octets: &[u8]) -> u64
    ensures { result ≡ sip key.now octets.now }
{
    let (k0, k1) = halves(key);
    let mut state = State::start(k0, k1);
    let mut rest = octets;
    'walk: while let Some((word, more)) = first_word(rest) {
        state = state.after(word);
        rest = more;
    }
    let last = last_word(rest, (octets.len() % 256) as u8);
    state.after(last).finish()
}
