//! TSIG: messages that are signed under a shared key, and verified (RFC 8945).
//!
//! - `Key` is a name, an algorithm and a secret, made of octets or of base64. `KeyStore` gives the key that a TSIG names.
//! - `find` finds the TSIG that ends a message. `Signed` is the message and its TSIG: `verify` says whether it is taken,
//!   and `take_off` gives the message without it.
//! - `sign` appends a TSIG to a message. `TsigFields` has its time, its fudge and its error.
//! - `stream_code` and `tsig_record` sign the replies of a transfer, one after the other, while they are built.
//! - `IncomingStream` takes the messages of a transfer, of which up to 99 in a row needn't be signed.
//! - `unsigned_refusal` and `signed_refusal` make the TSIG of a reply that says BADKEY, BADSIG, BADTIME or BADTRUNC.
//!
//! dns_signing is the layer of a service that does this for each request.
//!
//! ```text
//! octets -> find -> Signed::verify(key, clock) -> take_off -> the message
//! reply  -> sign(key, the request's MAC, stamp) -> the reply with its TSIG
//! ```
//!
//! # What is proved
//!
//! - What is digested is what RFC 8945, section 4.3, says: `digested` has the MAC before, the message without its TSIG
//!   and with its original ID, and the TSIG variables.
//! - `verify` refuses in the order of section 5.2: key, size of the MAC, MAC, time, policy (`message_refusal`). The MAC
//!   is compared over all its octets.
//! - What is signed under a key is verified under it at every time within the fudge (`signed_messages_verify`). What is
//!   verified has a front of the MAC of the definition (`verified_messages_agree`).
//! - After one MAC, messages that differ give texts that differ, if their variables are as long
//!   (`texts_tell_messages_apart`).
//! - A stream whose first message is signed, and of which no 100 in a row are unsigned, is taken, however it is cut
//!   (`signed_streams_are_taken`). What is taken is a front of what was sent, in order, unless a MAC is forged or
//!   repeats (`chains_are_fronts`). That a last message is missing no MAC tells: the transfer's second SOA does.
//! - A message that isn't signed, for lack of memory, stays as it was.
//!
//! # What a body could still get away with
//!
//! After a refusal an `IncomingStream` may be anything. The clock is handed in. Secrets are not overwritten when their
//! memory is given back, and how long a comparison takes is not proved.
#![tactic(auto)]

mod digest;
mod error;
mod found;
mod key;
mod key_store;
mod laws;
mod octets;
mod refusal;
mod signing;
mod stream;
mod tsig;
mod verify;

pub use dns_hmac::{Algorithm, Mac};
pub use error::{KeyError, TsigError};
pub use found::{Signed, find};
pub use key::Key;
pub use key_store::KeyStore;
pub use laws::{
    chains_are_fronts, signed_messages_verify, signed_streams_are_taken, taken_streams_are_chains,
    texts_tell_messages_apart, verified_messages_agree,
};
pub use refusal::{signed_refusal, unsigned_refusal};
pub use signing::{TsigFields, sign, sign_other, stream_code, tsig_record};
pub use stream::IncomingStream;
pub use tsig::TsigRef;
