//! Requests and their transports.

ghost use Rattle.std.specs.Prelude.{◌≡◌, ◌+◌, ◌<◌, ◌^◌, None, min, not, IfOk, true, false, IsTrue, ◌↔◌};
ghost use Rattle.std.specs.Arc.{arc_value};
ghost use Rattle.std.specs.Borrow.{sem};
ghost use Rattle.dns_service.specs.declared.message.TransportSpecificContext.TheVariants.{NonUdp, Udp};
ghost use Rattle.dns_service.specs.Req.{with_metadata};
ghost use Rattle.dns_service.specs.Transport.{hint_of, hinted, is_stream};

use dns_base::Message;
use dns_name::{OutOfMemory, SocketAddr};
use std::alloc::Global;
use std::marker::Model;
use std::sync::Arc;

/// What is known of a request that came in a datagram.
#[derive(Clone, Debug, Drop, PartialEq, Eq)]
pub struct UdpTransportContext {
    max_response_size_hint: Option<u16>,
}

impl Model for UdpTransportContext {
    ghost use Rattle.std.specs.Prelude.{Option, ℕ};

    ghost Value = { Option ℕ };

    ghost view = { λ c. c.max_response_size_hint };

    ghost inverse = { λ hint. record { max_response_size_hint = hint } };
}

impl UdpTransportContext {
    /// A context with a hint of the largest response in octets, or with none.
    pub fn new(max_response_size_hint: Option<u16>) -> Self
        ensures { result ≡ max_response_size_hint }
    {
        UdpTransportContext {
            max_response_size_hint,
        }
    }

    /// How many octets a response over UDP may have, if there is such a hint.
    pub fn max_response_size_hint(&self) -> Option<u16>
        ensures { result ≡ self.now }
    {
        self.max_response_size_hint
    }

    /// Sets how many octets a response over UDP may have, or that there is no such hint.
    pub fn set_max_response_size_hint(&mut self, max_response_size_hint: Option<u16>)
        ensures { self.new ≡ max_response_size_hint }
    {
        self.max_response_size_hint = max_response_size_hint;
    }
}

impl Default for UdpTransportContext {
    ghost is_default = { λ c. c ≡ None };

    /// A context with no hint.
    fn default() -> Self {
        UdpTransportContext::new(None)
    }
}

/// What is known of a request that came over a stream.
#[derive(Clone, Copy, Debug, PartialEq, Eq)]
pub struct NonUdpTransportContext {
    idle_timeout: Option<u64>,
}

impl Model for NonUdpTransportContext {
    ghost use Rattle.std.specs.Prelude.{Option, ℕ};

    ghost Value = { Option ℕ };

    ghost view = { λ c. c.idle_timeout };

    ghost inverse = { λ timeout. record { idle_timeout = timeout } };
}

impl NonUdpTransportContext {
    /// A context with the connection's idle timeout in ms, or with none.
    pub fn new(idle_timeout: Option<u64>) -> Self
        ensures { result ≡ idle_timeout }
    {
        NonUdpTransportContext { idle_timeout }
    }

    /// The idle timeout in ms (RFC 7828, section 3).
    pub fn idle_timeout(&self) -> Option<u64>
        ensures { result ≡ self.now }
    {
        self.idle_timeout
    }
}

/// How a request came: in a datagram, or over a stream.
#[derive(Clone, Debug, Drop, PartialEq, Eq)]
pub enum TransportSpecificContext {
    Udp(UdpTransportContext),
    NonUdp(NonUdpTransportContext),
}

impl TransportSpecificContext {
    /// Whether the request came in a datagram.
    pub fn is_udp(&self) -> bool
        ensures { result ≡ not (is_stream self.now) }
    {
        matches!(self, TransportSpecificContext::Udp(_))
    }

    /// Whether the request came over a stream.
    pub fn is_non_udp(&self) -> bool
        ensures { result ≡ is_stream self.now }
    {
        matches!(self, TransportSpecificContext::NonUdp(_))
    }
}

impl TransportSpecificContext {
    /// The hint of the largest response in octets: a stream has none.
    pub fn hint(&self) -> Option<u16>
        ensures { result ≡ hint_of self.now }
    {
        match self {
            TransportSpecificContext::Udp(context) => context.max_response_size_hint(),
            TransportSpecificContext::NonUdp(_) => None,
        }
    }

    /// Sets the hint, if the transport has one.
    pub fn set_hint(&mut self, hint: Option<u16>)
        ensures { self.new ≡ hinted hint self.old }
    {
        match self {
            TransportSpecificContext::Udp(context) => context.set_max_response_size_hint(hint),
            TransportSpecificContext::NonUdp(_) => {}
        }
    }
}

impl From<UdpTransportContext> for TransportSpecificContext {
    ghost from_gives = { λ context t. t ≡ Udp context };

    fn from(context: UdpTransportContext) -> Self {
        TransportSpecificContext::Udp(context)
    }
}

impl From<NonUdpTransportContext> for TransportSpecificContext {
    ghost from_gives = { λ context t. t ≡ NonUdp context };

    fn from(context: NonUdpTransportContext) -> Self {
        TransportSpecificContext::NonUdp(context)
    }
}

/// A message with its sender, its moment in ms, its seconds, its transport and metadata.
#[derive(Drop)]
pub struct Request<Meta> {
    client_addr: SocketAddr,
    received_at: u64,
    received_secs: u64,
    message: Arc<Message>,
    transport_ctx: TransportSpecificContext,
    num_reserved_bytes: u16,
    reply_memory: Option<Vec<u8>>,
    metadata: Meta,
}

impl<Meta> Model for Request<Meta> {
    ghost use Rattle.std.specs.Arc.{arc_value};
    ghost use Rattle.dns_service.specs.Req.{Req};

    ghost Value = { Req Meta };

    ghost view = { λ r. record {
      octets = arc_value r.message;
      client_addr = r.client_addr;
      received_at = r.received_at;
      received_secs = r.received_secs;
      transport = r.transport_ctx;
      reserved = r.num_reserved_bytes;
      metadata = r.metadata;
    } };
}

impl<Meta> Request<Meta> {
    ghost use Rattle.dns_service.specs.Lending.{LendsTransport};

    /// A request with no reserved octets.
    pub fn new(
        alloc: Global,
        client_addr: SocketAddr,
        received_at: u64,
        received_secs: u64,
        message: Message,
        transport_ctx: TransportSpecificContext,
        metadata: Meta,
    ) -> Result<Self, OutOfMemory>
    where
        Meta: Drop,
        ensures { IfOk result (λ r. r ≡ record {
          octets = message;
          client_addr = client_addr;
          received_at = received_at;
          received_secs = received_secs;
          transport = transport_ctx;
          reserved = 0;
          metadata = metadata;
        }) }
    {
        let message = Arc::new(alloc, message)?;
        Ok(Request::of_shared(
            client_addr,
            received_at,
            received_secs,
            message,
            transport_ctx,
            metadata,
        ))
    }

    /// A request of a message that is shared already, with no reserved octets.
    pub fn of_shared(
        client_addr: SocketAddr,
        received_at: u64,
        received_secs: u64,
        message: Arc<Message>,
        transport_ctx: TransportSpecificContext,
        metadata: Meta,
    ) -> Self
    where
        Meta: Drop,
        ensures { result ≡ record {
          octets = arc_value message;
          client_addr = client_addr;
          received_at = received_at;
          received_secs = received_secs;
          transport = transport_ctx;
          reserved = 0;
          metadata = metadata;
        } }
    {
        Request {
            client_addr,
            received_at,
            received_secs,
            message,
            transport_ctx,
            num_reserved_bytes: 0,
            reply_memory: None,
            metadata,
        }
    }

    /// The request with memory in which a reply may be built.
    pub fn with_reply_memory(self, memory: Vec<u8>) -> Self
        ensures { result ≡ self }
    {
        let mut request = self;
        request.reply_memory = Some(memory);
        request
    }

    /// Memory in which a reply may be built. What stands in it is left over, and says nothing. The first call takes what was given.
    pub fn take_reply_memory(&mut self, alloc: Global) -> Vec<u8>
        ensures { self.new ≡ self.old }
    {
        match self.reply_memory.take() {
            Some(memory) => memory,
            None => Vec::new(alloc),
        }
    }

    /// The moment at which the request was received, in ms.
    pub fn received_at(&self) -> u64
        ensures { result ≡ self.now.received_at }
    {
        self.received_at
    }

    /// The time at which the request was received, in seconds.
    pub fn received_secs(&self) -> u64
        ensures { result ≡ self.now.received_secs }
    {
        self.received_secs
    }

    /// How the request came, with what its transport allows.
    pub fn transport_ctx(&self) -> &TransportSpecificContext
        ensures { result.now ≡ self.now.transport }
    {
        &self.transport_ctx
    }

    /// How the request came, for writing.
    pub fn transport_ctx_mut(&mut self) -> &mut TransportSpecificContext
        ensures* writes_back { sem 𝓛 (LendsTransport Meta.row self.entry result) }
        ensures value { result.now ≡ self.old.transport }
    {
        &mut self.transport_ctx
    }

    /// The address and the port that the request came from.
    pub fn client_addr(&self) -> SocketAddr
        ensures { result ≡ self.now.client_addr }
    {
        self.client_addr
    }

    /// The message of the request, shared.
    pub fn message(&self) -> &Arc<Message>
        ensures { arc_value result.now ≡ self.now.octets }
    {
        &self.message
    }

    /// The message, shared no longer with the request.
    pub fn into_message(self) -> Arc<Message>
    where
        Meta: Drop,
        ensures { arc_value result ≡ self.octets }
    {
        self.message
    }

    /// Keeps that many octets more of the response free, 65,535 at most.
    pub fn reserve_bytes(&mut self, bytes: u16)
        ensures { self.new ≡ record self.old { reserved = min (self.old.reserved + bytes) 65535 } }
    {
        self.num_reserved_bytes = self.num_reserved_bytes.saturating_add(bytes);
    }

    /// Keeps that many octets of the response free, however many were before: with what `num_reserved_bytes` said
    /// earlier, it takes back what was reserved since.
    pub fn set_reserved_bytes(&mut self, bytes: u16)
        ensures { self.new ≡ record self.old { reserved = bytes } }
    {
        self.num_reserved_bytes = bytes;
    }

    /// How many octets of the response are to be left free.
    pub fn num_reserved_bytes(&self) -> u16
        ensures { result ≡ self.now.reserved }
    {
        self.num_reserved_bytes
    }

    /// The request with other metadata, all else moved and not copied.
    pub fn with_new_metadata<M>(self, metadata: M) -> Request<M>
    where
        Meta: Drop,
        ensures { result ≡ with_metadata self metadata }
    {
        Request {
            client_addr: self.client_addr,
            received_at: self.received_at,
            received_secs: self.received_secs,
            message: self.message,
            transport_ctx: self.transport_ctx,
            num_reserved_bytes: self.num_reserved_bytes,
            reply_memory: self.reply_memory,
            metadata,
        }
    }

    /// A copy with other metadata. The message is shared.
    pub fn try_clone<M>(&self, alloc: Global, metadata: M) -> Result<Request<M>, OutOfMemory>
    where
        M: Drop,
        ensures { IfOk result (λ r. r ≡ with_metadata self.now metadata) }
    {
        let message = Arc::try_clone(&self.message)?;
        let transport_ctx = self.transport_ctx.clone()?;
        Ok(Request {
            client_addr: self.client_addr,
            received_at: self.received_at,
            received_secs: self.received_secs,
            message,
            transport_ctx,
            num_reserved_bytes: self.num_reserved_bytes,
            reply_memory: None,
            metadata,
        })
    }

    /// What the server told the service besides the request.
    pub fn metadata(&self) -> &Meta
        ensures { result.now ≡ self.now.metadata }
    {
        &self.metadata
    }
}
