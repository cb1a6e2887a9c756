//! The hook of a server whose links count.

use crate::metered::Metered;
use dns_host::PreConnect;

/// A hook of the inner links, before which the connection is counted.
#[derive(Drop)]
pub(crate) struct CountingHook<H> {
    pub(crate) inner: H,
}

impl<L, H: PreConnect<L>> PreConnect<Metered<L>> for CountingHook<H> {
    fn call(&self, link: &mut Metered<L>) {
        link.connect();
        self.inner.call(link.inner_mut());
    }
}
