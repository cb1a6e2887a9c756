//! What is done with a link before its connection is served.

/// What is called on each link that was admitted, before its connection is served: once, from reading the code. No clause says
/// so.
pub trait PreConnect<L> {
    fn call(&self, link: &mut L);
}

/// A hook that does nothing with a link.
#[derive(Clone, Copy, Debug)]
pub struct NoHook;

impl<L> PreConnect<L> for NoHook {
    fn call(&self, _link: &mut L) {}
}
