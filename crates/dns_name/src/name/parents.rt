//! The names that a name lies under.

ghost use Rattle.std.specs.Prelude.{◌≡◌, ◌↔◌, [], drop, IsTrue};
ghost use Rattle.dns_name.specs.Labels.{parent_of};

use crate::name::{Name, NameRef};

impl<'a> NameRef<'a> {
    /// Whether the name is the root's.
    pub fn is_root(&self) -> bool
        ensures { IsTrue result ↔ (self.now ≡ []) }
    {
        self.labels().next().is_none()
    }

    /// The name after the first label; the root has none.
    pub fn parent(&self) -> Option<NameRef<'a>>
        ensures { result ≡ parent_of self.now }
    {
        let octets = self.as_slice();
        let Some(label) = self.labels().next() else {
            return None;
        };
        let behind = &octets[label.len() + 1..];
        Some(NameRef { octets: behind })
    }

    /// The name after that many labels, the root's if there are no more.
    pub fn behind(&self, skipped: usize) -> NameRef<'a>
        ensures { result ≡ drop skipped self.now }
    {
        let mut name = NameRef {
            octets: self.octets,
        };
        'skip: for _i in 0..skipped {
            let Some(parent) = name.parent() else {
                return name;
            };
            name = parent;
        }
        name
    }
}

impl Name {
    /// Whether the name is the root's.
    pub fn is_root(&self) -> bool
        ensures { IsTrue result ↔ (self.now ≡ []) }
    {
        self.for_ref().is_root()
    }

    /// The name after the first label; the root has none.
    pub fn parent(&self) -> Option<NameRef<'_>>
        ensures { result ≡ parent_of self.now }
    {
        self.for_ref().parent()
    }
}
