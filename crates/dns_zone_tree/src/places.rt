//! How the places of the records of one name are stored.

ghost use Rattle.std.specs.Prelude.{◌≡◌, ◌++◌, ◌∷◌, [], List, IfOk, OnOk};
ghost use Rattle.std.specs.List.{list_any};
ghost use Rattle.dns_zone_tree.specs.TypedPlaces.{is_kind};

use crate::kinds::TypedPlace;
use arrayvec::ArrayVec;
use dns_base::Rtype;
use dns_name::OutOfMemory;
use std::alloc::Global;
use std::marker::Model;

/// Whether some places are of NS and of DNAME records.
#[derive(Clone, Copy)]
struct Marks {
    servers: bool,
    dname: bool,
}

/// Places after their marks: up to two of them lie in the value.
#[derive(Drop)]
enum Stored {
    Few(Marks, ArrayVec<TypedPlace, 2>),
    Many(Marks, Vec<TypedPlace>),
}

/// Places with their types. Each walk past a name asks whether it has NS and DNAME records, so that is stored with them. Contracts see
/// the places in order.
#[derive(Drop)]
pub(crate) struct Places {
    stored: Stored,
}

impl Model for Places {
    ghost use Rattle.dns_zone_tree.specs.Stored.{AreMarked, Places as Listed, places_stored};

    ghost Value = { Listed };

    ghost view = { λ p. places_stored p.stored };

    ghost invariant = { λ p. AreMarked p.stored };
}

impl Marks {
    ghost use Rattle.dns_zone_tree.specs.Stored.{IsMarked};

    /// Those of the places and one more.
    fn with(self, kind: &TypedPlace) -> Marks
        ensures { (ks : List TypedPlace) → IsMarked self ks → IsMarked result (ks ++ kind.now ∷ []) }
    {
        Marks {
            servers: self.servers || kind.is_of(Rtype::NS.to_int()),
            dname: self.dname || kind.is_of(Rtype::DNAME.to_int()),
        }
    }
}

/// A copy of places of which there are two at most.
fn copied(few: &ArrayVec<TypedPlace, 2>) -> ArrayVec<TypedPlace, 2>
    ensures { result.items ≡ few.now.items }
{
    let mut copy = ArrayVec::new();
    match copy.try_extend_from_slice(few.as_slice()) {
        Ok(()) => copy,
        Err(_) => unreachable!(),
    }
}

/// Places and one more, if no more of them lie in the value.
fn moved(
    alloc: Global,
    few: &[TypedPlace],
    kind: TypedPlace,
) -> Result<Vec<TypedPlace>, OutOfMemory>
    ensures { IfOk result (λ v. v.items ≡ few.now ++ kind ∷ []) }
{
    let mut many = Vec::with_capacity(alloc, few.len() + 2)?;
    many.extend_from_slice(few)?;
    many.push(kind)?;
    Ok(many)
}

impl Places {
    ghost use Rattle.dns_zone_tree.specs.Stored.{IsMarked};

    /// No places.
    pub(crate) fn new() -> Places
        ensures { result.items ≡ [] }
    {
        let none = Marks {
            servers: false,
            dname: false,
        };
        Places {
            stored: Stored::Few(none, ArrayVec::new()),
        }
    }

    /// A copy.
    pub(crate) fn try_clone(&self, alloc: Global) -> Result<Places, OutOfMemory>
        ensures { IfOk result (λ p. p.items ≡ self.now.items) }
    {
        match &self.stored {
            Stored::Few(marks, few) => Ok(Places {
                stored: Stored::Few(*marks, copied(few)),
            }),
            Stored::Many(marks, many) => {
                let copy = Vec::from_slice(alloc, many.as_slice())?;
                Ok(Places {
                    stored: Stored::Many(*marks, copy),
                })
            }
        }
    }

    /// Stores a place after the others.
    pub(crate) fn push(&mut self, alloc: Global, kind: TypedPlace) -> Result<(), OutOfMemory>
        ensures { OnOk result (self.new.items ≡ self.old.items ++ kind ∷ []) }
    {
        match &mut self.stored {
            Stored::Few(marks, few) => {
                if few.is_full() {
                    let more = marks.with(&kind);
                    let many = moved(alloc, few.as_slice(), kind)?;
                    self.stored = Stored::Many(more, many);
                } else {
                    *marks = marks.with(&kind);
                    few.push(kind);
                }
            }
            Stored::Many(marks, many) => {
                many.push(kind)?;
                *marks = marks.with(&kind);
            }
        }
        Ok(())
    }

    /// All places, in order.
    pub(crate) fn as_slice(&self) -> &[TypedPlace]
        ensures { result.now ≡ self.now.items }
    {
        match &self.stored {
            Stored::Few(_, few) => few.as_slice(),
            Stored::Many(_, many) => many.as_slice(),
        }
    }

    /// What is stored of them.
    fn marks(&self) -> Marks
        ensures { IsMarked result self.now.items }
    {
        match &self.stored {
            Stored::Few(marks, _) => *marks,
            Stored::Many(marks, _) => *marks,
        }
    }

    /// Whether one of them is of an NS record.
    pub(crate) fn has_servers(&self) -> bool
        ensures { result ≡ list_any (is_kind 2) self.now.items }
    {
        self.marks().servers
    }

    /// Whether one of them is of a DNAME record.
    pub(crate) fn has_dname(&self) -> bool
        ensures { result ≡ list_any (is_kind 39) self.now.items }
    {
        self.marks().dname
    }
}
