//! The octets by which names are found.

ghost use Rattle.std.specs.Prelude.{◌≡◌, ◌++◌, ◌∷◌, [], ◌<◌, length, map, reverse, IfOk, OnOk};
ghost use Rattle.std.specs.Char.{to_ascii_lowercase};
ghost use Rattle.dns_name.specs.Labels.{AreLabels, folded};
ghost use Rattle.dns_zone.specs.Paths.{marked, name_path};

use dns_base::{Labels, Name};
use dns_name::{OutOfMemory, push_lower};
use std::alloc::Global;

/// Appends a label in lower case before its length.
fn push_marked(label: &[u8], octets: &mut Vec<u8>) -> Result<(), OutOfMemory>
    requires { length label.now < 256 }
    ensures { OnOk result (octets.new.items ≡ octets.old.items ++ (map to_ascii_lowercase label.now ++ length label.now ∷ [])) }
{
    push_lower(label, octets)?;
    octets.push(label.len() as u8)?;
    Ok(())
}

/// The labels of a name in lower case, each before its length, in memory for that many octets at first.
fn marked_octets(alloc: Global, name: Labels<'_>, capacity: usize) -> Result<Vec<u8>, OutOfMemory>
    requires { AreLabels name }
    ensures { IfOk result (λ v. v.items ≡ marked (folded name.entry)) }
{
    let mut left = name;
    let mut octets = Vec::with_capacity(alloc, capacity)?;
    'labels: while let Some(label) = left.next() {
        push_marked(label, &mut octets)?;
    }
    Ok(octets)
}

/// The path of a name, in memory for that many octets at first.
#[tactic(auto, unfolding(crate::specs::Paths::name_path))]
pub(crate) fn path_of(
    alloc: Global,
    name: Labels<'_>,
    capacity: usize,
) -> Result<Vec<u8>, OutOfMemory>
    requires { AreLabels name }
    ensures { IfOk result (λ v. v.items ≡ name_path name.entry) }
{
    let mut octets = marked_octets(alloc, name, capacity)?;
    octets.as_mut_slice().reverse();
    Ok(octets)
}

/// The path of a name, in memory for as many octets as it has.
pub(crate) fn path_of_name(alloc: Global, name: &Name) -> Result<Vec<u8>, OutOfMemory>
    ensures { IfOk result (λ v. v.items ≡ name_path name.now) }
{
    path_of(alloc, name.labels(), name.as_slice().len() - 1)
}
