//! The octets of a name, and its first labels.

ghost use Rattle.std.specs.Prelude.{◌≡◌, ◌+◌, ◌≤◌, ◌++◌, ◌∷◌, IfOk, length, take};
ghost use Rattle.arrayvec.specs.ArrayVec.{array_vec_len};
ghost use Rattle.dns_name.specs.Labels.{IsName, spell};

use arrayvec::ArrayVec;
use dns_name::{Labels, Name, NameRef, OutOfMemory};
use std::alloc::Global;

/// Appends a label after its length.
fn push_label(label: &[u8], octets: &mut ArrayVec<u8, 255>)
    requires { array_vec_len octets.old + length label.now + 1 ≤ 255 }
    ensures { octets.new.items ≡ octets.old.items ++ (length label.now ∷ label.now) }
{
    octets.push(label.len() as u8);
    match octets.try_extend_from_slice(label) {
        Ok(()) => {}
        Err(_) => unreachable!(),
    }
}

/// The octets of labels, which take no memory of the heap.
pub(crate) fn spelt(mut labels: Labels<'_>) -> ArrayVec<u8, 255>
    requires { IsName labels }
    ensures { result.items ≡ spell labels.entry }
{
    let mut octets = ArrayVec::new();
    'labels: while let Some(label) = labels.next() {
        push_label(label, &mut octets);
    }
    octets.push(0);
    octets
}

/// The name of the first labels of a name, of that many.
pub(crate) fn front_of(alloc: Global, name: &NameRef<'_>, count: usize) -> Result<Name, OutOfMemory>
    ensures { IfOk result (λ n. n ≡ take count name.now) }
{
    let rest = name.behind(count);
    let octets = name.as_slice();
    let after = rest.as_slice();
    let size = octets.len() - after.len();
    let mut front = Vec::with_capacity(alloc, size + 1)?;
    front.extend_from_slice(&octets[..size])?;
    front.push(0)?;
    match Name::from_octets(front) {
        Ok(name) => Ok(name),
        Err(_) => unreachable!(),
    }
}
