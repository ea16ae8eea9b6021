//! Telling the strays of settings, which changes nothing that is told.

ghost use Rattle.std.specs.Prelude.{◌≡◌};

use crate::{ObjectKind, lines_on};
use sig_links::Outside;
use std::alloc::Global;

/// Has the outside tell the lines over the bytes of settings of this kind. Where there is no memory for them they are left out.
pub fn tell_strays<X: Outside>(alloc: Global, kind: ObjectKind, bytes: &[u8], outside: &mut X)
    ensures settings { (X.settings_of outside.new ≡ X.settings_of outside.old) × (X.settings_faults outside.new ≡ X.settings_faults outside.old) }
    ensures stores { (X.held outside.new ≡ X.held outside.old) × (X.lent outside.new ≡ X.lent outside.old) × (X.store_faults outside.new ≡ X.store_faults outside.old) × (X.there outside.new ≡ X.there outside.old) }
    ensures doors { (X.doors outside.new ≡ X.doors outside.old) × (X.doors_out outside.new ≡ X.doors_out outside.old) × (X.doors_back outside.new ≡ X.doors_back outside.old) }
    ensures sides { (X.sides outside.new ≡ X.sides outside.old) × (X.sides_out outside.new ≡ X.sides_out outside.old) × (X.sides_back outside.new ≡ X.sides_back outside.old) }
    ensures network { X.network_faults outside.new ≡ X.network_faults outside.old }
{
    if let Ok(lines) = lines_on(alloc, kind, bytes) {
        for line in lines.as_slice() {
            outside.note(line.as_str());
        }
    }
}
