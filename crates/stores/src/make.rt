// The constructors of the stores, each with exactly the log that the store it makes means.
ghost use Rattle.std.specs.Prelude.{◌≡◌};
ghost use Rattle.stores.specs.Log.{meant};
ghost use Rattle.stores.specs.Stores.{plain_log, packed_log, window_log};

use crate::packed::Packed;
use crate::plain::Plain;
use crate::store::Store;
use crate::window::Window;
use kinds::Kind;
use std::marker::PhantomData;

impl<'a, K: Kind> Plain<'a, K> {
    // A list of values and a list of mark bytes.
    pub fn new(values: &'a [K], marks: &'a [u8]) -> Plain<'a, K>
        ensures means { ⟦<Plain<'a, K> as Store<K>>⟧.log result ≡ plain_log (K.Kind.held K.Kind.group.zero) values.now marks.now }
        ensures values { result.values.now ≡ values.now }
        ensures marks { result.marks.now ≡ marks.now }
    {
        Plain { values, marks }
    }
}

impl<'a, K: Kind> Packed<'a, K> {
    // A record for each slot.
    pub fn new(bytes: &'a [u8]) -> Packed<'a, K>
        ensures means { ⟦<Packed<'a, K> as Store<K>>⟧.log result ≡ meant K.Kind.held (packed_log K.Kind.group K.Kind.bytes bytes.now) }
        ensures bytes { result.bytes.now ≡ bytes.now }
    {
        Packed {
            bytes,
            kind: PhantomData,
        }
    }
}

// Stays: beside `Window::new`, which has no kind to name, since a window's type is that of the store below alone.
// A part of any store, from a start and as long as it may be.
pub fn windowed<K: Kind, S: Store<K>>(below: S, start: usize, length: usize) -> Window<S>
    ensures means { ⟦<Window<S> as Store<K>>⟧.log result ≡ window_log (S.Store.log below) start length }
    ensures parts { result ≡ record { below = below; start = start; length = length } }
{
    Window::new(below, start, length)
}
