// A store's slots as two lists of their own: what a plain store is made of.
ghost use Rattle.std.specs.Prelude.{◌≡◌, [], ◌∷◌, ◌++◌, IfOk, OnOk, OnErr};
ghost use Rattle.stores.specs.Log.{valued, told, mark_of, meant, kept_or_missing, Alike};
ghost use Rattle.stores.specs.Stores.{plain_log};

use crate::plain::Plain;
use crate::store::{Reading, Store};
use kinds::Kind;
use std::alloc::{AllocError, Global};

// Stays: the two lists that a plain store lies over.
#[derive(Drop)]
pub struct Lists<K> {
    values: Vec<K>,
    marks: Vec<u8>,
}

impl<K: Kind> Lists<K> {
    // Lists of no slots.
    pub fn new(heap: Global) -> Lists<K>
        ensures values { result.values.items ≡ [] }
        ensures marks { result.marks.items ≡ [] }
    {
        Lists {
            values: Vec::new(heap),
            marks: Vec::new(heap),
        }
    }

    // One more slot; without the memory for it, all stays as it was.
    pub fn push(&mut self, value: K, mark: u8) -> Result<(), AllocError>
        ensures values { OnOk result (self.new.values.items ≡ self.old.values.items ++ value ∷ []) }
        ensures marks { OnOk result (self.new.marks.items ≡ self.old.marks.items ++ mark ∷ []) }
        ensures err { OnErr result ((self.new.values.items ≡ self.old.values.items) × (self.new.marks.items ≡ self.old.marks.items)) }
    {
        self.values.reserve(1)?;
        self.marks.push(mark)?;
        self.values.push(value).unwrap();
        Ok(())
    }

    // The plain store over the two lists.
    pub fn plain(&self) -> Plain<'_, K>
        ensures values { result.values.now ≡ self.now.values.items }
        ensures marks { result.marks.now ≡ self.now.marks.items }
    {
        Plain::new(self.values.as_slice(), self.marks.as_slice())
    }
}

// A value and a mark byte that answer as a slot of a store did.
fn listed<K: Kind>(reading: Reading<K>) -> (K, u8)
    ensures { told (mark_of result.1) (K.Kind.meaning result.0) ≡ kept_or_missing (valued K.Kind.meaning reading) }
{
    match reading {
        Reading::Value(value) => (value, 1),
        Reading::Missing | Reading::Outside => (K::zero(), 0),
    }
}

// Lists every slot of a store: the plain store over the lists answers as the store does.
pub fn list<K: Kind, S: Store<K>>(heap: Global, store: &S) -> Result<Lists<K>, AllocError>
    ensures { IfOk result (λ l. Alike (meant K.Kind.meaning (S.Store.log store.now)) (meant K.Kind.meaning (plain_log (K.Kind.held K.Kind.group.zero) l.values.items l.marks.items))) }
{
    let mut lists = Lists::new(heap);
    for slot in 0..store.slots() {
        let (value, mark) = listed(store.read(slot));
        lists.push(value, mark)?;
    }
    Ok(lists)
}
