// Dials: litres below 10,000 and starts below 1,000, each added modulo its end; four bytes, litres in the first two; two numbers.
ghost use Rattle.std.specs.Prelude.{◌≡◌, refl, ◌+◌, ◌-◌, ◌%◌, ◌^◌, ◌&&◌, ◌↔◌, eqb, ltb, [], ◌∷◌, ◌++◌, length, take, drop, is_ok, if◌then◌else◌, Some, None, IsTrue, nat_lt, slice_index};
ghost use Rattle.std.proofs.Common.{lit<, rules};
ghost use Rattle.std.specs.Cmp.Rules.{comparing};
ghost use Rattle.std.specs.Option.{option_map};
ghost use Rattle.std.specs.Fmt.{DisplaysOnOk};
ghost use Rattle.kinds.specs.Codec.{fitted, filled};
ghost use Rattle.kinds.specs.Digits.{digits, number};
ghost use Rattle.kinds.specs.Texts.{numbers_text};
ghost use Rattle.kinds.specs.declared.names.KindName.{KindName};
ghost use Rattle.kinds.specs.Kinds.{DialValue, dials_group, dials_meaning, dials_eq, dials_held, dials_bytes, dials_numbers};
ghost use Rattle.kinds.specs.Held.{residue_self, dials_equal};

use crate::kind::{Kind, NamedKind, WrongLength, fill};
use crate::names::KindName;
use std::fmt;

const LITRES_END: u16 = 10_000;

const STARTS_END: u16 = 1_000;

// Any two numbers may be held; a pair beyond its ends means its remainders.
#[derive(Clone, Copy, Debug)]
pub struct Dials {
    pub litres: u16,
    pub starts: u16,
}

impl Dials {
    // The pair within its ends that means the same.
    fn reduced(self) -> Dials
        ensures { (result.litres ≡ self.litres % 10000) × (result.starts ≡ self.starts % 1000) }
    {
        Dials {
            litres: self.litres % LITRES_END,
            starts: self.starts % STARTS_END,
        }
    }

    // The pair of two numbers that lie within its ends.
    fn within(litres: u16, starts: u16) -> Option<Dials>
        ensures { result ≡ (if ltb litres 10000 && nat_lt starts 1000 then Some (record { litres = litres; starts = starts }) else None) }
    {
        (litres < LITRES_END && starts < STARTS_END).then_some(Dials { litres, starts })
    }
}

// Dials are equal where they mean the same, whatever pair is held.
impl PartialEq for Dials {
    ghost eq = { dials_eq };

    ghost laws = { Prim.search (comparing, rules) };

    fn eq(&self, other: &Dials) -> bool
        ensures meant { result ≡ dials_eq self.now other.now }
        ensures value { IsTrue result ↔ ((self.now.litres % 10000 ≡ other.now.litres % 10000) × (self.now.starts % 1000 ≡ other.now.starts % 1000)) }
    {
        let a = self.reduced();
        let b = other.reduced();
        (a.litres, a.starts) == (b.litres, b.starts)
    }
}

impl Eq for Dials {
    ghost laws = { Prim.search (comparing, rules) };
}

// Printed are the numbers that the kind writes of the value.
impl fmt::Display for Dials {
    ghost output = { λ x. Some (numbers_text (dials_numbers.write (dials_meaning x))) };

    fn fmt<W: fmt::Write>(&self, f: &mut fmt::Formatter<W>) -> fmt::Result
        ensures writes { DisplaysOnOk W.write_str_gives f.old result (Some (numbers_text (dials_numbers.write (dials_meaning self.now)))) f.new }
        ensures value { DisplaysOnOk W.write_str_gives f.old result (Some (numbers_text ((self.now.litres % 10000) ∷ (self.now.starts % 1000) ∷ []))) f.new }
    {
        let a = self.reduced();
        write!(f, "{} {}", a.litres, a.starts)
    }
}

impl Kind for Dials {
    ghost Value = { DialValue };

    ghost group = { dials_group };

    ghost meaning = { dials_meaning };

    ghost held = { dials_held };

    ghost bytes = { dials_bytes };

    ghost numbers = { dials_numbers };

    ghost BYTES = { 4 };

    const BYTES: u8 = 4;

    ghost NUMBERS = { 2 };

    const NUMBERS: u8 = 2;

    ghost means = { λ v i. (residue_self 10000 (lit< tt) v.0 i, residue_self 1000 (lit< tt) v.1 i) };

    ghost equal = { dials_equal };

    ghost bytes_long = { refl };

    ghost numbers_long = { refl };

    fn zero() -> Dials
        ensures meant { dials_meaning result ≡ dials_group.zero }
        ensures value { (result.litres ≡ 0) × (result.starts ≡ 0) }
    {
        Dials {
            litres: 0,
            starts: 0,
        }
    }

    fn plus(self, other: Dials) -> Dials
        ensures meant { dials_meaning result ≡ dials_group.plus (dials_meaning self) (dials_meaning other) }
        ensures value { (result.litres ≡ (self.litres + other.litres) % 10000) × (result.starts ≡ (self.starts + other.starts) % 1000) }
    {
        let a = self.reduced();
        let b = other.reduced();
        Dials {
            litres: (a.litres + b.litres) % LITRES_END,
            starts: (a.starts + b.starts) % STARTS_END,
        }
    }

    fn inverse(self) -> Dials
        ensures meant { dials_meaning result ≡ dials_group.inverse (dials_meaning self) }
        ensures value { (result.litres ≡ (10000 - self.litres % 10000) % 10000) × (result.starts ≡ (1000 - self.starts % 1000) % 1000) }
    {
        let a = self.reduced();
        Dials {
            litres: (LITRES_END - a.litres) % LITRES_END,
            starts: (STARTS_END - a.starts) % STARTS_END,
        }
    }

    fn write_bytes(self, out: &mut [u8]) -> Result<(), WrongLength>
        ensures test { is_ok result ≡ fitted dials_bytes out.old }
        ensures after { out.new ≡ filled dials_bytes (dials_meaning self) out.old }
        ensures value { out.new ≡ (if eqb (length out.old) 4 then digits 256 2 (self.litres % 10000) ++ digits 256 2 (self.starts % 1000) else out.old) }
    {
        let a = self.reduced();
        let [l0, l1] = a.litres.to_le_bytes();
        let [s0, s1] = a.starts.to_le_bytes();
        fill(out, &[l0, l1, s0, s1])
    }

    fn read_bytes(row: &[u8]) -> Option<Dials>
        ensures meant { option_map dials_meaning result ≡ dials_bytes.read row.now }
        ensures value { result ≡ (if eqb (length row.now) 4 && (nat_lt (number 256 (take 2 row.now)) 10000 && nat_lt (number 256 (drop 2 row.now)) 1000) then Some (record { litres = number 256 (take 2 row.now); starts = number 256 (drop 2 row.now) }) else None) }
    {
        let &[l0, l1, s0, s1] = row else {
            return None;
        };
        let litres = u16::from_le_bytes([l0, l1]);
        let starts = u16::from_le_bytes([s0, s1]);
        Dials::within(litres, starts)
    }

    fn write_numbers(self, out: &mut [u32]) -> Result<(), WrongLength>
        ensures test { is_ok result ≡ fitted dials_numbers out.old }
        ensures after { out.new ≡ filled dials_numbers (dials_meaning self) out.old }
        ensures value { out.new ≡ (if eqb (length out.old) 2 then (self.litres % 10000) ∷ (self.starts % 1000) ∷ [] else out.old) }
    {
        let a = self.reduced();
        fill(out, &[u32::from(a.litres), u32::from(a.starts)])
    }

    fn read_numbers(row: &[u32]) -> Option<Dials>
        ensures meant { option_map dials_meaning result ≡ dials_numbers.read row.now }
        ensures value { result ≡ (if eqb (length row.now) 2 && (nat_lt (slice_index row.now 0) 10000 && nat_lt (slice_index row.now 1) 1000) then Some (record { litres = slice_index row.now 0; starts = slice_index row.now 1 }) else None) }
    {
        let &[litres, starts] = row else {
            return None;
        };
        Dials::within(u16::try_from(litres).ok()?, u16::try_from(starts).ok()?)
    }
}

impl NamedKind for Dials {
    ghost NAME = { KindName.Dials };

    const NAME: KindName = KindName::Dials;
}
