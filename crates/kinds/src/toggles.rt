// Relay toggles: a mask of 16 bits, one bit a relay, added by exclusive or; two bytes, the lowest first; one number.
ghost use Rattle.std.specs.Prelude.{◌≡◌, refl, ◌^◌, ◌&&◌, ◌↔◌, eqb, [], ◌∷◌, length, is_ok, if◌then◌else◌, Some, None, IsTrue, bit_xor, nat_lt, slice_index};
ghost use Rattle.std.proofs.Common.{lit<, rules};
ghost use Rattle.std.specs.Cmp.Rules.{comparing};
ghost use Rattle.std.specs.Option.{option_map};
ghost use Rattle.std.specs.Fmt.{DisplaysOnOk};
ghost use Rattle.kinds.specs.Codec.{fitted, filled};
ghost use Rattle.kinds.specs.Digits.{digits, number};
ghost use Rattle.kinds.specs.Residues.{Residue};
ghost use Rattle.kinds.specs.Texts.{numbers_text};
ghost use Rattle.kinds.specs.declared.names.KindName.{KindName};
ghost use Rattle.kinds.specs.Kinds.{toggles_group, toggles_meaning, toggles_eq, toggles_held, toggles_bytes, toggles_numbers};
ghost use Rattle.kinds.specs.Held.{residue_self, residues_equal};

use crate::kind::{Kind, NamedKind, WrongLength, fill};
use crate::names::KindName;
use std::fmt;

#[derive(Clone, Copy, Debug)]
pub struct Toggles {
    pub mask: u16,
}

// Stays: no twin of `Wh`, since the two add differently; what they share are definitions over the width (specs/Residues, specs/Digits).
// Stays: a derived `==` has a law at numbers past 2^16 too, where held numbers differ and mean the same.
impl PartialEq for Toggles {
    ghost eq = { toggles_eq };

    ghost laws = { Prim.search (comparing, rules) };

    fn eq(&self, other: &Toggles) -> bool
        ensures meant { result ≡ toggles_eq self.now other.now }
        ensures value { IsTrue result ↔ (self.now.mask ≡ other.now.mask) }
    {
        self.mask == other.mask
    }
}

impl Eq for Toggles {
    ghost laws = { Prim.search (comparing, rules) };
}

// Printed are the numbers that the kind writes of the value.
impl fmt::Display for Toggles {
    ghost output = { λ x. Some (numbers_text (toggles_numbers.write (toggles_meaning x))) };

    fn fmt<W: fmt::Write>(&self, f: &mut fmt::Formatter<W>) -> fmt::Result
        ensures writes { DisplaysOnOk W.write_str_gives f.old result (Some (numbers_text (toggles_numbers.write (toggles_meaning self.now)))) f.new }
        ensures value { DisplaysOnOk W.write_str_gives f.old result (Some (numbers_text (self.now.mask ∷ []))) f.new }
    {
        let mask = self.mask;
        write!(f, "{mask}")
    }
}

impl Kind for Toggles {
    ghost Value = { Residue (2 ^ 16) };

    ghost group = { toggles_group };

    ghost meaning = { toggles_meaning };

    ghost held = { toggles_held };

    ghost bytes = { toggles_bytes };

    ghost numbers = { toggles_numbers };

    ghost BYTES = { 2 };

    const BYTES: u8 = 2;

    ghost NUMBERS = { 1 };

    const NUMBERS: u8 = 1;

    ghost means = { residue_self (2 ^ 16) (lit< tt) };

    ghost equal = { λ a b. residues_equal (2 ^ 16) (lit< tt) a.mask b.mask };

    ghost bytes_long = { refl };

    ghost numbers_long = { refl };

    fn zero() -> Toggles
        ensures meant { toggles_meaning result ≡ toggles_group.zero }
        ensures value { result.mask ≡ 0 }
    {
        Toggles { mask: 0 }
    }

    fn plus(self, other: Toggles) -> Toggles
        ensures meant { toggles_meaning result ≡ toggles_group.plus (toggles_meaning self) (toggles_meaning other) }
        ensures value { result.mask ≡ bit_xor self.mask other.mask }
    {
        Toggles {
            mask: self.mask ^ other.mask,
        }
    }

    fn inverse(self) -> Toggles
        ensures meant { toggles_meaning result ≡ toggles_group.inverse (toggles_meaning self) }
        ensures value { result.mask ≡ self.mask }
    {
        self
    }

    fn write_bytes(self, out: &mut [u8]) -> Result<(), WrongLength>
        ensures test { is_ok result ≡ fitted toggles_bytes out.old }
        ensures after { out.new ≡ filled toggles_bytes (toggles_meaning self) out.old }
        ensures value { out.new ≡ (if eqb (length out.old) 2 then digits 256 2 self.mask else out.old) }
    {
        fill(out, &self.mask.to_le_bytes())
    }

    fn read_bytes(row: &[u8]) -> Option<Toggles>
        ensures meant { option_map toggles_meaning result ≡ toggles_bytes.read row.now }
        ensures value { result ≡ (if eqb (length row.now) 2 then Some (record { mask = number 256 row.now }) else None) }
    {
        let &[a, b] = row else {
            return None;
        };
        Some(Toggles {
            mask: u16::from_le_bytes([a, b]),
        })
    }

    fn write_numbers(self, out: &mut [u32]) -> Result<(), WrongLength>
        ensures test { is_ok result ≡ fitted toggles_numbers out.old }
        ensures after { out.new ≡ filled toggles_numbers (toggles_meaning self) out.old }
        ensures value { out.new ≡ (if eqb (length out.old) 1 then self.mask ∷ [] else out.old) }
    {
        fill(out, &[u32::from(self.mask)])
    }

    fn read_numbers(row: &[u32]) -> Option<Toggles>
        ensures meant { option_map toggles_meaning result ≡ toggles_numbers.read row.now }
        ensures value { result ≡ (if eqb (length row.now) 1 && nat_lt (slice_index row.now 0) (2 ^ 16) then Some (record { mask = slice_index row.now 0 }) else None) }
    {
        let &[mask] = row else {
            return None;
        };
        Some(Toggles {
            mask: u16::try_from(mask).ok()?,
        })
    }
}

impl NamedKind for Toggles {
    ghost NAME = { KindName.Toggles };

    const NAME: KindName = KindName::Toggles;
}
