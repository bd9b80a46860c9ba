// Watt-hours: 0 to 4,294,967,295, added modulo 4,294,967,296; four bytes, the lowest first; one number.
ghost use Rattle.std.specs.Prelude.{◌≡◌, refl, ◌+◌, ◌-◌, ◌%◌, ◌^◌, ◌↔◌, eqb, [], ◌∷◌, length, is_ok, if◌then◌else◌, Some, None, IsTrue, slice_index};
ghost use Rattle.std.proofs.Common.{lit<, rules};
ghost use Rattle.std.specs.Cmp.Rules.{comparing};
ghost use Rattle.std.specs.Option.{option_map};
ghost use Rattle.std.specs.Fmt.{DisplaysOnOk};
ghost use Rattle.kinds.specs.Codec.{fitted, filled};
ghost use Rattle.kinds.specs.Digits.{digits, number};
ghost use Rattle.kinds.specs.Residues.{Residue};
ghost use Rattle.kinds.specs.Texts.{numbers_text};
ghost use Rattle.kinds.specs.declared.names.KindName.{KindName};
ghost use Rattle.kinds.specs.Kinds.{wh_group, wh_meaning, wh_eq, wh_held, wh_bytes, wh_numbers};
ghost use Rattle.kinds.specs.Held.{residue_self, residues_equal};

use crate::kind::{Kind, NamedKind, WrongLength, fill};
use crate::names::KindName;
use std::fmt;

#[derive(Clone, Copy, Debug)]
pub struct Wh {
    pub amount: u32,
}

// Stays: a derived `==` has a law at numbers past 2^32 too, where held numbers differ and mean the same.
impl PartialEq for Wh {
    ghost eq = { wh_eq };

    ghost laws = { Prim.search (comparing, rules) };

    fn eq(&self, other: &Wh) -> bool
        ensures meant { result ≡ wh_eq self.now other.now }
        ensures value { IsTrue result ↔ (self.now.amount ≡ other.now.amount) }
    {
        self.amount == other.amount
    }
}

impl Eq for Wh {
    ghost laws = { Prim.search (comparing, rules) };
}

// Printed are the numbers that the kind writes of the value.
impl fmt::Display for Wh {
    ghost output = { λ x. Some (numbers_text (wh_numbers.write (wh_meaning x))) };

    fn fmt<W: fmt::Write>(&self, f: &mut fmt::Formatter<W>) -> fmt::Result
        ensures writes { DisplaysOnOk W.write_str_gives f.old result (Some (numbers_text (wh_numbers.write (wh_meaning self.now)))) f.new }
        ensures value { DisplaysOnOk W.write_str_gives f.old result (Some (numbers_text (self.now.amount ∷ []))) f.new }
    {
        let amount = self.amount;
        write!(f, "{amount}")
    }
}

impl Kind for Wh {
    ghost Value = { Residue (2 ^ 32) };

    ghost group = { wh_group };

    ghost meaning = { wh_meaning };

    ghost held = { wh_held };

    ghost bytes = { wh_bytes };

    ghost numbers = { wh_numbers };

    ghost BYTES = { 4 };

    const BYTES: u8 = 4;

    ghost NUMBERS = { 1 };

    const NUMBERS: u8 = 1;

    ghost means = { residue_self (2 ^ 32) (lit< tt) };

    ghost equal = { λ a b. residues_equal (2 ^ 32) (lit< tt) a.amount b.amount };

    ghost bytes_long = { refl };

    ghost numbers_long = { refl };

    fn zero() -> Wh
        ensures meant { wh_meaning result ≡ wh_group.zero }
        ensures value { result.amount ≡ 0 }
    {
        Wh { amount: 0 }
    }

    fn plus(self, other: Wh) -> Wh
        ensures meant { wh_meaning result ≡ wh_group.plus (wh_meaning self) (wh_meaning other) }
        ensures value { result.amount ≡ (self.amount + other.amount) % 2 ^ 32 }
    {
        Wh {
            amount: self.amount.wrapping_add(other.amount),
        }
    }

    fn inverse(self) -> Wh
        ensures meant { wh_meaning result ≡ wh_group.inverse (wh_meaning self) }
        ensures value { result.amount ≡ (2 ^ 32 - self.amount) % 2 ^ 32 }
    {
        Wh {
            amount: 0u32.wrapping_sub(self.amount),
        }
    }

    fn write_bytes(self, out: &mut [u8]) -> Result<(), WrongLength>
        ensures test { is_ok result ≡ fitted wh_bytes out.old }
        ensures after { out.new ≡ filled wh_bytes (wh_meaning self) out.old }
        ensures value { out.new ≡ (if eqb (length out.old) 4 then digits 256 4 self.amount else out.old) }
    {
        fill(out, &self.amount.to_le_bytes())
    }

    fn read_bytes(row: &[u8]) -> Option<Wh>
        ensures meant { option_map wh_meaning result ≡ wh_bytes.read row.now }
        ensures value { result ≡ (if eqb (length row.now) 4 then Some (record { amount = number 256 row.now }) else None) }
    {
        let &[a, b, c, d] = row else {
            return None;
        };
        Some(Wh {
            amount: u32::from_le_bytes([a, b, c, d]),
        })
    }

    fn write_numbers(self, out: &mut [u32]) -> Result<(), WrongLength>
        ensures test { is_ok result ≡ fitted wh_numbers out.old }
        ensures after { out.new ≡ filled wh_numbers (wh_meaning self) out.old }
        ensures value { out.new ≡ (if eqb (length out.old) 1 then self.amount ∷ [] else out.old) }
    {
        fill(out, &[self.amount])
    }

    fn read_numbers(row: &[u32]) -> Option<Wh>
        ensures meant { option_map wh_meaning result ≡ wh_numbers.read row.now }
        ensures value { result ≡ (if eqb (length row.now) 1 then Some (record { amount = slice_index row.now 0 }) else None) }
    {
        let &[amount] = row else {
            return None;
        };
        Some(Wh { amount })
    }
}

impl NamedKind for Wh {
    ghost NAME = { KindName.Wh };

    const NAME: KindName = KindName::Wh;
}
