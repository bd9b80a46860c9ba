// What the machine, the kinds and the packed store answer in some small cases.
ghost use Rattle.audit.specs.Cases.{Worked};

use kinds::Kind;

// Only its contract says something: the cases, all together, of every kind.
pub fn examples_hold<K: Kind>() -> u8
    ensures { Worked K.group }
{
    0
}
