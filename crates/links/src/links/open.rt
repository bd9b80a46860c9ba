// How links begin, each boundary by itself, and end.
ghost use Rattle.std.specs.Prelude.{◌≡◌, []};
ghost use Rattle.links.specs.Joined.{joined};

use super::Links;
use crate::row::Row;
use std::array::from_fn;

impl Links {
    // Links that no range has joined yet.
    pub fn new() -> Links
        ensures { joined result ≡ [] }
    {
        let rows = from_fn(|i| Row {
            // Stays: the check proves that it fits.
            parent: i as u16,
            size: 1,
            edge: None,
        });
        Links { rows, joins: 0 }
    }

    // The same links once more. Only the guard of provisional joins holds links twice.
    pub(crate) fn saved(&self) -> Links
        ensures { result ≡ self.now }
    {
        Links {
            rows: self.rows,
            joins: self.joins,
        }
    }

    // Lets links go.
    pub fn close(self) {
        let Links { rows: _, joins: _ } = self;
    }
}
