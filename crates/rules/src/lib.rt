// Protection rules: which ranges of a log must not become known.
#![tactic(auto)]

ghost use Rattle.std.specs.Prelude.{◌≡◌, ℕ, Bool};
ghost use Rattle.rules.specs.Ordered.{Ordered};

mod joined;
mod short;
mod spans;
#[cfg(test)]
mod tests;

pub use joined::Joined;
use ranges::Range;
pub use short::Short;
pub use spans::Spans;

// A rule means a yes or a no for each pair of numbers, and a no for each pair that is not a range.
pub trait Rule {
    ghost protects: { Self → ℕ → ℕ → Bool };

    // What each rule proves of itself. It is no law below `fn protects`, since clauses of the ledger name it, and none can name a law.
    ghost ordered: { (rule : Self) → Ordered (protects rule) };

    fn protects(&self, range: Range<u32>) -> bool
        ensures { result ≡ protects self.now range.low range.high };
}
