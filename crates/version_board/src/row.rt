//! The row of versions as a log that exists in proofs alone. Threads share its one word: the number of the newest
//! version.
use display_map::Version;
use logbook::{Gain, Opening, Plain, Play, Rule, Seen, Word};

/// The word is the number of the newest version, and the log is a row of versions.
pub struct RowRule;

impl Rule<Version, u64> for RowRule {
    ghost use Rattle.std.specs.Prelude.{[]};
    ghost use base.Fml.{ftrue};
    ghost use Rattle.version_board.specs.inside.Book.{IsKept};

    ghost holds = { λ cells row. IsKept cells row };

    ghost first = { [] };

    ghost hinted = { λ n row. Unit {0} };

    ghost shows = { λ row. [] };

    ghost keeps = { λ names row. ftrue };

    ghost moves = { λ ask before after answer. Unit {0} };
}

/// Nothing is traded.
pub struct NoGain;

impl Gain<Version, u64> for NoGain {
    ghost use base.Fml.{ftrue};

    ghost after = { λ names about answer. ftrue };
}

/// The row of a new board has one version.
pub struct OneVersion;

impl Opening<Version, Version> for OneVersion {
    ghost use Rattle.std.specs.Prelude.{[], ◌∷◌};

    ghost log = { λ count first. first ∷ [] };
}

/// The step that adds a version.
pub struct Add;

impl Play<Version, u64> for Add {
    ghost use Rattle.version_board.specs.inside.Book.{Adds};

    ghost then = { Adds };
}

impl Plain<Version, Version, u64> for Add {
    ghost use Rattle.std.specs.Prelude.{None};

    ghost ask = { λ v. v };

    ghost state = { λ v. None };
}

/// The number of the newest version of a row.
pub type Head = Word<Version, u64, RowRule>;

/// A beginning of a row, which it has reached. It takes no bytes.
pub type Beginning = Seen<Version, u64, RowRule>;
