//! A value that a step speaks of beside its pass, for proofs alone.
use std::marker::Brand;

/// Names a value.
pub trait Names<X> {
    ghost use Rattle.std.specs.Prelude.{Option};

    ghost named: { Option X };
}

impl<X> Names<X> for Brand {
    ghost use Rattle.std.specs.Prelude.{None};

    ghost named = { None };
}
