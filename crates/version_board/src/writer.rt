//! The writer, and what it names.
ghost use Rattle.std.specs.Prelude.{◌≡◌, IfOk, OnOk, OnErr};
ghost use Rattle.version_board.specs.Known.{added};
ghost use Rattle.version_board.specs.Rows.{Follows, IsRowTo};

use crate::kept::{Kept, add};
use crate::row::Head;
use crate::seats::{Desk, publish};
use cell_units::NoMemory;
use core::mem::replace_with;
use display_map::Version;
use std::alloc::{AllocError, Global};
use std::marker::Model;
use std::sync::{Arc, Wait};

/// The end that publishes. It is seen as what it knows of the row: each version that it published. It isn't `Drop`: end
/// it by `close`.
pub struct Writer {
    pub(crate) desk: Desk,
    pub(crate) head: Head,
    pub(crate) newest: Kept,
}

impl Model for Writer {
    ghost use Rattle.version_board.specs.Known.{Known};

    ghost Value = { Known };

    ghost use Rattle.std.specs.Prelude.{◌≡◌};
    ghost use Rattle.version_board.specs.inside.Book.{head_of};
    ghost use Rattle.version_board.specs.Rows.{IsRowTo};

    ghost view = { λ w. w.newest };

    ghost invariant = { λ w.
        IsRowTo w.newest.row w.newest.newest
        × (w.head ≡ head_of w.newest.board)
        × (w.desk.desk.shown.value.kept ≡ w.newest) };
}

/// A share of the newest version, as the writer named it. It is seen as what the writer knew of the row.
#[derive(Drop)]
pub struct Told {
    pub(crate) kept: Kept,
}

impl Model for Told {
    ghost use Rattle.version_board.specs.Known.{Known};

    ghost Value = { Known };

    ghost view = { λ t. t.kept };
}

impl Writer {
    /// Adds a version at the end of the row, and shows it. It may wait for readers.
    ///
    /// After `Err` the version is given up.
    pub fn publish<R: Wait>(&mut self, rt: &R, alloc: Global, next: Version) -> Result<(), NoMemory>
        // The version may come right after the newest one.
        requires { Follows self.old.newest next }

        // The writer knows the version as its newest, or without memory just what it knew.
        ensures added { OnOk result (self.new ≡ added self.old next) }
        ensures unchanged { OnErr result (self.new ≡ self.old) }

        // Either way the board is the same, and the newest version ends the row.
        ensures board { self.new.board ≡ self.old.board }
        ensures row { IsRowTo self.new.row self.new.newest }
    {
        let Some(kept) = add(&self.head, &self.newest, Arc::new(alloc, next)?) else {
            return Err(NoMemory);
        };
        let shared = kept.share()?;
        replace_with(
            &mut self.desk,
            shared,
            |desk: Desk, shared: Kept| -> (Desk, Result<(), AllocError>)
                requires { shared.board ≡ desk.desk.shown.value.kept.board }
                ensures shown { OnOk result.1 (result.0.desk.shown.value.kept ≡ shared) }
                ensures unchanged { OnErr result.1
                    (result.0.desk.shown.value ≡ desk.desk.shown.value) }
            { publish(rt, desk, shared) },
        )?;
        self.newest = kept;
        Ok(())
    }

    /// Names the newest version. It allocates nothing, and fails with `NoMemory` only where the count of owners of the
    /// version is full.
    pub fn tell(&mut self) -> Result<Told, NoMemory>
        ensures told { IfOk result (λ told. told ≡ self.old) }
        ensures row { IsRowTo self.old.row self.old.newest }
        ensures same { self.new ≡ self.old }
    {
        let kept = self.newest.share()?;
        Ok(Told { kept })
    }

    /// Ends the board: readers keep the versions that they have. It may wait for readers.
    pub fn close<R: Wait>(self, rt: &R) {
        let Writer {
            desk,
            head: _head,
            newest: _newest,
        } = self;
        let _shown = desk.take(rt);
    }
}
