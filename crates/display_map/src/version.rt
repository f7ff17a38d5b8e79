//! Versions: views that were published.
ghost use Rattle.std.specs.Prelude.{◌≡◌, ◌+◌};
ghost use Rattle.display_map.specs.LawfulStates.{IsLawfulHistory};
ghost use Rattle.display_map.specs.Replay.{versions_of, ends};

use crate::view::ViewOn;
use kept_sheet::Sheet;
use map_sheet::MapSheet;
use std::marker::Model;

/// A published view, whose history ends with its own publishing. It is seen as that history.
pub struct VersionOn<S: Sheet> {
    pub(crate) view: ViewOn<S>,
    pub(crate) number: u32,
    pub(crate) last: bool,
}

impl<S: Sheet> Drop for VersionOn<S> {
    fn drop(self) {
        let VersionOn {
            view: _,
            number: _,
            last: _,
        } = self;
    }
}

/// The version of the product.
pub type Version = VersionOn<MapSheet>;

impl<S: Sheet> Model for VersionOn<S> {
    ghost use Rattle.display_map.specs.Replay.{History};

    ghost Value = { History };

    ghost use Rattle.std.specs.Prelude.{◌≡◌, ◌+◌};
    ghost use Rattle.display_map.specs.Replay.{versions_of, ends};

    ghost view = { λ v. v.view };

    ghost invariant = { λ v. (v.number + 1 ≡ versions_of v.view.events) × (v.last ≡ ends v.view.events) };
}

impl<S: Sheet> VersionOn<S> {
    /// How many versions were published before this one.
    pub fn number(&self) -> u64
        ensures { result + 1 ≡ versions_of self.now.events }
    {
        u64::from(self.number)
    }

    /// What was published.
    pub fn view(&self) -> &ViewOn<S>
        ensures { result.now ≡ self.now }
    {
        &self.view
    }

    /// Its history is lawful, so the laws of histories, of records and of what they show hold of it. It does nothing.
    pub fn lawful(&self)
        ensures { IsLawfulHistory self.now }
    {
        // For the proof: the history of the view is lawful.
        self.view.lawful();
    }

    /// Whether it is the last version of its display.
    pub fn last(&self) -> bool
        ensures { result ≡ ends self.now.events }
    {
        self.last
    }
}
