//! The pairs of rows that the elimination for a meet works on.
ghost use Rattle.std.specs.Prelude.{◌≡◌, fold};
ghost use Rattle.kk_rows.specs.Traces.{cleared_trace};

use super::Row;

/// A row of one space, and what another space leaves of it.
#[derive(Clone, Copy)]
pub(crate) struct Traced {
    pub source: Row,
    pub image: Row,
}

impl Traced {
    pub const ZERO: Traced = Traced {
        source: Row(0),
        image: Row(0),
    };

    /// The sum with `lead`, where that makes the image less.
    fn cleared_by(self, lead: Traced) -> Traced
        ensures { result ≡ cleared_trace self lead }
    {
        let image = self.image.0 ^ lead.image.0;
        if image < self.image.0 {
            Traced {
                source: Row(self.source.0 ^ lead.source.0),
                image: Row(image),
            }
        } else {
            self
        }
    }

    /// What is left of it by all of `leads`, one after another.
    pub(crate) fn cleared_by_all(self, leads: &[Traced]) -> Traced
        ensures { result ≡ fold cleared_trace self leads.now }
    {
        let mut cleared = self;
        for lead in leads {
            cleared = cleared.cleared_by(*lead);
        }
        cleared
    }
}
