// Frames: the sum of some task times, with their loading, is at most a limit.
#![tactic(auto)]

ghost use Rattle.std.specs.Prelude.{◌≡◌, slice_get};
ghost use Rattle.rules.specs.Books.{rule_at};
ghost use Rattle.frames.specs.Parts.{IsBounded};
ghost use Rattle.frames.specs.Reads.{frame_rules};

mod bounded;
pub mod record;

use bounded::Bounded;
use record::Frames;
use rows::OrderedRow;
use rules::Book;
use rules::fault::NarrowFault;

impl<'a> Frames<'a> {
    // Frame k; none if there is no such frame, or it does not make sense.
    fn bounded(&self, k: usize) -> Option<Bounded<'a>>
        ensures { IsBounded self.now k result }
    {
        let frame = self.frames.get(k)?;
        if frame.count == 0 || frame.count > 64 {
            return None;
        }
        let parts = self.parts.get(frame.first..)?.get(..frame.count)?;
        Some(Bounded {
            parts,
            limit: frame.limit,
        })
    }

    // The field at a place in the scope of frame k; none past an end.
    fn field_at(&self, k: usize, place: usize) -> Option<u8>
        ensures { result ≡ slice_get (rule_at (frame_rules self.now) k).scope place }
    {
        self.bounded(k)?.parts.get(place).map(|part| part.field)
    }
}

impl<'a, R: OrderedRow> Book<R> for Frames<'a> {
    ghost rules = { frame_rules };

    fn rule_count(&self) -> usize {
        self.frames.len().min(1025)
    }

    fn scope_size(&self, k: usize) -> u8 {
        if k > 1023 || k >= self.frames.len() {
            return 255;
        }
        self.bounded(k).map_or(0, |frame| frame.parts.len() as u8)
    }

    fn scope_field(&self, k: usize, place: usize) -> u8 {
        if k > 1023 {
            return 255;
        }
        self.field_at(k, place).unwrap_or(255)
    }

    fn narrow(&self, k: usize, n: usize, rows: &mut [R]) -> Result<bool, NarrowFault> {
        if k > 1023 {
            return Err(NarrowFault::Unfit);
        }
        self.bounded(k).ok_or(NarrowFault::Unfit)?.narrow(n, rows)
    }
}
