// The level shape: it accepts a catalogue in which no item lies deeper than a given depth.
ghost use Rattle.std.specs.Prelude.{◌≡◌, ◌≤◌, true, false, MatchResult};
ghost use Rattle.book.specs.Limits.{most_depth};
ghost use Rattle.book.specs.declared.fault.BookFault.TheVariants.{LevelDepth};
ghost use Rattle.kinds.specs.LevelShape.{depth_right, level_machine, level_lawful, LevelAccepts};

use book::fault::BookFault;
use book::limits::{MOST_DEPTH, TAGS};
use book::shape_book::ShapeBook;

#[derive(Clone, Copy)]
pub struct LevelShape {
    depth: u16,
    ghost shallow: { depth ≤ most_depth },
}

impl LevelShape {
    #[tactic(auto, using(crate::proofs::LevelShapes::level_accepts))]
    pub fn new(depth: u8) -> Result<LevelShape, BookFault>
        ensures value { MatchResult result (λ s. (depth_right depth ≡ true) × (s.depth ≡ depth)) (λ f. (depth_right depth ≡ false) × (f ≡ LevelDepth)) }
        ensures accepts { LevelAccepts depth }
    {
        if depth < 1 || depth > MOST_DEPTH {
            return Err(BookFault::LevelDepth);
        }
        Ok(LevelShape {
            depth: u16::from(depth),
        })
    }
}

impl ShapeBook for LevelShape {
    ghost machine = { λ s. level_machine s.depth };

    ghost lawful = { λ s. level_lawful _ s.shallow };

    fn width(&self) -> u16 {
        self.depth + 2
    }

    fn start(&self) -> u16 {
        0
    }

    fn enter(&self, state: u16, tag: u8) -> u16 {
        let deeper = self.depth + 1;
        if state > deeper || tag >= TAGS {
            return 0;
        }
        deeper.min(state + 1)
    }

    fn back(&self, outer: u16, inner: u16, tag: u8) -> u16 {
        let deeper = self.depth + 1;
        if outer > deeper || inner > deeper || tag >= TAGS {
            return 0;
        }
        if inner == deeper { deeper } else { outer }
    }

    fn accepts(&self, state: u16) -> bool {
        state <= self.depth
    }
}
