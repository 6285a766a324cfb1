// One level of a run.
ghost use Rattle.std.specs.Prelude.{◌≡◌, Bool, []};
ghost use Rattle.scan.specs.Tracks.{level, track, first, inside, may};
ghost use Rattle.levels.specs.Sets.{machine_of, reach_of};
ghost use Rattle.levels.specs.Levels.{level_of, blank};

use crate::sets::Sets;
use book::event::Event;
use book::shape_book::ShapeBook;
use ready::ready::Ready;

// A run keeps a level for each open item around it, and one outside them all. The level's sets follow from the level
// around it, that level's state and the item's tag alone: they are worked out once, when the item opens.
#[derive(Clone, Copy)]
pub struct Level {
    // where the run stands; for a level around others, the state set aside
    state: u16,
    // from which states of this level some way on is accepted, and from which some way on is not
    sets: Sets,
}

impl Level {
    // A level that no run has: state 0, from which there is no way on.
    pub fn blank() -> Level
        ensures { result ≡ blank }
    {
        Level {
            state: 0,
            sets: Sets::empty(),
        }
    }

    // The level outside all items, before any event.
    pub fn outermost<B: ShapeBook>(ready: &Ready<B>) -> Level
        ensures { level_of result ≡ (first (reach_of ready.now) (machine_of ready.now)).top }
    {
        let ending = Sets::ending(ready);
        Level {
            state: ready.book().start(),
            sets: ending.widened(ready),
        }
    }

    // The level inside an item of tag `tag` that opens here and is entered in the state `state`.
    pub fn inside<B: ShapeBook>(&self, ready: &Ready<B>, state: u16, tag: u8) -> Level
        ensures { level_of result ≡ level state (inside (reach_of ready.now) (machine_of ready.now) tag (level_of self.now)) }
    {
        let closing = self.sets.closing(ready, self.state, tag);
        Level {
            state,
            sets: closing.widened(ready),
        }
    }

    // This level again, once the item of tag `tag` has closed in whose level the run stood in the state `inner`.
    pub fn behind<B: ShapeBook>(&self, ready: &Ready<B>, inner: u16, tag: u8) -> Level
        ensures { level_of result ≡ level ((machine_of ready.now).back self.now.state inner tag) (level_of self.now).can }
    {
        self.at(ready.book().back(self.state, inner, tag))
    }

    // The same level, with the run in another state.
    pub fn at(&self, state: u16) -> Level
        ensures { level_of result ≡ level state (level_of self.now).can }
    {
        Level { state, ..*self }
    }

    pub fn state(&self) -> u16
        ensures { result ≡ self.now.state }
    {
        self.state
    }

    // Can the catalogue still get the answer `wanted`, once this event has been? After the end the state alone says. `wanted`
    // is one of the two answers that a catalogue can have, as `accepts` gives them: a value, which picks a set and no step.
    pub fn may_be<B: ShapeBook>(&self, ready: &Ready<B>, event: Event, wanted: bool) -> bool
        ensures { result ≡ may (machine_of ready.now) event wanted (track (level_of self.now) []) }
    {
        match event {
            Event::Open(_) | Event::Close(_) => self.sets.contains(wanted, self.state),
            Event::End => ready.book().accepts(self.state) == wanted,
        }
    }
}
