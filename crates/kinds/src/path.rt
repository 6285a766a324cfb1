// The path book: it selects the items whose tags from the top down fit a row of steps.
ghost use Rattle.std.specs.Prelude.{◌≡◌, ◌^◌, ◌<◌, ◌≤◌, true, false, ◌&&◌, ◌||◌, nat_lt, map, length, take, MatchResult};
ghost use Rattle.book.specs.Limits.{tags, most_steps};
ghost use Rattle.book.specs.declared.fault.BookFault.TheVariants.{PathSteps};
ghost use Rattle.kinds.specs.Path.{steps_right, path_right, step_of, step_from, steps_of, descends, fits, member, keeps, adds, enter_set, matches, path_machine, path_marks, few_steps, path_lawful, PathSelects};

use book::fault::BookFault;
use book::limits::{MOST_STEPS, TAGS};
use book::selecting_book::SelectingBook;
use book::shape_book::ShapeBook;

// The tag of a step that fits every tag.
const ANY_TAG: u8 = 255;

// The greatest tag of a step that fits one tag.
const LAST_TAG: u8 = TAGS - 1;

// A step as it is given, in numbers: an enum would ask more of callers.
#[derive(Clone, Copy, Debug, PartialEq, Eq)]
pub struct Step {
    // 0 child, 1 descendant
    pub axis: u8,
    // 0 to 31, or 255 for any tag
    pub tag: u8,
}

// Steps -----------------------------------------------------------------------------------------------------------

#[derive(Clone, Copy, PartialEq, Eq)]
enum Axis {
    // the next item down
    Child,
    // any item further down
    Descendant,
}

#[derive(Clone, Copy)]
enum TagTest {
    Any,
    Only(u8),
}

#[derive(Clone, Copy)]
struct PathStep {
    axis: Axis,
    tag: TagTest,
}

impl TryFrom<Step> for PathStep {
    type Error = BookFault;

    ghost try_from_gives = { λ step made. made ≡ step_from step };

    fn try_from(step: Step) -> Result<PathStep, BookFault> {
        let axis = match step.axis {
            0 => Axis::Child,
            1 => Axis::Descendant,
            _ => return Err(BookFault::PathSteps),
        };
        let tag = match step.tag {
            ANY_TAG => TagTest::Any,
            0..=LAST_TAG => TagTest::Only(step.tag),
            _ => return Err(BookFault::PathSteps),
        };
        Ok(PathStep { axis, tag })
    }
}

impl PathStep {
    fn descends(self) -> bool
        ensures { result ≡ descends self.axis }
    {
        self.axis == Axis::Descendant
    }

    fn fits(self, tag: u8) -> bool
        ensures { result ≡ fits self tag }
    {
        match self.tag {
            TagTest::Any => true,
            TagTest::Only(wanted) => wanted == tag,
        }
    }
}

// Paths -----------------------------------------------------------------------------------------------------------

// A set of matched steps is a number below `sets`: bit j says that the first j steps are matched.
#[derive(Clone, Copy)]
struct Path<'a> {
    steps: &'a [PathStep],
    ghost some: { 1 ≤ length steps.now },
    ghost few: { length steps.now ≤ most_steps },
}

impl Path<'_> {
    // How many sets there are.
    #[tactic(auto, using(std::proofs::lemmas::Nat::one_shl, std::proofs::Common::pow_mono))]
    fn sets(&self) -> u16
        ensures { (result ≡ 2 ^ length self.now.steps.now) × (result ≤ 2 ^ most_steps) }
    {
        1 << self.steps.len()
    }

    // The set inside an item with this tag.
    #[tactic(auto, using(std::proofs::lemmas::Nat::one_shl, std::proofs::Common::pow_mono, crate::specs::Path::set_of_below, crate::proofs::Paths::set_more, crate::proofs::Paths::adds_more))]
    fn enter_set(&self, set: u16, tag: u8) -> u16
        ensures { result ≡ enter_set self.now.steps.now set tag }
    {
        let mut next = 0;
        // whether the step before leads here
        let mut added = false;
        for (place, step) in self.steps.iter().enumerate() {
            let here = has(set, place);
            let kept = here && step.descends();
            if kept || added {
                next += 1 << place;
            }
            added = here && step.fits(tag);
        }
        next
    }

    // Are all steps matched at an item with this tag?
    fn all_matched(&self, set: u16, tag: u8) -> bool
        ensures { result ≡ matches self.now.steps.now set tag }
    {
        let last = self.steps.len() - 1;
        has(set, last) && self.steps[last].fits(tag)
    }
}

// Are the first `place` steps matched in this set?
fn has(set: u16, place: usize) -> bool
    requires { place < most_steps }
    ensures { result ≡ member set place }
{
    (set >> place) % 2 == 1
}

// The book --------------------------------------------------------------------------------------------------------

// The path is the first `count` steps, and the others fill the row: it stands in the book itself, so that no path can
// run out of memory, and books of paths are copied.
#[derive(Clone, Copy)]
struct Row {
    steps: [PathStep; MOST_STEPS],
    count: usize,
}

impl Row {
    // The steps that the numbers mean.
    fn of(given: &[Step]) -> Result<Row, BookFault>
        requires { length given.now ≤ most_steps }
        ensures { MatchResult result (λ row. (steps_right given.now ≡ true) × (row.count ≡ length given.now) × (steps_of row ≡ map step_of given.now)) (λ f. (steps_right given.now ≡ false) × (f ≡ PathSteps)) }
    {
        let filler = PathStep {
            axis: Axis::Child,
            tag: TagTest::Any,
        };
        let mut steps = [filler; MOST_STEPS];
        // Written by place: behind a loop over `iter_mut` a proof knows no element.
        for (place, step) in given.iter().enumerate() {
            steps[place] = PathStep::try_from(*step)?;
        }
        Ok(Row {
            steps,
            count: given.len(),
        })
    }
}

#[derive(Clone, Copy)]
pub struct PathBook {
    row: Row,
    ghost some: { 1 ≤ row.count },
    ghost few: { row.count ≤ most_steps },
}

impl PathBook {
    #[tactic(auto, using(crate::proofs::Paths::path_selects))]
    pub fn new(steps: &[Step]) -> Result<PathBook, BookFault>
        ensures { MatchResult result (λ b. (path_right steps.now ≡ true) × (steps_of b.row ≡ map step_of steps.now) × PathSelects (steps_of b.row)) (λ f. (path_right steps.now ≡ false) × (f ≡ PathSteps)) }
    {
        let count = steps.len();
        if count < 1 || count > MOST_STEPS {
            return Err(BookFault::PathSteps);
        }
        Ok(PathBook {
            row: Row::of(steps)?,
        })
    }

    fn path(&self) -> Path<'_>
        ensures { result.steps.now ≡ steps_of self.now.row }
    {
        Path {
            steps: &self.row.steps[..self.row.count],
        }
    }

    // Is this a state of the book, and this a tag?
    fn asks(&self, state: u16, tag: u8) -> bool
        ensures { result ≡ (nat_lt state (path_machine (steps_of self.now.row)).width && nat_lt tag tags) }
    {
        state < self.width() && tag < TAGS
    }
}

// A state below `miss` is a set of matched steps; `miss + 1` is hit.
impl ShapeBook for PathBook {
    ghost machine = { λ b. path_machine (steps_of b.row) };

    ghost lawful = { λ b. path_lawful _ (few_steps b.row b.few) };

    fn width(&self) -> u16 {
        self.path().sets() + 2
    }

    fn start(&self) -> u16 {
        1
    }

    fn enter(&self, state: u16, tag: u8) -> u16 {
        let path = self.path();
        let miss = path.sets();
        if !self.asks(state, tag) {
            0
        } else if state < miss {
            path.enter_set(state, tag)
        } else {
            state
        }
    }

    fn back(&self, outer: u16, inner: u16, tag: u8) -> u16 {
        let miss = self.path().sets();
        if !self.asks(outer, tag) || !self.asks(inner, tag) {
            0
        } else if inner < miss {
            outer
        } else {
            inner
        }
    }

    fn accepts(&self, state: u16) -> bool {
        state == self.path().sets() + 1
    }
}

impl SelectingBook for PathBook {
    ghost marks = { λ b. path_marks (steps_of b.row) };

    #[tactic(auto, using(crate::specs::Path::path_marks_lawful))]
    fn marked(&self) {}

    fn mark(&self, state: u16, tag: u8) -> u16 {
        let path = self.path();
        let miss = path.sets();
        if !self.asks(state, tag) {
            0
        } else if state >= miss {
            state
        } else if path.all_matched(state, tag) {
            miss + 1
        } else {
            miss
        }
    }
}
