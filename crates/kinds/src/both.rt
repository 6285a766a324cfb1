// Two books as one: it accepts where both do.
ghost use Rattle.std.specs.Prelude.{◌≡◌, ◌-◌, ◌<◌, ◌≤◌};
ghost use Rattle.book.specs.Limits.{most_states};
ghost use Rattle.kinds.specs.Both.{both_width, joined, parts_of, both, both_marks, both_lawful, BothAccepts, BothSelects};

use book::limits::MOST_STATES;
use book::selecting_book::SelectingBook;
use book::shape_book::ShapeBook;

// The state of the two is left * (width of the right) + right.
#[derive(Drop)]
pub struct Both<L: ShapeBook, R: ShapeBook> {
    left: L,
    right: R,
}

impl<L: ShapeBook, R: ShapeBook> Both<L, R> {
    pub fn new(left: L, right: R) -> Both<L, R>
        ensures value { (result.left ≡ left) × (result.right ≡ right) }
        ensures accepts { BothAccepts (L.machine left) (R.machine right) }
        ensures selects { BothSelects (L.machine left) (R.machine right) }
    {
        laws(&left, &right);
        Both { left, right }
    }

    pub fn into_parts(self) -> (L, R)
        ensures { (result.0 ≡ self.left) × (result.1 ≡ self.right) }
    {
        let Both { left, right } = self;
        (left, right)
    }
}

// No effect: what two books accept and select together. It is a function so that its call in `new` can be taken away:
// must-fail/new_both_unshown.edit.
fn laws<L: ShapeBook, R: ShapeBook>(left: &L, right: &R)
    ensures accepts { BothAccepts (L.machine left.now) (R.machine right.now) }
    ensures selects { BothSelects (L.machine left.now) (R.machine right.now) }
{}

// The widths of two books, each within the limit.
#[derive(Clone, Copy)]
struct Widths {
    left: u16,
    right: u16,
    ghost left_narrow: { left ≤ most_states },
    ghost right_narrow: { right ≤ most_states },
}

impl Widths {
    // The width of the two together: 0 if the product exceeds the limit.
    fn product(self) -> u16
        ensures { result ≡ both_width self.left self.right }
    {
        let all = self.left * self.right;
        if all <= MOST_STATES { all } else { 0 }
    }

    // The parts of a state of the two together.
    fn parts(self, state: u16) -> Option<(u16, u16)>
        ensures { result ≡ parts_of self.left self.right state }
    {
        if state < self.product() {
            Some((state / self.right, state % self.right))
        } else {
            None
        }
    }

    // The state whose parts are `left` and `right`.
    #[tactic(auto, using(crate::specs::Both::joined_within, crate::specs::Both::both_narrow))]
    fn join(self, left: u16, right: u16) -> u16
        requires left_bound { left ≤ self.left - 1 }
        requires right_bound { right ≤ self.right - 1 }
        requires some { 0 < both_width self.left self.right }
        ensures { result ≡ joined self.right left right }
    {
        left * self.right + right
    }
}

impl<L: ShapeBook, R: ShapeBook> Both<L, R> {
    fn widths(&self) -> Widths
        ensures { (result.left ≡ (L.machine self.now.left).width) × (result.right ≡ (R.machine self.now.right).width) }
    {
        Widths {
            left: self.left.width(),
            right: self.right.width(),
        }
    }
}

impl<L: ShapeBook, R: ShapeBook> ShapeBook for Both<L, R> {
    ghost machine = { λ o. both (L.machine o.left) (R.machine o.right) };

    ghost lawful = { λ o. both_lawful _ _ (L.lawful o.left) (R.lawful o.right) };

    fn width(&self) -> u16 {
        self.widths().product()
    }

    fn start(&self) -> u16 {
        let widths = self.widths();
        if widths.product() == 0 {
            return 0;
        }
        widths.join(self.left.start(), self.right.start())
    }

    // `mark` goes the same way. One function for both would take two closures and say in its contract what each answers,
    // which is longer than the five lines.
    fn enter(&self, state: u16, tag: u8) -> u16 {
        let widths = self.widths();
        let Some((left, right)) = widths.parts(state) else {
            return 0;
        };
        widths.join(self.left.enter(left, tag), self.right.enter(right, tag))
    }

    fn back(&self, outer: u16, inner: u16, tag: u8) -> u16 {
        let widths = self.widths();
        let Some((outer_left, outer_right)) = widths.parts(outer) else {
            return 0;
        };
        let Some((inner_left, inner_right)) = widths.parts(inner) else {
            return 0;
        };
        let left = self.left.back(outer_left, inner_left, tag);
        let right = self.right.back(outer_right, inner_right, tag);
        widths.join(left, right)
    }

    fn accepts(&self, state: u16) -> bool {
        let Some((left, right)) = self.widths().parts(state) else {
            return false;
        };
        self.left.accepts(left) && self.right.accepts(right)
    }
}

impl<L: SelectingBook, R: SelectingBook> SelectingBook for Both<L, R> {
    ghost marks = { λ o. both_marks (L.machine o.left) (R.machine o.right) (L.marks o.left) (R.marks o.right) };

    #[tactic(auto, using(crate::specs::Both::both_marks_lawful))]
    fn marked(&self) {
        self.left.marked();
        self.right.marked();
    }

    fn mark(&self, state: u16, tag: u8) -> u16 {
        self.left.marked();
        self.right.marked();
        let widths = self.widths();
        let Some((left, right)) = widths.parts(state) else {
            return 0;
        };
        widths.join(self.left.mark(left, tag), self.right.mark(right, tag))
    }
}
