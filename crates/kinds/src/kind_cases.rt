// Worked cases of the kinds of book: proved as one statement, and run. The tests also show how refusals are printed.
ghost use Rattle.kinds.specs.KindCases.{KindCases};

pub fn kind_cases_stand()
    ensures { KindCases }
{}

#[cfg(test)]
mod tests {
    use crate::both::Both;
    use crate::level::LevelShape;
    use crate::opposite::Opposite;
    use crate::path::{PathBook, Step};
    use crate::quarter_marks::QuarterMarks;
    use book::answer::Refusal;
    use book::fault::BookFault;
    use book::selecting_book::SelectingBook;
    use book::shape_book::ShapeBook;
    use std::test::Fail;

    const CHILD_ANY: Step = Step { axis: 0, tag: 255 };

    const BELOW_ONE: Step = Step { axis: 1, tag: 1 };

    // Is every question answered 0 or no whose state is not below the width, or whose tag is above 31?
    fn none_out_of_range<B: ShapeBook>(book: &B) -> bool {
        let width = book.width();
        let entered = book.enter(width, 0) == 0 && book.enter(0, 32) == 0;
        let left = book.back(width, 0, 0) == 0
            && book.back(0, width, 0) == 0
            && book.back(0, 0, 32) == 0;
        entered && left && !book.accepts(width)
    }

    fn none_marked_out_of_range<B: SelectingBook>(book: &B) -> bool {
        book.mark(book.width(), 0) == 0 && book.mark(0, 32) == 0
    }

    // The number with which a book is refused, if it is.
    fn refusal<B: Copy>(made: Result<B, BookFault>) -> Option<u32> {
        made.err().map(BookFault::number)
    }

    #[test]
    fn path_with_two_steps(rt: HostRuntime) -> Result<(), Fail> {
        let book = PathBook::new(&[CHILD_ANY, BELOW_ONE])?;
        assert_eq!(rt; book.width(), 6);
        assert_eq!(rt; book.enter(1, 7), 2);
        assert_eq!(rt; book.mark(1, 1), 4);
        assert_eq!(rt; book.mark(2, 1), 5);
        assert_eq!(rt; book.back(2, 5, 7), 5);
        assert!(rt; book.accepts(5));
        assert!(rt; none_out_of_range(&book) && none_marked_out_of_range(&book));
        Ok(())
    }

    #[test]
    fn level_with_depth_two(rt: HostRuntime) -> Result<(), Fail> {
        let book = LevelShape::new(2)?;
        assert_eq!(rt; book.width(), 4);
        assert_eq!(rt; book.enter(2, 0), 3);
        assert_eq!(rt; book.back(1, 3, 0), 3);
        assert_eq!(rt; book.back(1, 2, 0), 1);
        assert!(rt; book.accepts(2) && !book.accepts(3));
        assert!(rt; none_out_of_range(&book));
        Ok(())
    }

    #[test]
    fn layers_nest(rt: HostRuntime) -> Result<(), Fail> {
        let top = PathBook::new(&[CHILD_ANY])?;
        let book = Opposite::new(Both::new(Opposite::new(top), top));
        assert_eq!(rt; book.width(), 16);
        assert_eq!(rt; book.start(), 5);
        assert_eq!(rt; book.mark(5, 0), 15);
        assert!(rt; book.accepts(15) && book.accepts(0));
        assert!(rt; none_out_of_range(&book) && none_marked_out_of_range(&book));
        let (left, _right) = book.into_inner().into_parts();
        assert_eq!(rt; left.width(), 4);
        Ok(())
    }

    #[test]
    fn too_wide_together(rt: HostRuntime) -> Result<(), Fail> {
        let path = PathBook::new(&[CHILD_ANY, BELOW_ONE, CHILD_ANY, BELOW_ONE])?;
        let book = Both::new(path, LevelShape::new(2)?);
        assert!(rt; book.width() == 0 && book.start() == 0 && none_out_of_range(&book));
        let book = Opposite::new(book);
        assert!(rt; book.width() == 0 && none_out_of_range(&book));
        Ok(())
    }

    #[test]
    fn marks_of_a_byte_are_below_the_width(rt: HostRuntime) {
        let book = Opposite::new(QuarterMarks { byte: 255 });
        book.marked();
        assert_eq!(rt; book.mark(0, 0), 63);
        assert!(rt; none_out_of_range(&book) && none_marked_out_of_range(&book));
    }

    #[test]
    fn refused_at_the_edges(rt: HostRuntime) {
        assert_eq!(rt; refusal(PathBook::new(&[])), Some(19));
        assert_eq!(rt; refusal(PathBook::new(&[CHILD_ANY; 5])), Some(19));
        assert_eq!(rt; refusal(PathBook::new(&[CHILD_ANY; 4])), None);
        assert_eq!(rt;
            refusal(PathBook::new(&[Step { axis: 2, tag: 1 }])),
            Some(19)
        );
        assert_eq!(rt;
            refusal(PathBook::new(&[Step { axis: 1, tag: 32 }])),
            Some(19)
        );
        assert_eq!(rt;
            refusal(PathBook::new(&[Step { axis: 1, tag: 254 }])),
            Some(19)
        );
        assert_eq!(rt; refusal(PathBook::new(&[Step { axis: 1, tag: 31 }])), None);
        assert_eq!(rt; refusal(LevelShape::new(0)), Some(20));
        assert_eq!(rt; refusal(LevelShape::new(33)), Some(20));
        assert!(rt;
            refusal(LevelShape::new(1)).is_none() && refusal(LevelShape::new(32)).is_none()
        );
    }

    #[test]
    fn refusals_as_text(rt: HostRuntime) -> Result<(), Fail> {
        let alloc = rt.alloc();
        assert_eq!(rt;
            BookFault::LevelDepth.to_string(alloc)?.as_str(),
            "refused 20"
        );
        let header = BookFault::HeaderNumber { at: 5 };
        assert_eq!(rt; header.to_string(alloc)?.as_str(), "refused 14 at 5");
        assert_eq!(rt; Refusal::TooDeep.to_string(alloc)?.as_str(), "refused 5");
        Ok(())
    }
}
