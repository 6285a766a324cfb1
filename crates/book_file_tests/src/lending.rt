// A book borrows its file's bytes: they may be written again once the book is let go.
ghost use Rattle.std.specs.Prelude.{◌≡◌};
ghost use Rattle.book_file_tests.specs.Lending.{cleared, shape_width};

use book::shape_book::ShapeBook;
use book_file::file::BookFile;
use book_file::reading::read_book;

// The width of the shape book in these bytes, 0 where there is none, as of a book without states; then the first byte is
// cleared.
pub fn width_and_clear(bytes: &mut [u8]) -> u16
    ensures width { result ≡ shape_width bytes.old }
    ensures after { bytes.new ≡ cleared bytes.old }
{
    let width = match read_book(bytes) {
        Ok(BookFile::Shape(file)) => {
            let book = file.book();
            book.width()
        }
        _ => 0,
    };
    if let Some(first) = bytes.first_mut() {
        *first = 0;
    }
    width
}
