// The whole report on a book file.
ghost use Rattle.std.specs.Prelude.{◌≡◌, ◌++◌, IfOk, IsSome, OnOk};
ghost use Rattle.book.specs.Faults.{fault_place};
ghost use Rattle.book_file.specs.Parts.{file_of};
ghost use Rattle.book_file.specs.Table.{table_machine};
ghost use Rattle.book_report.specs.Reach.{Shown};
ghost use Rattle.book_report.specs.Lines.{Reports, fault_line, file_lines};

use crate::lines::add_shape;
use crate::reach::add_reach;
use book::fault::BookFault;
use book_file::file::BookFile;
use book_file::reading::read_book;
use printing::Page;
pub use printing::Report;
use std::alloc::{AllocError, Global};

fn add_file(page: &mut Page, file: &BookFile<'_>) -> Result<(), AllocError>
    ensures { OnOk result (Shown (table_machine (file_of file.now).tables) (page.old ++ file_lines (file_of file.now)) page.new) }
{
    let (kind, book, names) = match file {
        BookFile::Shape(file) => ("shape", file.book, file.names),
        BookFile::Selecting(file) => ("selecting", file.book.shape, file.names),
    };
    writeln!(page, "kind {kind}")?;
    add_shape(page, &book, &names)?;
    add_reach(page, book)
}

// The line of a file's fault, which has a place.
fn add_fault(page: &mut Page, fault: BookFault) -> Result<(), AllocError>
    requires { IsSome (fault_place fault) }
    ensures { OnOk result (page.new ≡ page.old ++ fault_line fault) }
{
    writeln!(page, "{fault}")
}

// The report on the book file in these bytes.
#[tactic(auto, using(crate::proofs::Placed::fault_placed))]
pub fn report_on(heap: Global, bytes: &[u8]) -> Result<Report<BookFault>, AllocError>
    ensures { IfOk result (Reports bytes.now) }
{
    let mut page = Page::from(Vec::new(heap));
    let file = read_book(bytes);
    match &file {
        Ok(file) => add_file(&mut page, file)?,
        Err(fault) => add_fault(&mut page, *fault)?,
    }
    Ok(Report {
        printed: page.into_bytes(),
        fault: file.err(),
    })
}
