// The lines that say what is in a book file.
ghost use Rattle.std.specs.Prelude.{◌≡◌, ◌-◌, ◌++◌, OnOk};
ghost use Rattle.book_file.specs.Books.{tables_in};
ghost use Rattle.book_file.specs.Names.{listed, name_of};
ghost use Rattle.book_report.specs.Lines.{name_line, name_lines, number_lines, shape_lines};

use crate::states::add_states;
use book::shape_book::ShapeBook;
use book_file::names::Names;
use book_file::table::TableBook;
use printing::Page;
use std::alloc::AllocError;

fn add_numbers(page: &mut Page, book: &TableBook<'_>) -> Result<(), AllocError>
    ensures { OnOk result (page.new ≡ page.old ++ number_lines (tables_in book.now)) }
{
    let TableBook {
        states,
        trees,
        columns,
        start,
        ..
    } = book;
    writeln!(
        page,
        "states {states}\ntree states {trees}\ntags {columns}\nstart {start}"
    )
}

// A tag and its name, where it has one.
fn add_name(page: &mut Page, names: &Names<'_>, tag: u8) -> Result<(), AllocError>
    ensures { OnOk result (page.new ≡ page.old ++ name_line tag (name_of (listed names.now) tag)) }
{
    let Some(name) = names.name_of(tag) else {
        return Ok(());
    };
    write!(page, "tag {tag} ")?;
    page.add_bytes(name)?;
    writeln!(page)
}

fn add_names(page: &mut Page, book: &TableBook<'_>, names: &Names<'_>) -> Result<(), AllocError>
    ensures { OnOk result (page.new ≡ page.old ++ name_lines book.now.columns (listed names.now)) }
{
    for tag in 1..book.columns {
        add_name(page, names, tag)?;
    }
    Ok(())
}

// All but the kind.
pub(crate) fn add_shape(
    page: &mut Page,
    book: &TableBook<'_>,
    names: &Names<'_>,
) -> Result<(), AllocError>
    ensures { OnOk result (page.new ≡ page.old ++ shape_lines (tables_in book.now) (listed names.now)) }
{
    add_numbers(page, book)?;
    add_states(page, "accepting", book.states, |state| book.accepts(state))?;
    add_names(page, book, names)
}
