// The lines that say where a book's states lead.
ghost use Rattle.std.specs.Prelude.{◌≡◌, ◌++◌, OnOk};
ghost use Rattle.ready.specs.Pairs.{lies};
ghost use Rattle.ready.specs.Rounds.{RowsLead};
ghost use Rattle.book_report.specs.Reach.{Shown, row_line, row_lines};

use crate::states::{States, add_states, states_that};
use book::shape_book::ShapeBook;
use printing::Page;
use ready::ready::{Ready, make_ready};
use std::alloc::AllocError;

// A state and the states that rows of whole items lead to from it.
fn add_row<B: ShapeBook>(
    page: &mut Page,
    ready: &Ready<B>,
    width: u16,
    state: u16,
) -> Result<(), AllocError>
    ensures { OnOk result (page.new ≡ page.old ++ row_line (lies ready.now.reach.rows state) width state) }
{
    let reached = states_that(page.heap(), width, |to| ready.reaches(state, to))?;
    let reached = States(reached.as_slice());
    writeln!(page, "state {state} leads to{reached}")
}

fn add_rows<B: ShapeBook>(page: &mut Page, ready: &Ready<B>, width: u16) -> Result<(), AllocError>
    ensures { OnOk result (page.new ≡ page.old ++ row_lines (lies ready.now.reach.rows) width) }
{
    for state in 0..width {
        add_row(page, ready, width, state)?;
    }
    Ok(())
}

// Where the states of a book lead, which is made ready for that.
pub(crate) fn add_reach<B: ShapeBook + Drop>(page: &mut Page, book: B) -> Result<(), AllocError>
    ensures { OnOk result (Shown (B.ShapeBook.machine book) page.old page.new) }
{
    let ready = make_ready(book);
    let width = ready.book().width();
    add_rows(page, &ready, width)?;
    // the states from which no way on is accepted
    let useless = ready.useless_states();
    add_states(
        page,
        "never accepting",
        width,
        |state| useless.contains(state),
    )
}
