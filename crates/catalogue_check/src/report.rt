// What is printed of a whole text.
ghost use Rattle.catalogue_check.specs.Lines.{Reports};
ghost use Rattle.std.specs.Prelude.{IfOk};

use crate::lines::{add_last_line, add_tags};
use markup::{ReaderFault, read_all};
use printing::{Page, Report};
use std::alloc::{AllocError, Global};

// The lines of the text's tags and the last line, and why the text is refused, where it is.
pub fn report_of(heap: Global, text: &[u8]) -> Result<Report<ReaderFault>, AllocError>
    ensures { IfOk result (λ p. Reports text.now p) }
{
    let whole = read_all(heap, text)?;
    let mut page = add_tags(Page::from(Vec::new(heap)), whole.tags.as_slice())?;
    add_last_line(&mut page, whole.tags.len(), whole.fault)?;
    Ok(Report {
        printed: page.into_bytes(),
        fault: whole.fault,
    })
}
