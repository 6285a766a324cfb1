// A catalogue text of about so many MiB: folders with items, attributes, references, comments and text.
use std::alloc::Global;
use std::fmt;
use std::fmt::Write;

// Each folder has about 205 bytes.
pub(crate) fn catalogue(heap: Global, mib: u16) -> Result<String, fmt::Error> {
    let mut text = String::new(heap);
    for folder in 0..u32::from(mib) * 5120 {
        add_folder(&mut text, folder)?;
    }
    Ok(text)
}

fn add_folder(text: &mut String, folder: u32) -> fmt::Result {
    write!(text, "<folder name=\"f{folder}\" shelf='east'>\n")?;
    write!(
        text,
        "  <reel id=\"r{folder}\" kind='tape &amp; film'>copied from tape {folder}, box &lt;7&gt;, twice</reel>\n"
    )?;
    write!(
        text,
        "  <seal id=\"s{folder}\"/>\n  <!-- checked by hand, row {folder} - shelf 4 -->\n</folder>\n"
    )?;
    Ok(())
}
