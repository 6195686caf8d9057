// Reads standard input and shows its lines.
use crate::reading::Reading;
use std::fmt;
use std::io::Read;
use text_faults::places::part;
use text_names::page::Page;

// How many octets are read and written at once.
const BLOCK: usize = 65536;

// Shows the whole input. A failed read ends it, and so does a failed write. A proved loop has to end, and nothing says that the input does:
// it has more turns than any run uses up.
pub(crate) fn show_all(rt: &(impl Print + Input)) -> fmt::Result {
    let mut input = rt.reader();
    let mut page: Page<_, BLOCK> = Page::new(rt);
    let mut reading = Reading::new();
    let mut block = [0; BLOCK];
    for _ in 0..u64::MAX {
        let n = input.read(&mut block).unwrap_or(0);
        if n == 0 {
            break;
        }
        reading.take(&mut page, part(&block, 0, n))?;
        page.flush()?;
    }
    reading.finish(&mut page)?;
    page.flush()
}
