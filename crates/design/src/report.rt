//! The whole report on a file.
ghost use Rattle.std.specs.Prelude.{ℕ, List, IfOk};
ghost use Rattle.design.specs.Lines.{LineOut};
ghost use Rattle.design.specs.Reports.{Reported, OneReport};

use crate::head::Head;
use crate::lines::{LINE_ROOM, LineShort, stages_line, stop_line};
use model::orders::Order;
use std::alloc::{AllocError, Global};

/// Writes the line of a file's head, or of the refusal of it, to the front of `buffer`; answers its length.
fn head_line(file: &[u8], buffer: &mut [u8]) -> Result<usize, LineShort>
    ensures { (line : List ℕ) × Reported file.now line × LineOut line buffer.old result buffer.new }
{
    match Head::read(file) {
        Ok(head) => stages_line(head.order.size(), buffer),
        Err(refusal) => stop_line(u8::from(refusal.fault), refusal.place, buffer),
    }
}

/// The report on a file: the line of its head, or of the refusal of it.
pub fn report(heap: Global, file: &[u8]) -> Result<Vec<u8>, AllocError>
    ensures { IfOk result (λ out. Reported file.now out.items) × OneReport file.now }
{
    let mut line = [0; LINE_ROOM];
    let len = head_line(file, &mut line).unwrap();
    Vec::from_slice(heap, &line[..len])
}
