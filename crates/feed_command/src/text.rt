//! The printed text of rows.

ghost use Rattle.std.specs.Prelude.{◌≡◌, ◌++◌, OnOk, IfOk};
ghost use Rattle.std.specs.List.{flat_map};
ghost use Rattle.feed_command.specs.FeedText.{row_text};

use sg_history::{Row, write_decimal};
use sg_outside::{Bytes, Memory};
use std::alloc::Global;

/// Puts a row's line at the end: key, document, revision and bits, one TAB between, and a line feed.
fn write_row(row: &Row, out: &mut Bytes) -> Result<(), Memory>
    ensures { OnOk result (out.new ≡ out.old ++ row_text row.now) }
{
    row.key.write(out)?;
    out.push(b'\t')?;
    out.extend_from_slice(row.doc.as_bytes())?;
    out.push(b'\t')?;
    row.rev.write(out)?;
    out.push(b'\t')?;
    write_decimal(u64::from(row.bits), out)?;
    out.push(b'\n')?;
    Ok(())
}

/// The lines of rows.
pub fn print_rows(alloc: Global, rows: &[Row]) -> Result<Bytes, Memory>
    ensures { IfOk result (λ text. text ≡ flat_map (λ row. row_text row) rows.now) }
{
    let mut out = Bytes::new(alloc);
    for row in rows {
        write_row(row, &mut out)?;
    }
    Ok(out)
}
