//! Writes bytes, sixteen per line, in the columns of `hexdump -C`.
ghost use Rattle.std.specs.Prelude.{◌≡◌, ◌+◌, ◌<◌, ◌≤◌, OnOk, length, map};
ghost use Rattle.std.specs.Io.KnownBytes.{Appends};
ghost use Rattle.cobs_live.specs.Dump.{cell, character, dump, dump_row, upto};

use std::io::{self, Write};

/// The number of bytes on a line.
const ROW: usize = 16;

/// Writes the bytes, sixteen per line. Each line has the offset of its first byte, the bytes as hexadecimal digits, and
/// the bytes as characters.
pub fn write_dump<W: Write>(output: &mut W, bytes: &[u8]) -> io::Result<()>
    ensures written { OnOk result
        (Appends (W.contents output.old) (W.contents output.new) (dump bytes.now)) }
{
    let rows = bytes.len().div_ceil(ROW);
    'by_row: for row in 0..rows {
        let start = ROW * row;
        let end = bytes.len().min(start + ROW);
        write_row(output, start, &bytes[start..end])?;
    }
    Ok(())
}

/// Writes one line with up to sixteen bytes, the first of which is at `offset`.
fn write_row<W: Write>(output: &mut W, offset: usize, row: &[u8]) -> io::Result<()>
    requires few { length row.now ≤ 16 }
    ensures written { OnOk result
        (Appends (W.contents output.old) (W.contents output.new) (dump_row offset row.now)) }
{
    write!(output, "{offset:08x}  ")?;
    write_cells(output, row, 0)?;
    output.write_all(b" ")?;
    write_cells(output, row, 8)?;
    output.write_all(b" |")?;
    write_characters(output, row)?;
    output.write_all(b"|\n")
}

/// Writes the digits of eight bytes, the first of which is at index `from`. If the row ends before the last of them,
/// writes spaces in place of the missing digits.
fn write_cells<W: Write>(output: &mut W, row: &[u8], from: usize) -> io::Result<()>
    requires few { from < 16 }
    ensures written { OnOk result (Appends (W.contents output.old) (W.contents output.new)
        (upto (λ i. cell row.now (from + i)) 8)) }
{
    'by_cell: for i in 0..8 {
        write_cell(output, row, from + i)?;
    }
    Ok(())
}

/// Writes the digits of the byte at index `i` and a space, or three spaces if the row ends before this index.
fn write_cell<W: Write>(output: &mut W, row: &[u8], i: usize) -> io::Result<()>
    ensures written { OnOk result
        (Appends (W.contents output.old) (W.contents output.new) (cell row.now i)) }
{
    if i < row.len() {
        let mut digits = [0; 2];
        // The two digits of a byte always fit.
        if hex::encode_to_slice(&[row[i]], &mut digits).is_err() {
            unreachable!();
        }
        output.write_all(&digits)?;
        output.write_all(b" ")
    } else {
        output.write_all(b"   ")
    }
}

/// Writes all bytes of a row as characters, in one write.
fn write_characters<W: Write>(output: &mut W, row: &[u8]) -> io::Result<()>
    requires few { length row.now ≤ 16 }
    ensures written { OnOk result
        (Appends (W.contents output.old) (W.contents output.new) (map character row.now)) }
{
    let mut room = [0; ROW];
    let shown = &mut room[..row.len()];
    shown.copy_from_slice(row);
    to_characters(shown);
    output.write_all(shown)
}

/// Replaces each byte with a dot, unless the byte is a visible ASCII character or a space.
fn to_characters(bytes: &mut [u8])
    ensures shown { bytes.new ≡ map character bytes.old }
{
    for byte in bytes.iter_mut() {
        *byte = character(*byte);
    }
}

/// Returns the byte if it is a visible ASCII character or a space, and otherwise a dot.
fn character(byte: u8) -> u8
    ensures shown { result ≡ character byte }
{
    if 32 <= byte && byte <= 126 { byte } else { 46 }
}
