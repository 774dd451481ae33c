//! The lines of the table of a store.
ghost use Rattle.std.specs.Prelude.{◌≡◌, ◌++◌, ◌-◌, codes, length, replicate, IfOk, OnOk, string_bytes};
ghost use Rattle.columnar_tool.specs.Tables.{all_zero, columns_text, end_text, head_text, padding_text, refused_text, right, row_text, tail_text, zero_text};

use std::alloc::{AllocError, Global};

// Appends a text, with blanks before it up to a width.
fn push_right(line: &mut String, text: &str, width: usize) -> Result<(), AllocError>
    ensures { OnOk result (string_bytes line.new ≡ string_bytes line.old ++ (replicate (width - length text.now) 32 ++ text.now)) }
{
    for _i in 0..width.saturating_sub(text.len()) {
        line.push_str(" ")?;
    }
    line.push_str(text)
}

// Appends a number, with blanks before it up to a width. `digits` is overwritten.
fn push_number(
    line: &mut String,
    n: usize,
    width: usize,
    digits: &mut String,
) -> Result<(), AllocError>
    ensures { OnOk result (string_bytes line.new ≡ string_bytes line.old ++ right width n) }
{
    digits.clear();
    write!(digits, "{n}")?;
    push_right(line, digits.as_str(), width)
}

// Returns whether all bytes are zero.
fn is_zero(bytes: &[u8]) -> bool
    ensures { result ≡ all_zero bytes.now }
{
    match bytes {
        [byte, rest @ ..] => *byte == 0 && is_zero(rest),
        [] => true,
    }
}

// Returns what the line says of the bytes of a padding.
fn kind_of(padding: &[u8]) -> &'static str
    ensures { result.now ≡ zero_text padding.now }
{
    if is_zero(padding) {
        " zero"
    } else {
        ", not all zero"
    }
}

// Appends the number of bytes of a padding, if there are any, and whether they are zero.
fn push_padding(line: &mut String, padding: &[u8]) -> Result<(), AllocError>
    ensures { OnOk result (string_bytes line.new ≡ string_bytes line.old ++ padding_text padding.now) }
{
    if padding.is_empty() {
        return Ok(());
    }
    let count = padding.len();
    let kind = kind_of(padding);
    write!(line, "  {count}{kind}")
}

// Appends a number and a blank before it.
fn push_column(line: &mut String, n: usize, digits: &mut String) -> Result<(), AllocError>
    ensures { OnOk result (string_bytes line.new ≡ string_bytes line.old ++ (codes " " ++ right 11 n)) }
{
    line.push_str(" ")?;
    push_number(line, n, 11, digits)
}

// Appends the start, the end and the length of a slice.
fn push_columns(
    line: &mut String,
    begin: usize,
    end: usize,
    digits: &mut String,
) -> Result<(), AllocError>
    ensures { OnOk result (string_bytes line.new ≡ string_bytes line.old ++ columns_text begin end) }
{
    push_column(line, begin, digits)?;
    push_column(line, end, digits)?;
    push_column(line, end.saturating_sub(begin), digits)
}

// Appends the padding of a slice, and the end of the line.
fn push_end(line: &mut String, padding: &[u8]) -> Result<(), AllocError>
    ensures { OnOk result (string_bytes line.new ≡ string_bytes line.old ++ end_text padding.now) }
{
    push_padding(line, padding)?;
    line.push_str("\n")
}

/// Appends the line of slice `i`, which has these ends and is followed by this padding. `digits` is overwritten.
pub fn push_row(
    line: &mut String,
    i: usize,
    begin: usize,
    end: usize,
    padding: &[u8],
    digits: &mut String,
) -> Result<(), AllocError>
    ensures { OnOk result (string_bytes line.new ≡ string_bytes line.old ++ row_text i begin end padding.now) }
{
    push_number(line, i, 5, digits)?;
    push_columns(line, begin, end, digits)?;
    push_end(line, padding)
}

/// Returns the lines before those of the slices.
pub fn head(alloc: Global, size: usize, count: usize) -> Result<String, AllocError>
    ensures { IfOk result (λ text. string_bytes text ≡ head_text size count) }
{
    format!(in alloc;
        "store: {size} bytes, {count} slices\nslice       begin         end       bytes  padding\n"
    )
}

/// Returns the line after those of the slices.
pub fn tail(alloc: Global, size: usize) -> Result<String, AllocError>
    ensures { IfOk result (λ text. string_bytes text ≡ tail_text size) }
{
    format!(in alloc; "after the last slice: {size} bytes\n")
}

/// Returns the line of a broken rule.
pub fn refused(alloc: Global, number: u8, slice: usize, why: &str) -> Result<String, AllocError>
    ensures { IfOk result (λ text. string_bytes text ≡ refused_text number slice why.now) }
{
    format!(in alloc; "refused: {number} in slice {slice}: {why}\n")
}
