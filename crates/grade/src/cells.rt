//! A line of a class list as the cells of a table.
use class_list::{ClassRow, Line};
use mysql::Fault;
use std::alloc::{AllocError, Global};
use std::fmt;
use words::InWords;

#[derive(Drop)]
pub struct Cells {
    pub class: String,
    pub outlet: String,
    pub diameter: String,
    /// What was refused, and why.
    pub remarks: String,
}

/// What stands for a value that could not be read, for a null, for an empty text, and where there is no row.
const REFUSED: &str = "refused";

const NULL: &str = "(none)";

const EMPTY: &str = "(empty)";

const NO_ROW: &str = "-";

impl Cells {
    pub fn of(heap: Global, line: &Line) -> Result<Cells, AllocError> {
        match line {
            Line::Row(row) => Cells::of_row(heap, row),
            Line::RowRefused(fault) => Cells::passed_over(heap, "row", *fault),
            Line::Failed(fault) => Cells::passed_over(heap, "failure", *fault),
        }
    }

    fn of_row(heap: Global, row: &ClassRow) -> Result<Cells, AllocError> {
        let mut remarks = String::new(heap);
        let class = match row.class {
            Ok(class) => format!(in heap; "{class}")?,
            Err(fault) => refused(heap, &mut remarks, "class", fault)?,
        };
        let outlet = match &row.outlet {
            Ok(Some(bytes)) => text(heap, bytes)?,
            Ok(None) => String::from_str(heap, NULL)?,
            Err(fault) => refused(heap, &mut remarks, "outlet", *fault)?,
        };
        let diameter = match row.diameter {
            Ok(tenths) => format!(in heap; "{}", Tenths(tenths))?,
            Err(fault) => refused(heap, &mut remarks, "diameter", fault)?,
        };
        Ok(Cells {
            class,
            outlet,
            diameter,
            remarks,
        })
    }

    fn passed_over(heap: Global, what: &str, fault: Fault) -> Result<Cells, AllocError> {
        let fault = InWords(fault);
        Ok(Cells {
            class: String::from_str(heap, NO_ROW)?,
            outlet: String::from_str(heap, NO_ROW)?,
            diameter: String::from_str(heap, NO_ROW)?,
            remarks: format!(in heap; "{what} passed over: {fault}")?,
        })
    }
}

/// Remarks that a value was refused, and gives what stands for it.
fn refused(
    heap: Global,
    remarks: &mut String,
    what: &str,
    fault: Fault,
) -> Result<String, AllocError> {
    if !remarks.is_empty() {
        remarks.push_str("; ")?;
    }
    write!(remarks, "{what} not read: {}", InWords(fault))?;
    String::from_str(heap, REFUSED)
}

/// Bytes as text where they are printable text, else in hexadecimal.
fn text(heap: Global, bytes: &[u8]) -> Result<String, AllocError> {
    if bytes.is_empty() {
        return String::from_str(heap, EMPTY);
    }
    if let Ok(text) = std::str::from_utf8(bytes) {
        if text.chars().all(is_printable) {
            return String::from_str(heap, text);
        }
    }
    let mut digits = String::from_str(heap, "0x")?;
    for byte in bytes {
        write!(digits, "{byte:02x}")?;
    }
    Ok(digits)
}

fn is_printable(c: char) -> bool {
    c >= ' ' && !('\u{7f}'..='\u{9f}').contains(&c)
}

/// Tenths of a millimetre, in millimetres.
#[derive(Clone, Copy)]
struct Tenths(i32);

impl fmt::Display for Tenths {
    fn fmt<W: fmt::Write>(&self, f: &mut fmt::Formatter<W>) -> fmt::Result {
        let sign = if self.0 < 0 { "-" } else { "" };
        let tenths = self.0.unsigned_abs();
        write!(f, "{sign}{}.{}", tenths / 10, tenths % 10)
    }
}
