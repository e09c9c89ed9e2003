//! A tape in words. Each part of it is printed by a type of its own.
use mysql::{Column, Fault, MysqlType, last_error_type};
use readings::{FromSql, MysqlTime, MysqlValue};
use std::fmt;
use tape::{Columns, Event, Field, Recording};

/// A recording's columns and events, a line each, with a line for each field of a row.
#[derive(Clone, Copy)]
pub struct InLines<'a>(pub Recording<'a>);

impl fmt::Display for InLines<'_> {
    fn fmt<W: fmt::Write>(&self, f: &mut fmt::Formatter<W>) -> fmt::Result {
        let recording = self.0;
        let width = recording.columns().count();
        let count = recording.events().count();
        writeln!(f, "{width} columns, {count} events")?;
        for (i, column) in recording.columns().enumerate() {
            writeln!(f, "  column {i}: {}", ShownColumn(column))?;
        }
        for (i, event) in recording.events().enumerate() {
            // Events are counted from 1, as rows are.
            let place = i.saturating_add(1);
            let columns = recording.columns();
            write!(f, "  event {place}: {}", ShownEvent { columns, event })?;
        }
        Ok(())
    }
}

#[derive(Clone, Copy)]
struct ShownColumn(Column);

impl fmt::Display for ShownColumn {
    fn fmt<W: fmt::Write>(&self, f: &mut fmt::Formatter<W>) -> fmt::Result {
        let Column { code, flags } = self.0;
        write!(f, "code {code}, flags 0x{flags:08x}, ")?;
        match MysqlType::try_from((code, flags)) {
            Ok(tpe) => write!(f, "{tpe:?}"),
            Err(_) => write!(f, "no type"),
        }
    }
}

#[derive(Clone, Copy)]
struct ShownEvent<'a> {
    columns: Columns<'a>,
    event: Event<'a>,
}

impl fmt::Display for ShownEvent<'_> {
    fn fmt<W: fmt::Write>(&self, f: &mut fmt::Formatter<W>) -> fmt::Result {
        match self.event {
            Event::Row(row) => {
                writeln!(f, "row")?;
                for (i, (column, field)) in self.columns.zip(row.fields()).enumerate() {
                    writeln!(f, "    {i}: {}", ShownField { column, field })?;
                }
                Ok(())
            }
            Event::Failure(number) => {
                let kind = last_error_type(number);
                writeln!(f, "failure {number} ({kind:?})")
            }
        }
    }
}

#[derive(Clone, Copy)]
struct ShownField<'a> {
    column: Column,
    field: Field<'a>,
}

impl fmt::Display for ShownField<'_> {
    fn fmt<W: fmt::Write>(&self, f: &mut fmt::Formatter<W>) -> fmt::Result {
        let Field::Held { bytes, lost } = self.field else {
            return write!(f, "null");
        };
        let length = bytes.len();
        let mark = if lost { ", a figure lost" } else { "" };
        writeln!(f, "{length} bytes{mark}: {}", ShownBytes(bytes))?;
        let Column { code, flags } = self.column;
        let Ok(tpe) = MysqlType::try_from((code, flags)) else {
            return write!(f, "       no type, so no reading");
        };
        let value = MysqlValue::new(bytes, tpe);
        let short = Answer(i32::from_sql(&value));
        let long = Answer(i64::from_sql(&value));
        let time = Answer(MysqlTime::from_sql(&value).map(ShownTime));
        write!(f, "       i32 {short}, i64 {long}, time {time}")
    }
}

/// Text between quotes where the bytes are printable, else each byte in hexadecimal.
#[derive(Clone, Copy)]
struct ShownBytes<'a>(&'a [u8]);

impl fmt::Display for ShownBytes<'_> {
    fn fmt<W: fmt::Write>(&self, f: &mut fmt::Formatter<W>) -> fmt::Result {
        if let Ok(text) = std::str::from_utf8(self.0) {
            if text.chars().all(is_printable) {
                return write!(f, "\"{text}\"");
            }
        }
        for byte in self.0 {
            write!(f, "{byte:02x}")?;
        }
        Ok(())
    }
}

fn is_printable(c: char) -> bool {
    c >= ' ' && !('\u{7f}'..='\u{9f}').contains(&c)
}

/// What a reading makes of a value, or the number of its refusal.
#[derive(Clone, Copy)]
struct Answer<T>(Result<T, Fault>);

impl<T: fmt::Display> fmt::Display for Answer<T> {
    fn fmt<W: fmt::Write>(&self, f: &mut fmt::Formatter<W>) -> fmt::Result {
        match &self.0 {
            Ok(x) => write!(f, "{x}"),
            Err(fault) => {
                let number = fault.number();
                write!(f, "refusal {number}")
            }
        }
    }
}

#[derive(Clone, Copy)]
struct ShownTime(MysqlTime);

impl fmt::Display for ShownTime {
    fn fmt<W: fmt::Write>(&self, f: &mut fmt::Formatter<W>) -> fmt::Result {
        let t = self.0;
        let (year, month, day) = (t.year, t.month, t.day);
        let (hour, minute, second) = (t.hour, t.minute, t.second);
        let micros = t.second_part;
        write!(
            f,
            "{year:04}-{month:02}-{day:02} {hour:02}:{minute:02}:{second:02}.{micros:06}"
        )
    }
}
