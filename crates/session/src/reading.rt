//! Readings of the row that is shown.
ghost use Rattle.std.specs.Prelude.{◌≡◌, ◌==◌, cond, true, length, Ok, Err};
ghost use Rattle.mysql.specs.declared.fault.Refusal.TheVariants.{ArenaLength};
ghost use Rattle.mysql.specs.Faults.{refused};
ghost use Rattle.rows.specs.Dues.{read_as};
ghost use Rattle.session.specs.Sessions.{IsSound, HoldsRow, passes, row_due, looked, reading, shown_by};

use crate::state::{Opened, Session, Value};
use host::Host;
use mysql::{Fault, MysqlType, Refusal};
use readings::{FromSql, MysqlValue, from_nullable_sql};

impl Opened {
    /// The check of the arena that a fetch and a reading make: it is as long as it was at the opening.
    pub(crate) fn check(&self, arena: usize) -> Result<(), Fault>
        ensures { result ≡ cond (arena == self.now.table.room) (Ok tt) (Err (refused ArenaLength)) }
    {
        if arena == self.table.room {
            Ok(())
        } else {
            Err(Fault::new(Refusal::ArenaLength))
        }
    }

    /// What a column's record and place say, where the arena is as long as it was.
    fn look<'s, 'a>(
        &'s self,
        arena: &'a [u8],
        column: usize,
    ) -> Result<Option<Value<'s, 'a>>, Fault>
        requires { length arena.now ≡ self.now.table.room }
        ensures { shown_by result ≡ looked self.now.shown self.now.table arena.now column }
    {
        let record = self
            .table
            .column(column)
            .ok_or(Fault::new(Refusal::NoSuchColumn))?;
        if !self.shown {
            return Err(Fault::new(Refusal::NoCurrentRow));
        }
        if record.is_null {
            return Ok(None);
        }
        let pair = (record.code, record.flags);
        let tpe = MysqlType::try_from(pair).map_err(|fault| fault.at(column as u8))?;
        let start = record.start;
        let end = start + record.byte_count() as usize;
        let value = MysqlValue::new(&arena[start..end], tpe);
        Ok(Some(Value { value, of: self }))
    }
}

impl<H: Host> Session<H> {
    /// What the shown row has in a column: none for a null, or bytes with their type.
    pub fn read<'s, 'a>(
        &'s self,
        arena: &'a [u8],
        column: usize,
    ) -> Result<Option<Value<'s, 'a>>, Fault>
        ensures exact { shown_by result ≡ reading self.now arena.now column }
        ensures row { IsSound H.Host.meaning self.now → HoldsRow H.Host.meaning self.now arena.now → passes self.now arena.now ≡ true → shown_by result ≡ row_due H.Host.meaning self.now column }
    {
        let opened = self.opened.as_ref().ok_or(Fault::new(Refusal::Unopened))?;
        opened.check(arena.len())?;
        opened.look(arena, column)
    }

    /// What the shown row has in a column, as a value of a type: a null is refused, and a fault of the reading names the column.
    pub fn read_as<T: FromSql>(&self, arena: &[u8], column: usize) -> Result<T, Fault>
        ensures exact { result ≡ read_as T.FromSql.reads column (reading self.now arena.now column) }
        ensures row { IsSound H.Host.meaning self.now → HoldsRow H.Host.meaning self.now arena.now → passes self.now arena.now ≡ true → result ≡ read_as T.FromSql.reads column (row_due H.Host.meaning self.now column) }
    {
        let value = self.read(arena, column)?.map(|shown| shown.value);
        from_nullable_sql(value).map_err(|fault| fault.at(column as u8))
    }
}

impl Value<'_, '_> {
    /// The bytes, with their type.
    pub fn value(&self) -> MysqlValue<'_>
        ensures { result ≡ self.now.value }
    {
        self.value
    }
}
