//! The opening of a session.
ghost use Rattle.std.specs.Prelude.{◌≡◌, ◌≤◌, false, length, slice_index_or, Ok, Err, MatchResult};
ghost use Rattle.mysql.specs.Taken.{taken_pair};
ghost use Rattle.host.specs.Meanings.{no_column};
ghost use Rattle.rows.specs.Bounds.{wanted_of, bound};
ghost use Rattle.session.specs.Sessions.{is_open, IsSound, HoldsRow, Places, Opens};

use crate::answers::Slip;
use crate::state::{Opened, Session};
use arrayvec::ArrayVec;
use host::{Host, MOST_COLUMNS};
use layout::MOST_BYTES;
use mysql::{Column, Fault, MysqlType, Refusal, taken};
use rows::Spare;

/// The code and flags that a column of a host's result is bound with. No type is wanted of the columns past the end of the list.
fn bound_column<H: Host>(
    host: &H,
    wanted: &[Option<MysqlType>],
    i: usize,
) -> Result<(u8, u32), Fault>
    ensures { result ≡ taken_pair (wanted_of wanted.now i) (slice_index_or (H.Host.meaning host.now).columns i no_column).code (slice_index_or (H.Host.meaning host.now).columns i no_column).flags }
{
    taken(wanted.get(i).copied().flatten(), host.column(i))
}

/// The codes and flags that all columns are bound with. There may be fewer or more wanted types than columns.
fn bound_columns<H: Host>(
    host: &H,
    wanted: &[Option<MysqlType>],
) -> Result<ArrayVec<Column, MOST_COLUMNS>, Fault>
    ensures { MatchResult result (λ pairs. bound wanted.now (H.Host.meaning host.now).columns ≡ Ok pairs.items) (λ f. bound wanted.now (H.Host.meaning host.now).columns ≡ Err f) }
{
    let mut pairs = ArrayVec::new();
    for i in 0..host.column_count() {
        match bound_column(host, wanted, i) {
            Ok((code, flags)) => pairs.push(Column { code, flags }),
            Err(fault) => return Err(fault.at(i as u8)),
        }
    }
    Ok(pairs)
}

/// Lays the bound columns out, tells the host of their places, and zeroes these.
fn place_columns<H: Host>(
    host: &mut H,
    pairs: &[Column],
    arena: &mut [u8],
    spare: &mut Spare,
) -> Result<(), Fault>
    ensures { length pairs.now ≡ length (H.Host.meaning host.old).columns → length arena.old ≤ 65536 → Places result (H.Host.meaning host.old) (H.Host.meaning host.new) pairs.now spare.new.table arena.old arena.new }
{
    spare
        .table
        .open(pairs, arena.len())
        .ok_or(Fault::new(Refusal::LayoutTooLong))?;
    spare.bind_host(host)?;
    arena[..spare.table.end()].fill(0);
    Ok(())
}

impl<H: Host> Session<H> {
    /// Binds the columns of the host's result to places in the arena, and hands out a slip.
    pub fn open(&mut self, arena: &mut [u8], wanted: &[Option<MysqlType>]) -> Result<Slip, Fault>
        ensures after { Opens H.Host.meaning result wanted.now self.old self.new arena.old arena.new }
        ensures sound { IsSound H.Host.meaning self.old → IsSound H.Host.meaning self.new }
        ensures holds { HoldsRow H.Host.meaning self.old arena.old → HoldsRow H.Host.meaning self.new arena.new }
    {
        if self.is_opened() {
            return Err(Fault::new(Refusal::AlreadyOpened));
        }
        if arena.len() > MOST_BYTES {
            return Err(Fault::new(Refusal::ArenaLength));
        }
        self.bind_to(arena, wanted)
    }

    /// Binds the columns of a session that is not opened yet.
    fn bind_to(&mut self, arena: &mut [u8], wanted: &[Option<MysqlType>]) -> Result<Slip, Fault>
        requires unopened { is_open self.old ≡ false }
        requires short { length arena.old ≤ 65536 }
        ensures { Opens H.Host.meaning result wanted.now self.old self.new arena.old arena.new }
    {
        let pairs = bound_columns(&self.host, wanted)?;
        place_columns(&mut self.host, &pairs, arena, &mut self.spare)?;
        self.opened = Some(Opened {
            table: self.spare.table,
            shown: false,
        });
        Ok(Slip { mark: () })
    }
}
