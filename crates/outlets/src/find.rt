//! The outlet of a class.
ghost use Rattle.std.specs.Prelude.{◌≡◌, ◌^◌, ◌<◌, true, false, [], length, Ok, IfOk, IfSome};
ghost use Rattle.readings.specs.Integers.{integer};
ghost use Rattle.rows.specs.Reach.{capacities_of, first_capacities};
ghost use Rattle.rows.specs.Standing.{pairs_of};
ghost use Rattle.rows.specs.Dues.{opening, read_as};
ghost use Rattle.session.specs.Sessions.{row_due, table_of};
ghost use Rattle.going.specs.Going.{Ready};
ghost use Rattle.outlets.specs.Outlets.{as_text, copied, Copied, OutletIn, OutletDue};

use going::fetch_next;
use host::Host;
use mysql::{Fault, Refusal};
use rows::Fetch;
use session::Session;

/// The columns of a class list.
pub const CLASS: usize = 0;

pub const OUTLET: usize = 1;

/// Copies bytes to the front of a buffer that has room for all of them. One that has not stays as it is, since half a text may be another's name.
fn copy_whole(bytes: &[u8], into: &mut [u8])
    ensures { into.new ≡ copied bytes.now into.old }
{
    if bytes.len() <= into.len() {
        into[..bytes.len()].copy_from_slice(bytes);
    }
}

/// Whether the row that is shown is of a class.
fn is_of_class<H: Host>(session: &Session<H>, arena: &[u8], class: i32) -> bool
    requires { Ready H.Host.meaning session.now arena.now }
    ensures yes { result ≡ true → read_as (integer (2 ^ 31)) 0 (row_due H.Host.meaning session.now 0) ≡ Ok class }
    ensures no { result ≡ false → read_as (integer (2 ^ 31)) 0 (row_due H.Host.meaning session.now 0) ≡ Ok class → ⊥ }
{
    match session.read_as::<i32>(arena, CLASS) {
        Ok(number) => number == class,
        Err(_) => false,
    }
}

/// Copies the outlet of the row that is shown, and answers its length.
fn copy_outlet<H: Host>(session: &Session<H>, arena: &[u8], into: &mut [u8]) -> Result<usize, Fault>
    requires { Ready H.Host.meaning session.now arena.now }
    ensures copied { Copied (read_as as_text 1 (row_due H.Host.meaning session.now 1)) result into.old into.new }
    ensures small { IfOk result (λ n. n < 2 ^ 63) }
{
    match session.read(arena, OUTLET)? {
        Some(shown) => {
            let bytes = shown.value().as_bytes();
            copy_whole(bytes, into);
            Ok(bytes.len())
        }
        None => Err(Fault::new(Refusal::UnexpectedNull).at(OUTLET as u8)),
    }
}

/// Fetches rows up to the first of a class that is shown, and copies its outlet. A row that is refused and a failure show no class: they are passed
/// over.
fn find<H: Host>(
    session: &mut Session<H>,
    arena: &mut [u8],
    class: i32,
    into: &mut [u8],
) -> Result<Option<usize>, Fault>
    requires ready { Ready H.Host.meaning session.old arena.old }
    requires fresh { capacities_of (table_of session.old) ≡ first_capacities (pairs_of (table_of session.old)) }
    ensures found { OutletIn (pairs_of (table_of session.old)) arena.old arena.new class (H.Host.meaning session.old.host).coming into.old result into.new }
    ensures small { IfOk result (λ found. IfSome found (λ n. n < 2 ^ 63)) }
{
    loop {
        match fetch_next(session, arena) {
            Ok(Fetch::Row) => {
                if is_of_class(session, arena, class) {
                    return Ok(Some(copy_outlet(session, arena, into)?));
                }
            }
            Ok(Fetch::End) => return Ok(None),
            Err(_) => {}
        }
    }
}

/// Copies the outlet of a class, and answers its length: of the first row with this class that a session over this host and arena shows. There is
/// none where it shows no such row. A buffer that is too short for the outlet stays as it is.
pub fn find_outlet<H: Host + Drop>(
    host: H,
    arena: &mut [u8],
    class: i32,
    into: &mut [u8],
) -> Result<Option<usize>, Fault>
    ensures found { OutletDue (opening false (length arena.old) (H.Host.meaning host).carries [] (H.Host.meaning host).columns) arena.old arena.new class (H.Host.meaning host).coming into.old result into.new }
    ensures small { IfOk result (λ found. IfSome found (λ n. n < 2 ^ 63)) }
{
    let mut session = Session::new(host);
    match session.open(arena, &[]) {
        Ok(slip) => {
            let found = find(&mut session, arena, class, into);
            let _host = session.close(Some(slip));
            found
        }
        Err(fault) => {
            let _host = session.close(None);
            Err(fault)
        }
    }
}
